ghost use Rattle.std.specs.Prelude.{true, false, ◌≡◌, ◌<◌, ◌+◌, ◌*◌, ℕ, IfOk, OnOk, length};
ghost use Rattle.pair_structure.specs.Role.{HasOneStart, start_at, starting_at};
ghost use Rattle.pair_structure.specs.Structure.{Structure, start_count};
ghost use Rattle.unravel.specs.inside.Joined.{whole_of};
ghost use Rattle.unravel.specs.inside.Joining.{HaveRoots, IsAtRow, IsJoined};
ghost use Rattle.unravel.specs.Outcome.{IsSynthesized, SatisfiesRoots};
ghost use Rattle.unravel.specs.inside.Unravelled.{IsUnravelledOf};

use crate::joining::Joining;
use crate::unravelling::unravelled;
use closure_sets::Closure;
use ctl_form::{Normal, Part};
use deletion_rules::{Pruned, prune};
use pair_structure::{Memory, PairStructure, Role};
use std::alloc::Global;
use tableau_graph::Tableau;

/// What synthesis answers.
#[derive(Drop)]
pub enum Outcome {
    /// A structure over the two roles at each of whose start states all conjuncts are true.
    Structure(PairStructure),
    /// No structure over the two roles is such.
    Unsatisfiable,
}

/// A finite structure over the roles that satisfies the conjuncts of the normal form, or that there is none (Emerson and Clarke 1982). It
/// joins one for each pair of starts.
pub fn synthesize(alloc: Global, a: &Role, b: &Role, form: &Normal) -> Result<Outcome, Memory>
    ensures { IfOk result (IsSynthesized a.now b.now form.now) }
{
    let mut joining = Joining::new(alloc, a, b)?;
    for start in a.starts() {
        if !join_row(alloc, a, b, form, *start, &mut joining)? {
            return Ok(Outcome::Unsatisfiable);
        }
    }
    Ok(Outcome::Structure(joining.made(alloc, a, b)?))
}

/// Joins a structure for this start of side a and each of side b; false where one of them has none.
fn join_row(
    alloc: Global,
    a: &Role,
    b: &Role,
    form: &Normal,
    start: u8,
    joining: &mut Joining,
) -> Result<bool, Memory>
    requires within { start < length a.now.locals }
    requires row { IsAtRow a.now b.now start joining.old.begun }
    requires joined { IsJoined a.now b.now joining.old.begun (whole_of joining.old) }
    requires roots { HaveRoots form.now joining.old.begun (whole_of joining.old) }
    ensures joined { IfOk result (λ some. some ≡ true → IsJoined a.now b.now joining.new.begun (whole_of joining.new)) }
    ensures roots { IfOk result (λ some. some ≡ true → HaveRoots form.now joining.new.begun (whole_of joining.new)) }
    ensures begun { IfOk result (λ some. some ≡ true → joining.new.begun ≡ joining.old.begun + length b.now.starts) }
    ensures none { IfOk result (λ some. some ≡ false → (m : Structure) → SatisfiesRoots a.now b.now form.now m → ⊥) }
{
    let one_a = a.starting_at(alloc, start)?;
    for other in b.starts() {
        let one_b = b.starting_at(alloc, *other)?;
        match synthesize_one(alloc, &one_a, &one_b, form)? {
            Outcome::Structure(m) => joining.add(&m)?,
            Outcome::Unsatisfiable => return Ok(false),
        }
    }
    Ok(true)
}

/// The same over roles with one start each: from a part of the tableau, if it tells of a structure, and else from the whole.
fn synthesize_one(alloc: Global, a: &Role, b: &Role, form: &Normal) -> Result<Outcome, Memory>
    requires one_a { HasOneStart a.now }
    requires one_b { HasOneStart b.now }
    ensures { IfOk result (IsSynthesized a.now b.now form.now) }
{
    let closure = Closure::of(alloc, form)?;
    if has_choices(&closure) {
        let part = Tableau::build_part(alloc, &closure, a, b)?;
        if let Some(m) = structure_of(alloc, part)? {
            return Ok(Outcome::Structure(m));
        }
    }
    let tableau = Tableau::build(alloc, &closure, a, b)?;
    match structure_of(alloc, tableau)? {
        Some(m) => Ok(Outcome::Structure(m)),
        None => Ok(Outcome::Unsatisfiable),
    }
}

/// A structure from what the rules of deletion leave of the tableau; none where they leave nothing, which tells of a whole tableau alone that
/// no structure satisfies the conjuncts.
fn structure_of(alloc: Global, tableau: Tableau) -> Result<Option<PairStructure>, Memory>
    ensures { IfOk result (IsUnravelledOf tableau) }
{
    match prune(alloc, tableau)? {
        Pruned::Alive(ranks) => {
            let m = unravelled(alloc, &ranks)?;
            Ok(Some(m))
        }
        Pruned::Dead => Ok(None),
    }
}

/// Whether several E untils can be put off at once, so that a part of the tableau may be smaller than the whole.
fn has_choices(c: &Closure) -> bool {
    let mut untils = 0u32;
    for member in 0..c.count() {
        if is_some_until(c.part(member)) {
            untils = untils.saturating_add(1);
        }
    }
    untils > 1
}

fn is_some_until(part: Part) -> bool {
    match part {
        Part::Until { all: false, .. } => true,
        _ => false,
    }
}
