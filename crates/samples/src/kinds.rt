//! Roles, formulas, kinds and what is made of them, spelled as the lines of a specification. A role is its lines; clauses are parted by
//! semicolons.

ghost use Rattle.std.specs.Prelude.{IfOk};
ghost use Rattle.pair_structure.specs.Role.{HasOneStart};

use crate::texts::to_lines;
use crate::words::cut;
use closure_sets::Closure;
use ctl_form::{Formula, Normal, PairSpec, whole};
use ctl_text::{Spec, read_spec};
use pair_structure::Role;
use std::alloc::Global;
use std::test::Fail;

/// The specification of these lines, which stand between the head and `done`.
pub fn spec(alloc: Global, lines: &str) -> Result<Spec, Fail> {
    let text = format!(in alloc; "pairs 1/{lines}done/")?;
    let text = to_lines(alloc, text.as_str())?;
    Ok(read_spec(alloc, text.as_str().as_bytes())?)
}

/// The role of these lines.
pub fn any_role(alloc: Global, lines: &str) -> Result<Role, Fail> {
    let spec = spec(alloc, lines)?;
    Ok(first_role(&spec)?.copy(alloc)?)
}

/// The role of these lines, which has one start.
pub fn role(alloc: Global, lines: &str) -> Result<Role, Fail>
    ensures { IfOk result HasOneStart }
{
    let role = any_role(alloc, lines)?;
    if role.starts().len() != 1 {
        return Err(Fail::from("one start"));
    }
    Ok(role)
}

/// The first role of a specification.
pub fn first_role(spec: &Spec) -> Result<&Role, Fail> {
    Ok(spec.network().roles().first().ok_or("a role")?)
}

/// The first kind of a specification.
pub fn first_kind(spec: &Spec) -> Result<&PairSpec, Fail> {
    Ok(spec.kinds().first().ok_or("a kind")?)
}

/// The specification of one kind `k` with these clauses, of which both sides are this role.
pub fn pair(alloc: Global, role: &str, clauses: &str) -> Result<Spec, Fail> {
    let name = cut(cut(role, "/").0, " ").1;
    let mut lines = format!(in alloc; "{role}kind k {name} {name}/")?;
    for clause in clauses.split_terminator(';') {
        lines.push_str("require ")?;
        lines.push_str(clause)?;
        lines.push('/')?;
    }
    lines.push_str("end/")?;
    spec(alloc, lines.as_str())
}

/// The formula of this text, over two such roles.
pub fn formula(alloc: Global, role: &str, text: &str) -> Result<Formula, Fail> {
    let spec = pair(alloc, role, text)?;
    let kind = first_kind(&spec)?;
    let clause = kind.clauses.as_slice().first().ok_or("a clause")?;
    Ok(clause.copy(alloc)?)
}

/// What the first kind asks, both of whose sides are the first role.
pub fn conjuncts(alloc: Global, spec: &Spec) -> Result<Vec<Formula>, Fail> {
    let kind = first_kind(spec)?;
    let role = first_role(spec)?;
    Ok(whole(alloc, kind.clauses.as_slice(), role, role)?)
}

/// The normal form of these clauses and of the free arcs of two such roles.
pub fn normal(alloc: Global, role: &str, clauses: &str) -> Result<Normal, Fail> {
    let spec = pair(alloc, role, clauses)?;
    Ok(Normal::of(alloc, &conjuncts(alloc, &spec)?)?)
}

/// The closure of these clauses and of the free arcs of two such roles.
pub fn closure(alloc: Global, role: &str, clauses: &str) -> Result<Closure, Fail> {
    let normal = normal(alloc, role, clauses)?;
    Ok(Closure::of(alloc, &normal)?)
}
