ghost use Rattle.std.specs.Prelude.{◌≡◌, ◌<◌, ◌≤◌, ◌↔◌, ℕ, length, map, All, IsTrue, IfOk, OnOk};
ghost use Rattle.pair_structure.specs.Structure.{IsOver};
ghost use Rattle.ctl_form.specs.Form.{form_of};
ghost use Rattle.ctl_form.specs.Kind.{Satisfies};
ghost use Rattle.ctl_form.specs.Predecessors.{ArePredecessors};
ghost use Rattle.ctl_form.specs.inside.Known.{AreKnown};
ghost use Rattle.ctl_form.specs.Row.{IsAt};
ghost use Rattle.ctl_form.specs.Truth.{Holds};

use crate::holds::{Known, truth_row};
use crate::predecessors::Predecessors;
use crate::{BitRow, Formula, PairSpec, whole};
use pair_structure::{Memory, PairStructure, Role};
use std::alloc::Global;
use std::collections::BTreeMap;

/// Whether the structure satisfies the kind. A clause or a subformula that stands several times is labelled once and looked up after that:
/// of n operators k that differ cost k labellings and n look-ups among k.
pub fn solves(
    alloc: Global,
    m: &PairStructure,
    spec: &PairSpec,
    a: &Role,
    b: &Role,
) -> Result<bool, Memory>
    requires { IsOver a.now b.now m.now }
    ensures { IfOk result (λ yes. IsTrue yes ↔ Satisfies a.now b.now spec.now.clauses m.now) }
{
    let forms = whole(alloc, spec.clauses.as_slice(), a, b)?;
    let predecessors = Predecessors::of(alloc, m)?;
    all_hold(alloc, m, &predecessors, &forms, m.start_count(a, b))
}

/// Whether each of the formulas holds at each of the first states.
fn all_hold(
    alloc: Global,
    m: &PairStructure,
    predecessors: &Predecessors,
    forms: &[Formula],
    count: u64,
) -> Result<bool, Memory>
    requires predecessors { ArePredecessors m.now predecessors.now.begins.items predecessors.now.sources.items }
    requires within { count ≤ length m.now.states }
    ensures { IfOk result (λ yes. IsTrue yes ↔ ((s : ℕ) → s < count → All (λ f. Holds m.now f s) (map form_of forms.now))) }
{
    let mut known = BTreeMap::new(alloc);
    for form in forms {
        if !holds_below(alloc, m, predecessors, &mut known, form, count)? {
            return Ok(false);
        }
    }
    Ok(true)
}

/// Whether the formula holds at each of the first states.
fn holds_below(
    alloc: Global,
    m: &PairStructure,
    predecessors: &Predecessors,
    known: &mut Known,
    form: &Formula,
    count: u64,
) -> Result<bool, Memory>
    requires predecessors { ArePredecessors m.now predecessors.now.begins.items predecessors.now.sources.items }
    requires within { count ≤ length m.now.states }
    requires known { AreKnown m.now known.old }
    ensures holds { IfOk result (λ yes. IsTrue yes ↔ ((s : ℕ) → s < count → Holds m.now (form_of form.now) s)) }
    ensures known { OnOk result (AreKnown m.now known.new) }
{
    let row = truth_row(alloc, m, predecessors, known, form)?;
    Ok(is_true_below(&row, count))
}

fn is_true_below(row: &BitRow, count: u64) -> bool
    requires { count ≤ length row.now }
    ensures { IsTrue result ↔ ((s : ℕ) → s < count → IsAt row.now s) }
{
    for s in 0..count {
        if !row.has(s) {
            return false;
        }
    }
    true
}
