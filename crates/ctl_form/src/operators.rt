ghost use Rattle.std.specs.Prelude.{◌≡◌, ◌↔◌, ℕ, length, true, IsTrue, IfOk};
ghost use Rattle.ctl_form.specs.Form.{Form, always, sometime, until};
ghost use Rattle.ctl_form.specs.inside.Operators.{one_form, two_form};
ghost use Rattle.ctl_form.specs.Predecessors.{ArePredecessors};
ghost use Rattle.ctl_form.specs.Row.{IsAt, IsRowOf, IsTruthOf};
ghost use Rattle.ctl_form.specs.Truth.{AlongPaths, HasLocal};

use crate::BitRow;
use crate::next_row::next_row;
use crate::predecessors::Predecessors;
use crate::until_row::until_row;
use pair_structure::{Memory, PairStructure, Side, local_of};
use std::alloc::Global;

/// What formulas are labelled on.
#[derive(Clone, Copy)]
pub(crate) struct Ground<'a> {
    pub(crate) alloc: Global,
    pub(crate) m: &'a PairStructure,
    pub(crate) predecessors: &'a Predecessors,
}

/// What has one part.
#[derive(Clone, Copy)]
pub(crate) enum OneOperator {
    Not,
    Next { all: bool, side: Option<Side> },
    Always { all: bool },
    Sometime { all: bool },
}

/// What has two parts.
#[derive(Clone, Copy)]
pub(crate) enum TwoOperator {
    And,
    Or,
    Implies,
    Until { all: bool, weak: bool },
}

/// The row of a formula from that of its part.
pub(crate) fn one_row(
    ground: &Ground<'_>,
    operator: OneOperator,
    p: &BitRow,
) -> Result<BitRow, Memory>
    requires predecessors { ArePredecessors ground.now.m.now ground.now.predecessors.now.begins.items ground.now.predecessors.now.sources.items }
    requires p_long { length p.now ≡ length ground.now.m.now.states }
    ensures { (f : Form) → IsTruthOf ground.now.m.now f p.now → IfOk result (IsTruthOf ground.now.m.now (one_form operator f)) }
{
    // tells that the structure goes on
    let _states = ground.m.states();
    match operator {
        OneOperator::Not => p.not(ground.alloc),
        OneOperator::Next { all, side } => next_row(ground.alloc, ground.m, all, side, p),
        OneOperator::Always { all } => always_row(ground, all, p),
        OneOperator::Sometime { all } => sometime_row(ground, all, p),
    }
}

/// The row of a formula from those of its two parts.
pub(crate) fn two_rows(
    ground: &Ground<'_>,
    operator: TwoOperator,
    p: &BitRow,
    q: &BitRow,
) -> Result<BitRow, Memory>
    requires predecessors { ArePredecessors ground.now.m.now ground.now.predecessors.now.begins.items ground.now.predecessors.now.sources.items }
    requires p_long { length p.now ≡ length ground.now.m.now.states }
    requires q_long { length q.now ≡ length ground.now.m.now.states }
    ensures { (f g : Form) → IsTruthOf ground.now.m.now f p.now → IsTruthOf ground.now.m.now g q.now → IfOk result (IsTruthOf ground.now.m.now (two_form operator f g)) }
{
    match operator {
        TwoOperator::And => p.and(ground.alloc, q),
        TwoOperator::Or => p.or(ground.alloc, q),
        TwoOperator::Implies => p.implies(ground.alloc, q),
        TwoOperator::Until { all, weak } => along_row(ground, all, weak, p, q),
    }
}

/// A weak until of what never holds.
fn always_row(ground: &Ground<'_>, all: bool, p: &BitRow) -> Result<BitRow, Memory>
    requires predecessors { ArePredecessors ground.now.m.now ground.now.predecessors.now.begins.items ground.now.predecessors.now.sources.items }
    requires p_long { length p.now ≡ length ground.now.m.now.states }
    ensures { (f : Form) → IsTruthOf ground.now.m.now f p.now → IfOk result (IsTruthOf ground.now.m.now (always all f)) }
{
    let never = BitRow::none(ground.alloc, ground.m.states().len())?;
    along_row(ground, all, true, p, &never)
}

/// An until that waits without a condition.
fn sometime_row(ground: &Ground<'_>, all: bool, p: &BitRow) -> Result<BitRow, Memory>
    requires predecessors { ArePredecessors ground.now.m.now ground.now.predecessors.now.begins.items ground.now.predecessors.now.sources.items }
    requires p_long { length p.now ≡ length ground.now.m.now.states }
    ensures { (f : Form) → IsTruthOf ground.now.m.now f p.now → IfOk result (IsTruthOf ground.now.m.now (sometime all f)) }
{
    let ever = BitRow::all(ground.alloc, ground.m.states().len())?;
    along_row(ground, all, false, &ever, p)
}

/// An until of any of the four kinds.
fn along_row(
    ground: &Ground<'_>,
    all: bool,
    weak: bool,
    p: &BitRow,
    q: &BitRow,
) -> Result<BitRow, Memory>
    requires predecessors { ArePredecessors ground.now.m.now ground.now.predecessors.now.begins.items ground.now.predecessors.now.sources.items }
    requires p_long { length p.now ≡ length ground.now.m.now.states }
    requires q_long { length q.now ≡ length ground.now.m.now.states }
    ensures { (f g : Form) → IsTruthOf ground.now.m.now f p.now → IsTruthOf ground.now.m.now g q.now → IfOk result (IsTruthOf ground.now.m.now (until all weak f g)) }
{
    // tells that the structure goes on
    let _states = ground.m.states();
    if weak {
        unless_row(ground, all, p, q)
    } else {
        until_row(ground.alloc, ground.m, ground.predecessors, all, p, q)
    }
}

/// A weak until fails where, over the other choice of paths, q does not come to hold before both fail.
fn unless_row(ground: &Ground<'_>, all: bool, p: &BitRow, q: &BitRow) -> Result<BitRow, Memory>
    requires predecessors { ArePredecessors ground.now.m.now ground.now.predecessors.now.begins.items ground.now.predecessors.now.sources.items }
    requires p_long { length p.now ≡ length ground.now.m.now.states }
    requires q_long { length q.now ≡ length ground.now.m.now.states }
    ensures { IfOk result (IsRowOf (length ground.now.m.now.states) (AlongPaths ground.now.m.now all true (IsAt p.now) (IsAt q.now))) }
{
    // tells that the structure goes on
    let _states = ground.m.states();
    let not_p = p.not(ground.alloc)?;
    let not_q = q.not(ground.alloc)?;
    let neither = not_p.and(ground.alloc, &not_q)?;
    let fails = until_row(
        ground.alloc,
        ground.m,
        ground.predecessors,
        !all,
        &not_q,
        &neither,
    )?;
    fails.not(ground.alloc)
}

/// The states where the side is in this local state. One pass over the states.
pub(crate) fn local_row(
    alloc: Global,
    m: &PairStructure,
    side: Side,
    local: u8,
) -> Result<BitRow, Memory>
    ensures { IfOk result (IsRowOf (length m.now.states) (HasLocal m.now side local)) }
{
    let states = m.states();
    let mut row = BitRow::none(alloc, states.len())?;
    for state in 0..states.len() {
        if local_of(side, states[state]) == local {
            row.add(state as u64);
        }
    }
    Ok(row)
}
