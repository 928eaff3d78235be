ghost use Rattle.std.specs.Prelude.{◌≡◌, ◌<◌, ◌↔◌, length, true, false, IsTrue, IfOk};
ghost use Rattle.pair_structure.specs.Structure.{GoesOn};
ghost use Rattle.ctl_form.specs.Form.{Form, next};
ghost use Rattle.ctl_form.specs.Row.{IsAt, IsRowOf, IsTruthOf};
ghost use Rattle.ctl_form.specs.inside.Next.{IsOf};
ghost use Rattle.ctl_form.specs.Truth.{After};

use crate::BitRow;
use pair_structure::{Memory, Move, PairStructure, Side};
use std::alloc::Global;

/// The states where p holds after each move of the side, or after some; with no side, of either. One pass over the moves.
pub(crate) fn next_row(
    alloc: Global,
    m: &PairStructure,
    all: bool,
    side: Option<Side>,
    p: &BitRow,
) -> Result<BitRow, Memory>
    requires goes_on { GoesOn m.now }
    requires p_long { length p.now ≡ length m.now.states }
    ensures { (f : Form) → IsTruthOf m.now f p.now → IfOk result (IsTruthOf m.now (next all side f)) }
{
    if all {
        each_next(alloc, m, side, p)
    } else {
        some_next(alloc, m, side, p)
    }
}

/// Where no such move leads to where p fails.
fn each_next(
    alloc: Global,
    m: &PairStructure,
    side: Option<Side>,
    p: &BitRow,
) -> Result<BitRow, Memory>
    requires goes_on { GoesOn m.now }
    requires p_long { length p.now ≡ length m.now.states }
    ensures { IfOk result (IsRowOf (length m.now.states) (After m.now true side (IsAt p.now))) }
{
    let fails = some_next(alloc, m, side, &p.not(alloc)?)?;
    fails.not(alloc)
}

fn some_next(
    alloc: Global,
    m: &PairStructure,
    side: Option<Side>,
    p: &BitRow,
) -> Result<BitRow, Memory>
    requires { length p.now ≡ length m.now.states }
    ensures { IfOk result (IsRowOf (length m.now.states) (After m.now false side (IsAt p.now))) }
{
    let mut row = BitRow::none(alloc, m.states().len())?;
    for step in m.moves() {
        if leads(side, *step, p) {
            row.add(step.from);
        }
    }
    Ok(row)
}

fn leads(side: Option<Side>, step: Move, p: &BitRow) -> bool
    requires { step.to < length p.now }
    ensures { IsTrue result ↔ (IsOf side step.side × IsAt p.now step.to) }
{
    is_of(side, step.side) && p.has(step.to)
}

fn is_of(side: Option<Side>, by: Side) -> bool
    ensures { IsTrue result ↔ IsOf side by }
{
    match side {
        Some(side) => by == side,
        None => true,
    }
}
