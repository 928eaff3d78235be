ghost use Rattle.std.specs.Prelude.{IfOk, OnOk};
ghost use Rattle.ctl_form.specs.Form.{form_of};
ghost use Rattle.ctl_form.specs.inside.Known.{AreKnown};
ghost use Rattle.ctl_form.specs.Predecessors.{ArePredecessors};
ghost use Rattle.ctl_form.specs.Row.{IsTruthOf};
ghost use Rattle.ctl_form.specs.inside.Operators.{one_form, two_form};

use crate::code::code_of;
use crate::operators::{Ground, OneOperator, TwoOperator, local_row, one_row, two_rows};
use crate::predecessors::Predecessors;
use crate::{BitRow, Formula};
use pair_structure::{Memory, PairStructure};
use std::alloc::Global;
use std::collections::BTreeMap;

/// The rows of the formulas that were labelled, by the formulas' codes.
pub(crate) type Known = BTreeMap<Vec<u8>, BitRow>;

/// The truth of a formula at every state. Linear in states and moves, for each operator of the formula; a subformula that stands several
/// times is labelled once.
pub fn holds_at(alloc: Global, m: &PairStructure, f: &Formula) -> Result<BitRow, Memory>
    ensures { IfOk result (IsTruthOf m.now (form_of f.now)) }
{
    let predecessors = Predecessors::of(alloc, m)?;
    let mut known = BTreeMap::new(alloc);
    let row = truth_row(alloc, m, &predecessors, &mut known, f)?;
    Ok(row)
}

/// The same, for many formulas on one structure: what was labelled before is looked up.
#[cycle(labelling)]
pub(crate) fn truth_row(
    alloc: Global,
    m: &PairStructure,
    predecessors: &Predecessors,
    known: &mut Known,
    f: &Formula,
) -> Result<BitRow, Memory>
    requires predecessors { ArePredecessors m.now predecessors.now.begins.items predecessors.now.sources.items }
    requires known { AreKnown m.now known.old }
    ensures truth { IfOk result (IsTruthOf m.now (form_of f.now)) }
    ensures known { OnOk result (AreKnown m.now known.new) }
{
    let code = code_of(alloc, f)?;
    if let Some(row) = known.get(&code) {
        let row = row.copy(alloc)?;
        return Ok(row);
    }
    let ground = Ground {
        alloc,
        m,
        predecessors,
    };
    let row = labelled(&ground, known, f)?;
    let kept = row.copy(alloc)?;
    known.insert(code, kept)?;
    Ok(row)
}

/// The row of a formula from those of its parts.
#[cycle(labelling)]
fn labelled(ground: &Ground<'_>, known: &mut Known, f: &Formula) -> Result<BitRow, Memory>
    requires predecessors { ArePredecessors ground.now.m.now ground.now.predecessors.now.begins.items ground.now.predecessors.now.sources.items }
    requires known { AreKnown ground.now.m.now known.old }
    ensures truth { IfOk result (IsTruthOf ground.now.m.now (form_of f.now)) }
    ensures known { OnOk result (AreKnown ground.now.m.now known.new) }
{
    match f {
        Formula::Yes => BitRow::all(ground.alloc, ground.m.states().len()),
        Formula::No => BitRow::none(ground.alloc, ground.m.states().len()),
        Formula::At { side, local } => local_row(ground.alloc, ground.m, *side, *local),
        Formula::Not(f) => row_of_one(ground, known, OneOperator::Not, f),
        Formula::And(f, g) => row_of_two(ground, known, TwoOperator::And, f, g),
        Formula::Or(f, g) => row_of_two(ground, known, TwoOperator::Or, f, g),
        Formula::Implies(f, g) => row_of_two(ground, known, TwoOperator::Implies, f, g),
        Formula::Next { all, side, f } => {
            let (all, side) = (*all, *side);
            row_of_one(ground, known, OneOperator::Next { all, side }, f)
        }
        Formula::Always { all, f } => {
            row_of_one(ground, known, OneOperator::Always { all: *all }, f)
        }
        Formula::Sometime { all, f } => {
            row_of_one(ground, known, OneOperator::Sometime { all: *all }, f)
        }
        Formula::Until { all, weak, f, g } => {
            let (all, weak) = (*all, *weak);
            row_of_two(ground, known, TwoOperator::Until { all, weak }, f, g)
        }
    }
}

#[cycle(labelling)]
fn row_of_one(
    ground: &Ground<'_>,
    known: &mut Known,
    operator: OneOperator,
    f: &Formula,
) -> Result<BitRow, Memory>
    requires predecessors { ArePredecessors ground.now.m.now ground.now.predecessors.now.begins.items ground.now.predecessors.now.sources.items }
    requires known { AreKnown ground.now.m.now known.old }
    ensures truth { IfOk result (IsTruthOf ground.now.m.now (one_form operator (form_of f.now))) }
    ensures known { OnOk result (AreKnown ground.now.m.now known.new) }
{
    let p = truth_row(ground.alloc, ground.m, ground.predecessors, known, f)?;
    one_row(ground, operator, &p)
}

#[cycle(labelling)]
fn row_of_two(
    ground: &Ground<'_>,
    known: &mut Known,
    operator: TwoOperator,
    f: &Formula,
    g: &Formula,
) -> Result<BitRow, Memory>
    requires predecessors { ArePredecessors ground.now.m.now ground.now.predecessors.now.begins.items ground.now.predecessors.now.sources.items }
    requires known { AreKnown ground.now.m.now known.old }
    ensures truth { IfOk result (IsTruthOf ground.now.m.now (two_form operator (form_of f.now) (form_of g.now))) }
    ensures known { OnOk result (AreKnown ground.now.m.now known.new) }
{
    let p = truth_row(ground.alloc, ground.m, ground.predecessors, known, f)?;
    let q = truth_row(ground.alloc, ground.m, ground.predecessors, known, g)?;
    two_rows(ground, operator, &p, &q)
}
