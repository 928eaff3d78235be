ghost use Rattle.std.specs.Prelude.{◌≡◌, ◌<◌, ◌↔◌, ℕ, length, false, IsTrue, IfOk, OnOk};
ghost use Rattle.pair_structure.specs.StructureFault.{move_at};
ghost use Rattle.ctl_form.specs.Predecessors.{ArePredecessors};
ghost use Rattle.ctl_form.specs.Row.{IsAt, IsRowOf};
ghost use Rattle.ctl_form.specs.inside.Spread.{AreInOrder, AreCursors, IsAdmitted, IsMarkList, Visits};
ghost use Rattle.ctl_form.specs.Truth.{AlongPaths};

use crate::BitRow;
use crate::cursors::{each_leads, first_moves};
use crate::predecessors::Predecessors;
use pair_structure::{Memory, Move, PairStructure};
use std::alloc::Global;

/// The marks so far, the marked states whose moves in are still to be followed, and for each state a cursor over its moves.
#[derive(Drop)]
struct Frontier {
    row: BitRow,
    work: Vec<u64>,
    cursors: Vec<usize>,
}

/// The states where E[p U q] holds, or A[p U q]. Each state is put on the worklist once and each move is passed twice at most: linear in
/// states and moves.
pub(crate) fn until_row(
    alloc: Global,
    m: &PairStructure,
    predecessors: &Predecessors,
    all: bool,
    p: &BitRow,
    q: &BitRow,
) -> Result<BitRow, Memory>
    requires predecessors { ArePredecessors m.now predecessors.now.begins.items predecessors.now.sources.items }
    requires p_long { length p.now ≡ length m.now.states }
    requires q_long { length q.now ≡ length m.now.states }
    ensures { IfOk result (IsRowOf (length m.now.states) (AlongPaths m.now all false (IsAt p.now) (IsAt q.now))) }
{
    let moves = m.moves();
    let mut front = Frontier {
        row: q.copy(alloc)?,
        work: marked(alloc, q)?,
        cursors: first_moves(alloc, m.states().len(), moves)?,
    };
    while let Some(state) = front.work.pop() {
        let begin = predecessors.begins[state as usize];
        let end = predecessors.begins[state as usize + 1];
        for place in begin..end {
            visit(moves, all, p, &mut front, predecessors.sources[place])?;
        }
    }
    let Frontier { row, .. } = front;
    Ok(row)
}

fn marked(alloc: Global, row: &BitRow) -> Result<Vec<u64>, Memory>
    ensures { IfOk result (λ states. IsMarkList row.now states.items) }
{
    let mut states = Vec::new(alloc);
    for state in 0..row.len() as u64 {
        if row.has(state) {
            states.push(state)?;
        }
    }
    Ok(states)
}

/// Marks the state and puts it on the worklist, if p holds there and its moves ask for it.
fn visit(
    moves: &[Move],
    all: bool,
    p: &BitRow,
    front: &mut Frontier,
    state: u64,
) -> Result<(), Memory>
    requires within { (j : ℕ) → j < length moves.now → (move_at moves.now j).to < length front.old.row }
    requires in_order { AreInOrder moves.now }
    requires p_long { length p.now ≡ length front.old.row }
    requires state { state < length front.old.row }
    requires cursors { AreCursors (length front.old.row) moves.now front.old.row front.old.cursors.items }
    ensures visited { OnOk result (Visits moves.now all p.now state front.old.row front.old.work.items front.new.row front.new.work.items) }
    ensures cursors { OnOk result (AreCursors (length front.new.row) moves.now front.new.row front.new.cursors.items) }
{
    if admits(moves, all, p, front, state) {
        front.work.push(state)?;
        front.row.add(state);
    }
    Ok(())
}

fn admits(moves: &[Move], all: bool, p: &BitRow, front: &mut Frontier, state: u64) -> bool
    requires within { (j : ℕ) → j < length moves.now → (move_at moves.now j).to < length front.old.row }
    requires in_order { AreInOrder moves.now }
    requires p_long { length p.now ≡ length front.old.row }
    requires state { state < length front.old.row }
    requires cursors { AreCursors (length front.old.row) moves.now front.old.row front.old.cursors.items }
    ensures admits { IsTrue result ↔ IsAdmitted moves.now all p.now front.old.row state }
    ensures row { front.new.row ≡ front.old.row }
    ensures work { front.new.work.items ≡ front.old.work.items }
    ensures cursors { AreCursors (length front.old.row) moves.now front.old.row front.new.cursors.items }
{
    if front.row.has(state) || !p.has(state) {
        return false;
    }
    !all || each_leads(moves, &front.row, &mut front.cursors, state)
}
