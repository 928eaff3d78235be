ghost use Rattle.std.specs.Prelude.{◌≡◌, ◌<◌, ◌≤◌, ◌↔◌, ℕ, [], length, IsTrue, IfOk};
ghost use Rattle.pair_structure.specs.StructureFault.{move_at};
ghost use Rattle.ctl_form.specs.inside.Spread.{AreInOrder, AreCursors, EachLeads, IsPassed};

use crate::BitRow;
use pair_structure::{Memory, Move};
use std::alloc::Global;

/// For each state the place of the first move that leaves it.
pub(crate) fn first_moves(
    alloc: Global,
    states: usize,
    moves: &[Move],
) -> Result<Vec<usize>, Memory>
    requires within { (j : ℕ) → j < length moves.now → (move_at moves.now j).from < states }
    requires in_order { AreInOrder moves.now }
    ensures { IfOk result (λ cursors. AreCursors states moves.now [] cursors.items) }
{
    let mut cursors = vec![in alloc; moves.len(); states]?;
    let mut place = moves.len();
    while place > 0 {
        place -= 1;
        cursors[moves[place].from as usize] = place;
    }
    Ok(cursors)
}

/// Whether every move from the state leads to a marked one. Its cursor goes on to the first that does not, so that over all calls each
/// move is passed once.
pub(crate) fn each_leads(moves: &[Move], row: &BitRow, cursors: &mut [usize], state: u64) -> bool
    requires within { (j : ℕ) → j < length moves.now → (move_at moves.now j).to < length row.now }
    requires in_order { AreInOrder moves.now }
    requires cursors { AreCursors (length row.now) moves.now row.now cursors.old }
    requires state { state < length row.now }
    ensures leads { IsTrue result ↔ EachLeads moves.now row.now state }
    ensures cursors { AreCursors (length row.now) moves.now row.now cursors.new }
{
    let place = passed(moves, row, cursors[state as usize], state);
    cursors[state as usize] = place;
    place == moves.len() || moves[place].from != state
}

/// The first place from this one on where no move from the state to a marked one stands.
fn passed(moves: &[Move], row: &BitRow, from: usize, state: u64) -> usize
    requires within { (j : ℕ) → j < length moves.now → (move_at moves.now j).to < length row.now }
    requires from { from ≤ length moves.now }
    ensures { IsPassed moves.now row.now state from result }
{
    let mut place = from;
    while place < moves.len() && moves[place].from == state && row.has(moves[place].to) {
        place += 1;
    }
    place
}
