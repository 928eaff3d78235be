ghost use Rattle.std.specs.Prelude.{◌≡◌, replicate, IfNone, IfOk, IfSome};
ghost use Rattle.conjunctive_compose.specs.System.{process_count};
ghost use Rattle.conjunctive_compose.specs.Whole.{IsProper, start_of};
ghost use Rattle.firing_journal.specs.Journal.{JournalFits, wishes_of};
ghost use Rattle.firing_journal.specs.Replay.{IsFirstStuck, IsReplay, LeavesWhole};

use crate::{Entry, Journal, Replay};
use conjunctive_compose::{StepAnswer, System, Whole};
use pair_structure::Memory;
use std::alloc::{AllocError, Global};

/// What the wishes of the journal are. A step for each entry.
pub fn replay(alloc: Global, system: &System, j: &Journal) -> Result<Replay, Memory>
    requires { JournalFits system.now j.now }
    ensures { IfOk result (IsReplay system.now (wishes_of j.now)) }
{
    let mut whole = system.start(alloc)?;
    let mut moves = zeros(alloc, system.network().processes().len())?;
    match fire_all(system, j.entries(), &mut whole, &mut moves) {
        Some((at, why)) => Ok(Replay::NotARun { at, why }),
        None => Ok(Replay::Run { whole, moves }),
    }
}

fn zeros(alloc: Global, count: usize) -> Result<Vec<u64>, AllocError>
    ensures { IfOk result (λ zeros. zeros.items ≡ replicate count 0) }
{
    let zeros = vec![in alloc; 0; count]?;
    Ok(zeros)
}

/// Fires the wishes and counts the moves of each process, as far as they move; the first that does not.
fn fire_all(
    system: &System,
    entries: &[Entry],
    whole: &mut Whole,
    moves: &mut [u64],
) -> Option<(u64, StepAnswer)>
    requires fits { JournalFits system.now entries.now }
    requires start { whole.old ≡ start_of system.now }
    requires proper { IsProper system.now whole.old }
    requires moves { moves.old ≡ replicate (process_count system.now) 0 }
    ensures run { IfNone result (LeavesWhole system.now (wishes_of entries.now) whole.new moves.new) }
    ensures stuck { IfSome result (λ x. IsFirstStuck system.now (wishes_of entries.now) x.0 x.1) }
{
    for (at, entry) in entries.iter().enumerate() {
        match system.step(whole, entry.wish) {
            StepAnswer::Moved => moves[entry.wish.process as usize] += 1,
            why => return Some((at as u64, why)),
        }
    }
    None
}
