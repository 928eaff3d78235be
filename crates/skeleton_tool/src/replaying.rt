ghost use Rattle.std.specs.Prelude.{◌≡◌, ◌<◌, [], IfOk, length};
ghost use Rattle.conjunctive_compose.specs.System.{IsSystem};
ghost use Rattle.conjunctive_compose.specs.Whole.{IsProper};
ghost use Rattle.firing_journal.specs.Journal.{JournalFits, wishes_of};
ghost use Rattle.skeleton_tool.specs.Answer.{AnswersBoth};
ghost use Rattle.skeleton_tool.specs.Command.{spec_limit, solution_limit, journal_limit};
ghost use Rattle.skeleton_tool.specs.Replay.{AnswersJournal, AreStates, Replays, ReplaysWishes};
ghost use Rattle.skeleton_tool.specs.Taking.{shelf_seen, EndsAs, KeepsShelf};
ghost use Rattle.solution_text.specs.SolutionText.{AreOver};

use crate::failing::solves_or_writes;
use crate::reading::{take_both, take_journal};
use crate::run_text::{write_run, write_stuck};
use crate::status::Status;
use crate::stop::Stop;
use crate::third::system_of;
use conjunctive_compose::{System, Whole};
use ctl_text::Spec;
use edge_io::Shelf;
use firing_journal::{Journal, Replay};
use pair_structure::Memory;
use solution_text::Solution;
use std::alloc::{AllocError, Global};

/// Writes what the journal of one file is, fired by the system of the other two: the run and what it leaves, or the
/// first entry that does not move.
pub(crate) fn replay<S: Shelf>(
    alloc: Global,
    spec: &str,
    sol: &str,
    journal: &str,
    shelf: &mut S,
    text: &mut Vec<u8>,
) -> Result<Status, Stop>
    requires spec { S.may_ask shelf.old spec.now spec_limit }
    requires sol { S.may_ask shelf.old sol.now solution_limit }
    requires journal { S.may_ask shelf.old journal.now journal_limit }
    requires empty { text.old.items ≡ [] }
    ensures ends { EndsAs (AnswersBoth (AnswersJournal (shelf_seen S.files S.faults S.longs shelf.old shelf.new) journal.now) (shelf_seen S.files S.faults S.longs shelf.old shelf.new) spec.now sol.now) text.new.items result }
    ensures kept { KeepsShelf S.files S.faults S.longs S.may_ask shelf.old shelf.new }
{
    let (spec, sol) = take_both(alloc, spec, sol, shelf, text)?;
    let system = system_of(alloc, &spec, &sol)?;
    let journal = match take_journal(alloc, &system, journal, shelf, text) {
        Ok(journal) => journal,
        Err(stop) => return Err(stop),
    };
    let status = tell_replay(alloc, &spec, &sol, &system, &journal, text)?;
    Ok(status)
}

/// Writes what the journal is where the solution solves, or the first kind that fails.
fn tell_replay(
    alloc: Global,
    spec: &Spec,
    sol: &Solution,
    system: &System,
    journal: &Journal,
    text: &mut Vec<u8>,
) -> Result<Status, Memory>
    requires over { AreOver spec.now.roles spec.now.kinds sol.now }
    requires system { IsSystem system.now }
    requires fits { JournalFits system.now journal.now }
    requires empty { text.old.items ≡ [] }
    ensures answer { IfOk result (λ status. Replays spec.now sol.now system.now (wishes_of journal.now) status text.new.items) }
    ensures some { IfOk result (λ status. 0 < length text.new.items) }
{
    if !solves_or_writes(alloc, spec, sol, text)? {
        return Ok(Status::Fails);
    }
    let status = tell(alloc, system, journal, text)?;
    Ok(status)
}

/// Writes the run that the journal is, or the first entry that does not move.
fn tell(
    alloc: Global,
    system: &System,
    journal: &Journal,
    text: &mut Vec<u8>,
) -> Result<Status, Memory>
    requires system { IsSystem system.now }
    requires fits { JournalFits system.now journal.now }
    requires empty { text.old.items ≡ [] }
    ensures answer { IfOk result (λ status. ReplaysWishes system.now (wishes_of journal.now) status text.new.items) }
    ensures some { IfOk result (λ status. 0 < length text.new.items) }
{
    match firing_journal::replay(alloc, system, journal)? {
        Replay::Run { whole, moves } => {
            let states = pair_states(alloc, system, &whole)?;
            let count = journal.entries().len() as u64;
            write_run(system, count, &whole, &moves, &states, text)?;
            Ok(Status::Done)
        }
        Replay::NotARun { at, why } => {
            let process = journal.entries()[at as usize].wish.process;
            write_stuck(system, at, process, why, text)?;
            Ok(Status::Fails)
        }
    }
}

/// The pair state of each edge.
fn pair_states(alloc: Global, system: &System, whole: &Whole) -> Result<Vec<u64>, AllocError>
    requires { IsProper system.now whole.now }
    ensures { IfOk result (λ states. AreStates system.now whole.now states.items) }
{
    let count = system.network().edges().len();
    let mut states = Vec::with_capacity(alloc, count)?;
    for edge in 0..count {
        states.push(system.pair_state(whole, edge as u32))?;
    }
    Ok(states)
}
