//! Journals of two lamps that are switched in turn: read, written, replayed, and projected on their edge.

ghost use Rattle.firing_journal.specs.Journal.{JournalFits};

use crate::table::agree;
use conjunctive_compose::{System, Wish};
use firing_journal::{
    Asked, Journal, Replay, Report, project, read_journal, replay, write_journal, write_report,
};
use samples::{EITHER, EITHER_TURN, LAMP, TURN, system, to_lines, to_slashes};
use std::alloc::Global;
use std::test::Fail;

fn lamps(alloc: Global) -> Result<System, Fail> {
    system(alloc, LAMP, TURN, "2*0", "0-1:0")
}

const READ: &str = "journal 1/entry 0 7 1 0 18446744073709551615/entry 1 10 0 0 20/done/";

fn written(alloc: Global, journal: &Journal) -> Result<String, Fail> {
    let mut bytes = Vec::new(alloc);
    write_journal(alloc, journal, &mut bytes)?;
    to_slashes(alloc, &bytes)
}

fn read_told(alloc: Global) -> Result<String, Fail> {
    let system = lamps(alloc)?;
    let text = to_lines(alloc, READ)?;
    let journal = read_journal(alloc, &system, text.as_str().as_bytes())?;
    written(alloc, &journal)
}

#[test]
fn writes_what_it_reads(rt: HostRuntime) -> Result<(), Fail> {
    agree(&rt, read_told(rt.alloc()), READ)
}

/// The second process is switched on, and then the other.
const BOTH_ON: [(u32, u32); 2] = [(1, 0), (0, 0)];

/// The first process is switched on, and then the other off.
const ON_AND_OFF: [(u32, u32); 2] = [(0, 0), (1, 1)];

/// The journal of these firings, each a process and its arc.
fn made(alloc: Global, firings: &[(u32, u32)]) -> Result<Journal, Fail> {
    let mut journal = Journal::new(alloc);
    for (process, arc) in firings {
        let (process, arc, pick) = (*process, *arc, 5);
        journal.push(3, Wish { process, arc, pick })?;
    }
    Ok(journal)
}

fn pushed_told(alloc: Global) -> Result<String, Fail> {
    let journal = made(alloc, &BOTH_ON)?;
    let text = written(alloc, &journal)?;
    Ok(format!(in alloc; "{} {text}", journal.entries().len())?)
}

#[test]
fn writes_what_is_pushed(rt: HostRuntime) -> Result<(), Fail> {
    let wanted = "2 journal 1/entry 0 3 1 0 5/entry 1 3 0 0 5/done/";
    agree(&rt, pushed_told(rt.alloc()), wanted)
}

/// What two callers were told, one of each kind of reply.
const TOLD: &str =
    "journal 1/entry 0 3 1 0 5/entry 1 3 0 0 5/done/report 1/caller 0/fired 1 0 5 0/away 1 0 5 1 1/blocked 0 0 5 1 1/caller 1/caller 2/seen 1 1 1/seenpair 0 2 3/end/";

/// What the first caller was told of its wishes.
fn asked(alloc: Global) -> Result<Vec<Asked>, Fail> {
    let (on, other) = (
        Wish {
            process: 1,
            arc: 0,
            pick: 5,
        },
        Wish {
            process: 0,
            arc: 0,
            pick: 5,
        },
    );
    let mut list = Vec::new(alloc);
    list.push(Asked::Fired {
        wish: on,
        number: 0,
    })?;
    list.push(Asked::Away {
        wish: on,
        local: 1,
        at: 1,
    })?;
    list.push(Asked::Blocked {
        wish: other,
        neighbour: 1,
        at: 1,
    })?;
    Ok(list)
}

/// What the last caller was shown.
fn looked(alloc: Global) -> Result<Vec<Asked>, Fail> {
    let mut list = Vec::new(alloc);
    list.push(Asked::Seen {
        process: 1,
        moves: 1,
        local: 1,
    })?;
    list.push(Asked::SeenPair {
        edge: 0,
        moves: 2,
        state: 3,
    })?;
    Ok(list)
}

fn reported(alloc: Global) -> Result<String, Fail> {
    let mut callers = Vec::new(alloc);
    callers.push(asked(alloc)?)?;
    callers.push(Vec::new(alloc))?;
    callers.push(looked(alloc)?)?;
    let report = Report {
        journal: made(alloc, &BOTH_ON)?,
        callers,
    };
    let mut bytes = Vec::new(alloc);
    write_report(alloc, &report, &mut bytes)?;
    to_slashes(alloc, &bytes)
}

#[test]
fn writes_a_report(rt: HostRuntime) -> Result<(), Fail> {
    agree(&rt, reported(rt.alloc()), TOLD)
}

/// What the run of the journal leaves, and what it does on edge 0.
fn projected(alloc: Global, system: &System, journal: &Journal) -> Result<String, Fail>
    requires { JournalFits system.now journal.now }
{
    if system.network().edges().is_empty() {
        return Err(Fail::from("no edge"));
    }
    match replay(alloc, system, journal)? {
        Replay::Run { moves, .. } => {
            let path = project(alloc, system, journal, 0)?;
            Ok(format!(in alloc; "{:?} {:?}", moves.as_slice(), path.as_slice())?)
        }
        Replay::NotARun { at, why } => Ok(format!(in alloc; "{at}: {why:?}")?),
    }
}

fn projected_told(alloc: Global, system: &System, firings: &[(u32, u32)]) -> Result<String, Fail> {
    let journal = made(alloc, firings)?;
    if !journal.fits(system) {
        return Err(Fail::from("a journal that does not fit"));
    }
    projected(alloc, system, &journal)
}

#[test]
fn projects_on_an_edge(rt: HostRuntime) -> Result<(), Fail> {
    let wanted = "[1, 1] [PairMove { side: B, state: 1 }, PairMove { side: A, state: 2 }]";
    let system = lamps(rt.alloc())?;
    agree(&rt, projected_told(rt.alloc(), &system, &BOTH_ON), wanted)
}

/// One lamp is off and one is on.
#[test]
fn projects_from_the_state_where_the_edge_starts(rt: HostRuntime) -> Result<(), Fail> {
    let wanted = "[1, 1] [PairMove { side: A, state: 3 }, PairMove { side: B, state: 2 }]";
    let system = system(rt.alloc(), EITHER, EITHER_TURN, "0 0@1", "0-1:0")?;
    agree(
        &rt,
        projected_told(rt.alloc(), &system, &ON_AND_OFF),
        wanted,
    )
}
