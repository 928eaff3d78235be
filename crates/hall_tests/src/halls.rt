//! Halls over samples, and their reports as texts.
ghost use Rattle.std.specs.Prelude.{All, IfOk};
ghost use Rattle.firing_hall.specs.Passes.{IsPassOf};

use conjunctive_compose::{System, Wish};
use firing_hall::{Hall, Pass};
use firing_journal::{Replay, Report, replay, write_report};
use samples::{cut, long, number, to_slashes};
use std::alloc::Global;
use std::test::Fail;

/// The hall of the system, and its passes.
pub(crate) fn opened(
    alloc: Global,
    system: System,
    callers: u32,
    room: u32,
) -> Result<(Hall, Vec<Pass>), Fail>
    ensures { IfOk result (λ r. All (IsPassOf r.0) r.1.items) }
{
    match Hall::open(alloc, system, callers, room) {
        Ok(opened) => Ok(opened),
        Err(_) => Err(Fail::from("no hall")),
    }
}

/// The report of these passes.
pub(crate) fn closed(alloc: Global, hall: Hall, passes: Vec<Pass>) -> Result<Report, Fail>
    requires { All (IsPassOf hall) passes.items }
{
    match hall.close(alloc, passes) {
        Ok(report) => Ok(report),
        Err(_) => Err(Fail::from("not closed")),
    }
}

/// The passes but the last, and the last.
pub(crate) fn cut_last(hall: &Hall, mut passes: Vec<Pass>) -> Result<(Vec<Pass>, Pass), Fail>
    requires { All (IsPassOf hall.now) passes.items }
    ensures rest { IfOk result (λ r. All (IsPassOf hall.now) r.0.items) }
    ensures last { IfOk result (λ r. IsPassOf hall.now r.1) }
{
    match passes.pop() {
        Some(last) => Ok((passes, last)),
        None => Err(Fail::from("a pass")),
    }
}

/// The passes with one more behind them.
pub(crate) fn with_last(hall: &Hall, mut passes: Vec<Pass>, pass: Pass) -> Result<Vec<Pass>, Fail>
    requires passes { All (IsPassOf hall.now) passes.items }
    requires pass { IsPassOf hall.now pass }
    ensures { IfOk result (λ all. All (IsPassOf hall.now) all.items) }
{
    passes.push(pass)?;
    Ok(passes)
}

/// The text of the report, with a slash for each line feed.
pub(crate) fn text_of(alloc: Global, report: &Report) -> Result<String, Fail> {
    let mut bytes = Vec::new(alloc);
    write_report(alloc, report, &mut bytes)?;
    to_slashes(alloc, &bytes)
}

/// The wish that is spelled as process, arc and pick: `1/0/0`.
pub(crate) fn wish(spelled: &str) -> Wish {
    let (process, rest) = cut(spelled, "/");
    let (arc, pick) = cut(rest, "/");
    Wish {
        process: number(process),
        arc: number(arc),
        pick: long(pick),
    }
}

/// Whether the report's journal replays from the start of the system.
pub(crate) fn replays(alloc: Global, system: &System, report: &Report) -> Result<bool, Fail> {
    if !report.journal.fits(system) {
        return Ok(false);
    }
    match replay(alloc, system, &report.journal)? {
        Replay::Run { .. } => Ok(true),
        Replay::NotARun { .. } => Ok(false),
    }
}
