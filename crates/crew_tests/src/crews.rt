//! Crews over samples whose policy answers by a turn, and their reports as texts.
ghost use Rattle.std.specs.Prelude.{◌≡◌, ◌<◌};
ghost use Rattle.firing_crew.specs.Policies.{chosen};

use conjunctive_compose::System;
use firing_crew::{Chooser, CrewFault, Policy, crew, solo};
use firing_journal::{Report, write_report};
use samples::to_slashes;
use std::alloc::Global;
use std::sync::Wait;
use std::test::Fail;
use std::thread::Threads;

/// What a policy answers.
pub(crate) fn by_turn(turn: u64, count: u64, word: u64) -> u64
    requires { 0 < count }
    ensures { result ≡ chosen turn count word }
{
    ((word as u128 + turn as u128) % count as u128) as u64
}

/// The text of the report, with a slash for each line feed.
pub(crate) fn text_of(alloc: Global, report: &Report) -> Result<String, Fail> {
    let mut bytes = Vec::new(alloc);
    write_report(alloc, report, &mut bytes)?;
    to_slashes(alloc, &bytes)
}

/// A crew whose policy has this turn.
pub(crate) fn crewed<R: Threads + Wait + Sync>(
    rt: &R,
    alloc: Global,
    system: System,
    numbers: (u32, u32, u64, u64),
) -> Result<Result<Report, CrewFault>, Fail> {
    let (callers, room, seed, turn) = numbers;
    let chooser: Chooser = Box::new(
        alloc,
        move |count: u64, word: u64| -> u64
            requires { 0 < count }
            ensures { result ≡ chosen turn count word }
        { by_turn(turn, count, word) },
    )?;
    let policy = Policy::new(chooser, turn);
    Ok(crew(rt, alloc, system, callers, room, seed, &policy))
}

/// One caller whose policy has this turn.
pub(crate) fn alone(
    alloc: Global,
    system: System,
    numbers: (u32, u64, u64),
) -> Result<Result<Report, CrewFault>, Fail> {
    let (room, seed, turn) = numbers;
    let chooser: Chooser = Box::new(
        alloc,
        move |count: u64, word: u64| -> u64
            requires { 0 < count }
            ensures { result ≡ chosen turn count word }
        { by_turn(turn, count, word) },
    )?;
    let policy = Policy::new(chooser, turn);
    Ok(solo(alloc, system, room, seed, &policy))
}
