//! Two callers switch two lamps by turns, each on a thread of its own; then the journal of what they did is printed.
#![tactic(auto)]

ghost use Rattle.std.specs.Prelude.{All, IfOk};
ghost use Rattle.firing_hall.specs.Passes.{IsPassOf};

mod turns;

use crate::turns::all_turns;
use conjunctive_compose::System;
use firing_hall::Hall;
use firing_journal::{Report, write_journal};
use samples::{LAMP, TURN, system};
use std::alloc::Global;
use std::io::Write;
use std::test::Fail;
use std::thread::Threads;

/// The report of the firings of two callers.
fn fired<R: Threads + Sync>(rt: &R, alloc: Global, system: System) -> Result<Report, Fail> {
    let Ok((hall, passes)) = Hall::open(alloc, system, 2, 16) else {
        return Err(Fail::from("no hall"));
    };
    let passes = all_turns(rt, &hall, passes)?;
    match hall.close(alloc, passes) {
        Ok(report) => Ok(report),
        Err(_) => Err(Fail::from("not closed")),
    }
}

fn main(rt: HostRuntime) -> Result<(), Fail> {
    let alloc = rt.alloc();
    let report = fired(&rt, alloc, system(alloc, LAMP, TURN, "2*0", "0-1:0")?)?;
    let mut text = Vec::new(alloc);
    write_journal(alloc, &report.journal, &mut text)?;
    rt.stdout().write_all(&text)?;
    Ok(())
}
