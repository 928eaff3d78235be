//! Each pass goes to a thread of its own; the report of the close is replayed.
ghost use Rattle.std.specs.Prelude.{All, IfOk};
ghost use Rattle.firing_hall.specs.Passes.{IsPassOf};

use crate::halls::{closed, opened, replays};
use conjunctive_compose::Wish;
use firing_hall::{Hall, Pass};
use firing_journal::{Asked, Report};
use samples::{BOUND, FIRST, system};
use std::alloc::AllocError;
use std::test::Fail;
use std::thread;
use std::thread::Threads;

/// Fires so many wishes of the first process, one after another of its three arcs.
fn rounds(hall: &Hall, mut pass: Pass, count: u32) -> Pass
    requires { IsPassOf hall.now pass }
    ensures { IsPassOf hall.now result }
{
    for n in 0..count {
        let (process, arc, pick) = (0, n % 3, n as u64);
        let wish = Wish { process, arc, pick };
        if hall.system().fits(wish) {
            hall.fire(&mut pass, wish, 1000);
        }
    }
    pass
}

/// The passes after a thousand wishes each, each in a thread of its own.
fn on_threads<R: Threads + Sync>(
    rt: &R,
    hall: &Hall,
    passes: Vec<Pass>,
) -> Result<Vec<Pass>, AllocError>
    requires { All (IsPassOf hall.now) passes.items }
    ensures { IfOk result (λ passes. All (IsPassOf hall.now) passes.items) }
{
    let work = |pass: Pass| -> Pass
        requires { IsPassOf hall.now pass }
        ensures { IsPassOf hall.entry.now result }
    { rounds(hall, pass, 1000) };
    thread::map_vec(rt, passes, &work)
}

/// How many replies of the callers are firings.
fn fired(report: &Report) -> usize {
    let mut count: usize = 0;
    for list in &report.callers {
        for asked in list.as_slice() {
            if matches!(asked, Asked::Fired { .. }) {
                count = count.saturating_add(1);
            }
        }
    }
    count
}

/// Four callers of one process with four neighbours.
#[test]
fn fires_on_four_threads(rt: HostRuntime) -> Result<(), Fail> {
    let alloc = rt.alloc();
    let joins = "0-1:0 0-2:0 0-3:0 0-4:0";
    let again = system(alloc, BOUND, FIRST, "5*0", joins)?;
    let (hall, passes) = opened(alloc, system(alloc, BOUND, FIRST, "5*0", joins)?, 4, 1000)?;
    let passes = on_threads(&rt, &hall, passes)?;
    let report = closed(alloc, hall, passes)?;
    assert!(rt; replays(alloc, &again, &report)?);
    assert_eq!(rt; report.journal.entries().len(), fired(&report));
    Ok(())
}
