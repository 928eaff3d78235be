//! Several callers, whose reports depend on the schedule: what holds of each of them.
use crate::crews::crewed;
use conjunctive_compose::System;
use firing_crew::CrewFault;
use firing_journal::{Asked, Replay, Report, replay};
use samples::{BOUND, FIRST, system};
use std::alloc::Global;
use std::sync::Wait;
use std::test::Fail;
use std::thread::Threads;

/// The ring of so many philosophers.
fn ring(alloc: Global, count: u32) -> Result<System, Fail> {
    let mut joins = String::new(alloc);
    for k in 1..count {
        let join = format!(in alloc; "{}-{k}:0 ", k - 1)?;
        joins.push_str(&join)?;
    }
    let last = format!(in alloc; "0-{}:0", count.saturating_sub(1))?;
    joins.push_str(&last)?;
    let groups = format!(in alloc; "{count}*0")?;
    system(alloc, BOUND, FIRST, &groups, &joins)
}

fn reported(answer: Result<Report, CrewFault>) -> Result<Report, Fail> {
    match answer {
        Ok(report) => Ok(report),
        Err(_) => Err(Fail::from("a report")),
    }
}

/// How many firings each process has made, by its journal, and each has by the lists.
fn counts(report: &Report) -> (usize, usize, usize) {
    let mut fired: usize = 0;
    let mut away: usize = 0;
    let mut seen: usize = 0;
    for list in &report.callers {
        for asked in list.as_slice() {
            match asked {
                Asked::Fired { .. } => fired = fired.saturating_add(1),
                Asked::Away { .. } => away = away.saturating_add(1),
                Asked::Seen { .. } => seen = seen.saturating_add(1),
                _ => {}
            }
        }
    }
    (fired, away, seen)
}

/// Whether the report's journal replays from the start of the system.
fn replays(alloc: Global, system: &System, report: &Report) -> Result<bool, Fail> {
    if !report.journal.fits(system) {
        return Ok(false);
    }
    match replay(alloc, system, &report.journal)? {
        Replay::Run { .. } => Ok(true),
        Replay::NotARun { .. } => Ok(false),
    }
}

/// 64 philosophers by four callers, with 500 replies each.
#[test]
fn fires_a_ring_by_four_callers(rt: HostRuntime) -> Result<(), Fail> {
    let alloc = rt.alloc();
    let again = ring(alloc, 64)?;
    let report = reported(crewed(&rt, alloc, ring(alloc, 64)?, (4, 500, 7, 0))?)?;
    assert_eq!(rt; report.callers.len(), 4);
    for list in &report.callers {
        assert_eq!(rt; list.as_slice().len(), 500);
    }
    let (fired, away, seen) = counts(&report);
    assert_eq!(rt; away, 0);
    assert_eq!(rt; fired, report.journal.entries().len());
    assert!(rt; seen > 0);
    assert!(rt; replays(alloc, &again, &report)?);
    Ok(())
}

/// The wishes of a list, with their picks.
fn wishes(alloc: Global, list: &[Asked]) -> Result<String, Fail> {
    let mut text = String::new(alloc);
    for asked in list {
        if let Asked::Fired { wish, .. } = asked {
            let line = format!(in alloc; "{} {} {}/", wish.process, wish.arc, wish.pick)?;
            text.push_str(&line)?;
        }
    }
    Ok(text)
}

/// What two callers of two philosophers without an edge wish.
fn wished<R: Threads + Wait + Sync>(rt: &R, alloc: Global, seed: u64) -> Result<String, Fail> {
    let system = system(alloc, BOUND, FIRST, "2*0", "")?;
    let report = reported(crewed(rt, alloc, system, (2, 4, seed, 0))?)?;
    let mut text = String::new(alloc);
    for list in &report.callers {
        let line = wishes(alloc, list.as_slice())?;
        text.push_str(&line)?;
        text.push_str("; ")?;
    }
    Ok(text)
}

/// Of this seed the first caller's words are all the same, and the second's are those of seed 0.
#[test]
fn draws_from_the_greatest_remainder(rt: HostRuntime) -> Result<(), Fail> {
    let wanted =
        "0 0 65536/0 1 65536/0 2 65536/0 0 65536/; 1 0 5624/1 1 51790/1 2 12409/1 0 9344/; ";
    assert_eq!(rt; wished(&rt, rt.alloc(), 65536)?.as_str(), wanted);
    Ok(())
}

/// The greatest seed gives the first caller the words of seed 0; the second begins at 1.
#[test]
fn draws_from_the_greatest_seed(rt: HostRuntime) -> Result<(), Fail> {
    let wanted =
        "0 0 5624/0 1 51790/0 2 12409/0 0 9344/; 1 0 11249/1 1 38044/1 2 24819/1 0 18689/; ";
    assert_eq!(rt;
        wished(&rt, rt.alloc(), 18446744073709551615)?.as_str(),
        wanted
    );
    Ok(())
}
