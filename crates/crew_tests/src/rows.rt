//! Tables: processes and edges; callers, room, seed and turn; and the report, or why there is none. `solo` answers as a crew of one.
use crate::crews::{alone, crewed, text_of};
use conjunctive_compose::System;
use firing_crew::CrewFault;
use firing_journal::Report;
use samples::{BOUND, FIRST, LAMP, TURN, cut, long, number, system};
use std::alloc::Global;
use std::process::Abort;
use std::sync::Wait;
use std::test::Fail;
use std::thread::Threads;

/// Two lamps that are switched on in turn: blocked, the look behind it, and two firings. Then each first number that does not fit.
const LAMPS: &str =
    "2*0 | 0-1:0 | 1 4 0 0 = journal 1/entry 0 0 1 0 51790/entry 1 0 0 0 12409/done/report 1/caller 0/blocked 0 0 5624 1 0/seen 1 0 0/fired 1 0 51790 0/fired 0 0 12409 1/end/
2*0 | 0-1:0 | 0 4 0 0 = Callers
2*0 | 0-1:0 | 3 4 0 0 = Callers
65*0 | | 65 1 0 0 = Callers
2*0 | 0-1:0 | 3 65537 0 0 = Callers
2*0 | 0-1:0 | 1 0 0 0 = Room
2*0 | 0-1:0 | 1 65537 0 0 = Room
2*0 | 0-1:0 | 2 65537 0 0 = Room";

/// Three philosophers in a ring; four in a square. The last reply is a Blocked without its look.
const PHILOSOPHERS: &str =
    "3*0 | 0-1:0 1-2:0 0-2:0 | 1 12 0 0 = journal 1/entry 0 0 0 0 5624/entry 1 0 1 0 51790/entry 2 0 2 0 12409/entry 3 0 0 1 9344/entry 4 0 0 2 36496/entry 5 0 1 1 33740/done/report 1/caller 0/fired 0 0 5624 0/fired 1 0 51790 1/fired 2 0 12409 2/fired 0 1 9344 3/blocked 1 1 4950 0 4/seen 0 2 2/blocked 2 1 61686 0 4/seen 0 2 2/fired 0 2 36496 4/fired 1 1 33740 5/blocked 2 1 63509 1 6/seen 1 2 2/end/
4*0 | 0-1:0 0-2:0 1-3:0 2-3:0 | 1 8 0 0 = journal 1/entry 0 0 0 0 5624/entry 1 0 1 0 51790/entry 2 0 2 0 12409/entry 3 0 3 0 9344/entry 4 0 0 1 4950/done/report 1/caller 0/fired 0 0 5624 0/fired 1 0 51790 1/fired 2 0 12409 2/fired 3 0 9344 3/fired 0 1 4950 4/blocked 1 1 61686 0 5/seen 0 2 2/blocked 2 1 36496 0 5/end/
4*0 | 0-1:0 0-2:0 1-3:0 2-3:0 | 1 7 0 0 = journal 1/entry 0 0 0 0 5624/entry 1 0 1 0 51790/entry 2 0 2 0 12409/entry 3 0 3 0 9344/entry 4 0 0 1 4950/done/report 1/caller 0/fired 0 0 5624 0/fired 1 0 51790 1/fired 2 0 12409 2/fired 3 0 9344 3/fired 0 1 4950 4/blocked 1 1 61686 0 5/seen 0 2 2/end/";

/// From its first local state two arcs lead, and one leads back from each of the others.
const FORK: &str =
    "role fork/local L0/local L1/local L2/start L0/arc L0 L1/arc L0 L2/arc L1 L0/arc L2 L0/end/";

/// One side of two forks goes and comes; the other stays.
const ONE: &str = "00 10 20 | 0a1 0a2 1a0 2a0";

/// A fork alone, by turn 1 and by turn 0; with the greatest turn, which is odd as 1 is.
const FORKS: &str =
    "0 | | 1 4 0 1 = journal 1/entry 0 0 0 1 5624/entry 1 0 0 3 51790/entry 2 0 0 0 12409/entry 3 0 0 2 9344/done/report 1/caller 0/fired 0 1 5624 0/fired 0 3 51790 1/fired 0 0 12409 2/fired 0 2 9344 3/end/
0 | | 1 4 0 18446744073709551615 = journal 1/entry 0 0 0 1 5624/entry 1 0 0 3 51790/entry 2 0 0 0 12409/entry 3 0 0 2 9344/done/report 1/caller 0/fired 0 1 5624 0/fired 0 3 51790 1/fired 0 0 12409 2/fired 0 2 9344 3/end/
0 | | 1 2 0 0 = journal 1/entry 0 0 0 0 5624/entry 1 0 0 2 51790/done/report 1/caller 0/fired 0 0 5624 0/fired 0 2 51790 1/end/";

/// The report's text, or why there is none.
fn told(alloc: Global, answer: Result<Report, CrewFault>) -> Result<String, Fail> {
    match answer {
        Ok(report) => text_of(alloc, &report),
        Err(fault) => Ok(format!(in alloc; "{fault:?}")?),
    }
}

/// Callers, room, seed and turn.
fn numbers(spelled: &str) -> (u32, u32, u64, u64) {
    let (callers, rest) = cut(spelled.trim(), " ");
    let (room, rest) = cut(rest, " ");
    let (seed, turn) = cut(rest, " ");
    (number(callers), number(room), long(seed), long(turn))
}

fn system_of(alloc: Global, lines: &str, spelled: &str, asked: &str) -> Result<System, Fail> {
    let (groups, rest) = cut(asked, "|");
    let (joins, _) = cut(rest, "|");
    system(alloc, lines, spelled, groups, joins)
}

/// Wants of each row that a crew tells this, and one caller without a thread the same.
fn expect<R: Abort + Threads + Wait + Sync>(
    rt: &R,
    alloc: Global,
    lines: &str,
    spelled: &str,
    rows: &str,
) -> Result<(), Fail> {
    for row in rows.lines() {
        let (asked, answer) = cut(row, " =");
        let (_, rest) = cut(asked, "|");
        let (_, spelled_numbers) = cut(rest, "|");
        let (callers, room, seed, turn) = numbers(spelled_numbers);
        let system = system_of(alloc, lines, spelled, asked)?;
        let crewed = crewed(rt, alloc, system, (callers, room, seed, turn))?;
        let text = told(alloc, crewed)?;
        assert_eq!(rt; text.as_str(), answer.trim(), "{asked}");
        if callers == 1 {
            let system = system_of(alloc, lines, spelled, asked)?;
            let text = told(alloc, alone(alloc, system, (room, seed, turn))?)?;
            assert_eq!(rt; text.as_str(), answer.trim(), "{asked} alone");
        }
    }
    Ok(())
}

#[test]
fn fires_lamps_by_one_caller(rt: HostRuntime) -> Result<(), Fail> {
    expect(&rt, rt.alloc(), LAMP, TURN, LAMPS)
}

#[test]
fn fires_philosophers_by_one_caller(rt: HostRuntime) -> Result<(), Fail> {
    expect(&rt, rt.alloc(), BOUND, FIRST, PHILOSOPHERS)
}

#[test]
fn takes_arcs_by_the_turn(rt: HostRuntime) -> Result<(), Fail> {
    expect(&rt, rt.alloc(), FORK, ONE, FORKS)
}

/// A system without a process has no caller.
#[test]
fn refuses_callers_of_no_process(rt: HostRuntime) -> Result<(), Fail> {
    expect(&rt, rt.alloc(), LAMP, TURN, " | | 1 4 0 0 = Callers")
}
