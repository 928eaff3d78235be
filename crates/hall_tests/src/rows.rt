//! Tables: processes, edges, callers and room, acts; then what the callers are told, and the report.
use crate::acts::play;
use crate::halls::{closed, opened, text_of};
use conjunctive_compose::System;
use samples::{BOUND, FIRST, LAMP, TURN, cut, number, system};
use std::alloc::Global;
use std::process::Abort;
use std::test::Fail;

/// Two lamps that are switched on in turn, and off in turn. Away and blocked at the start; fired, seen, blocked and full; blocked and full without a
/// look; what a second caller sees of what the first one's returned call did.
const LAMPS: &str =
    "2*0 | 0-1:0 | 1 2 | 0 fire 0/1/0, 0 fire 0/0/0 = Away { local: 0, at: 0 }, Blocked { neighbour: 1, at: 0 }, journal 1/done/report 1/caller 0/away 0 1 0 0 0/blocked 0 0 0 1 0/end/
2*0 | 0-1:0 | 1 3 | 0 fire 1/0/0, 0 look 1, 0 fire 1/1/18446744073709551615, 0 fire 0/0/0, 0 look 0 = Fired { number: 0 }, Seen { moves: 1, local: 1 }, Blocked { neighbour: 0, at: 1 }, Full, Full, journal 1/entry 0 0 1 0 0/done/report 1/caller 0/fired 1 0 0 0/seen 1 1 1/blocked 1 1 18446744073709551615 0 1/end/
2*0 | 0-1:0 | 1 2 | 0 keep 1/0/0, 0 fire 1/1/18446744073709551615, 0 fire 0/0/0 = Fired { number: 0 }, Blocked { neighbour: 0, at: 1 }, Full, journal 1/entry 0 0 1 0 0/done/report 1/caller 0/fired 1 0 0 0/blocked 1 1 18446744073709551615 0 1/end/
2*0 | 0-1:0 | 2 2 | 0 fire 1/0/0, 1 look 1, 1 fire 0/0/0 = Fired { number: 0 }, Seen { moves: 1, local: 1 }, Fired { number: 1 }, journal 1/entry 0 0 1 0 0/entry 1 1 0 0 0/done/report 1/caller 0/fired 1 0 0 0/caller 1/seen 1 1 1/fired 0 0 0 1/end/
2*0 | 1-0:0 | 1 4 | 0 pair 0, 0 fire 0/0/0, 0 pair 0, 0 look 0 = Seen { moves: 0, state: 0 }, Fired { number: 0 }, Seen { moves: 1, state: 1 }, Seen { moves: 1, local: 1 }, journal 1/entry 0 0 0 0 0/done/report 1/caller 0/seenpair 0 0 0/fired 0 0 0 0/seenpair 0 1 1/seen 0 1 1/end/";

/// One process without neighbours; three philosophers whose edges are declared out of order, of which the middle one is blocked first by
/// the lower of its neighbours.
const PHILOSOPHERS: &str =
    "0 |  | 1 3 | 0 fire 0/0/0, 0 fire 0/1/0, 0 fire 0/2/0 = Fired { number: 0 }, Fired { number: 1 }, Fired { number: 2 }, journal 1/entry 0 0 0 0 0/entry 1 0 0 1 0/entry 2 0 0 2 0/done/report 1/caller 0/fired 0 0 0 0/fired 0 1 0 1/fired 0 2 0 2/end/
3*0 | 1-2:0 0-2:0 0-1:0 | 1 4 | 0 fire 1/0/0, 0 fire 0/0/0, 0 fire 2/0/0, 0 fire 2/1/0 = Fired { number: 0 }, Fired { number: 1 }, Fired { number: 2 }, Blocked { neighbour: 0, at: 3 }, journal 1/entry 0 0 1 0 0/entry 1 0 0 0 0/entry 2 0 2 0 0/done/report 1/caller 0/fired 1 0 0 0/fired 0 0 0 1/fired 2 0 0 2/blocked 2 1 0 0 3/end/";

/// What callers are told, and the report of their passes.
fn report_told(alloc: Global, system: System, callers: &str, acts: &str) -> Result<String, Fail> {
    let (callers, room) = cut(callers.trim(), " ");
    let (hall, passes) = opened(alloc, system, number(callers), number(room))?;
    let (answers, passes) = play(alloc, &hall, passes, acts)?;
    let report = closed(alloc, hall, passes)?;
    let text = text_of(alloc, &report)?;
    Ok(format!(in alloc; "{answers}{text}")?)
}

fn row_told(alloc: Global, lines: &str, spelled: &str, asked: &str) -> Result<String, Fail> {
    let (groups, rest) = cut(asked, "|");
    let (joins, rest) = cut(rest, "|");
    let (callers, acts) = cut(rest, "|");
    let system = system(alloc, lines, spelled, groups, joins)?;
    report_told(alloc, system, callers, acts)
}

/// Wants of each row that this is told.
fn expect(
    rt: &impl Abort,
    alloc: Global,
    lines: &str,
    spelled: &str,
    rows: &str,
) -> Result<(), Fail> {
    for row in rows.lines() {
        let (asked, answer) = cut(row, " =");
        let text = row_told(alloc, lines, spelled, asked)?;
        assert_eq!(rt; text.as_str().trim(), answer.trim(), "{asked}");
    }
    Ok(())
}

#[test]
fn tells_callers_of_lamps(rt: HostRuntime) -> Result<(), Fail> {
    expect(&rt, rt.alloc(), LAMP, TURN, LAMPS)
}

#[test]
fn tells_callers_of_philosophers(rt: HostRuntime) -> Result<(), Fail> {
    expect(&rt, rt.alloc(), BOUND, FIRST, PHILOSOPHERS)
}
