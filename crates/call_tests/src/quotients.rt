//! Quotients by bisimulation: known structures, and a long cycle.

use crate::table::{agree, expect};
use ctl_form::solves;
use pair_quotient::shrink;
use pair_structure::{Move, PairStructure, Side};
use samples::{EITHER, FAIR, FIRST, LAMP, PHIL, any_role, first_kind, first_role, pair, structure};
use std::alloc::Global;
use std::test::Fail;

/// Structures of two lamps, and what they shrink to.
const LAMPS: &str =
    "00 01 11 10 00 01 11 10 | 0b1 1a2 2b3 3a4 4b5 5a6 6b7 7a0 = [(0, 0), (0, 1), (1, 1), (1, 0)] 0b1 1a2 2b3 3a0
00 01 11 10 | 0b1 1a2 2b3 3a0 = [(0, 0), (0, 1), (1, 1), (1, 0)] 0b1 1a2 2b3 3a0
00 10 10 | 0a1 0a2 1a0 2a0 = [(0, 0), (1, 0)] 0a1 1a0
00 10 10 00 01 | 0a1 0a2 1a0 2a3 3a2 3b4 4b3 = [(0, 0), (1, 0), (1, 0), (0, 0), (0, 1)] 0a1 0a2 1a0 2a3 3a2 3b4 4b3
00 10 00 10 | 0a1 1a2 2a3 3a2 = [(0, 0), (1, 0)] 0a1 1a0";

/// The same of lamps that start off or on.
const EITHERS: &str =
    "00 01 10 11 01 | 0b1 0b4 1a3 2a0 3b2 4a3 = [(0, 0), (0, 1), (1, 0), (1, 1)] 0b1 1a3 2a0 3b2
00 01 10 11 11 | 0b1 1a3 1a4 2a0 3b2 4b2 = [(0, 0), (0, 1), (1, 0), (1, 1)] 0b1 1a3 2a0 3b2";

fn spelled(alloc: Global, m: &PairStructure) -> Result<String, Fail> {
    let mut text = format!(in alloc; "{:?}", m.states())?;
    for step in m.moves() {
        let side = if step.side == Side::A { 'a' } else { 'b' };
        text.push_str(format!(in alloc; " {}{side}{}", step.from, step.to)?.as_str())?;
    }
    Ok(text)
}

fn shrunk_told(alloc: Global, lines: &str, asked: &str) -> Result<String, Fail> {
    let role = any_role(alloc, lines)?;
    let m = structure(alloc, &role, &role, asked)?;
    spelled(alloc, &shrink(alloc, &m)?)
}

fn lamps_told(alloc: Global, asked: &str) -> Result<String, Fail> {
    shrunk_told(alloc, LAMP, asked)
}

fn eithers_told(alloc: Global, asked: &str) -> Result<String, Fail> {
    shrunk_told(alloc, EITHER, asked)
}

#[test]
fn shrinks_to_one_state_a_class(rt: HostRuntime) -> Result<(), Fail> {
    expect(&rt, rt.alloc(), LAMPS, lamps_told)?;
    expect(&rt, rt.alloc(), EITHERS, eithers_told)
}

/// How many states FIRST has when it has shrunk, and whether it still solves.
fn first_told(alloc: Global) -> Result<String, Fail> {
    let spec = pair(alloc, PHIL, FAIR)?;
    let (role, kind) = (first_role(&spec)?, first_kind(&spec)?);
    let m = structure(alloc, role, role, FIRST)?;
    let q = shrink(alloc, &m)?;
    let solved = q.is_over(role, role) && solves(alloc, &q, kind, role, role)?;
    Ok(format!(in alloc; "{} {solved}", q.states().len())?)
}

#[test]
fn keeps_what_is_least(rt: HostRuntime) -> Result<(), Fail> {
    agree(&rt, first_told(rt.alloc()), "9 true")
}

/// So many lamps states in a cycle, in which the lamps are switched in turn.
fn cycle(alloc: Global, count: u64) -> Result<PairStructure, Fail> {
    let role = any_role(alloc, LAMP)?;
    let mut states = Vec::new(alloc);
    let mut moves = Vec::new(alloc);
    for from in 0..count {
        let (label, side) = match from % 4 {
            0 => ((0, 0), Side::B),
            1 => ((0, 1), Side::A),
            2 => ((1, 1), Side::B),
            _ => ((1, 0), Side::A),
        };
        states.push(label)?;
        let to = if from + 1 < count { from + 1 } else { 0 };
        moves.push(Move { from, side, to })?;
    }
    Ok(PairStructure::make(alloc, &role, &role, &states, &moves)?)
}

fn cycle_told(alloc: Global) -> Result<String, Fail> {
    let m = cycle(alloc, 100_000)?;
    spelled(alloc, &shrink(alloc, &m)?)
}

#[test]
fn shrinks_a_long_cycle(rt: HostRuntime) -> Result<(), Fail> {
    let wanted = "[(0, 0), (0, 1), (1, 1), (1, 0)] 0b1 1a2 2b3 3a0";
    agree(&rt, cycle_told(rt.alloc()), wanted)
}
