//! Structures over philosophers: the first fault of parts that make none, and what a structure tells.

use crate::table::{agree, expect};
use pair_structure::{PairStructure, Role, Side, StructureFault, arrange};
use samples::{BOUND, EITHER, FIRST, LAMP, any_role, cut, labels, moves, role, structure};
use std::alloc::Global;
use std::test::Fail;

/// Labels and moves, and their first fault.
const STRUCTURES: &str = "00 10 20 | 0a1 1a2 2a0 = 3 states
 | 0a0 = no state
01 30 |  = the first states are not labelled with the starts
00 22 30 03 | 0a9 = the label of state 2 names no local state
00 20 | 0a1 0b2 = move 1 has an end that is no state
00 10 | 2a1 = move 0 has an end that is no state
00 11 02 | 0a1 0b2 = move 1 follows no arc
00 10 | 0b1 = move 0 follows no arc
00 10 11 | 0a1 0a1 0b2 = move 2 changes the other side
00 10 | 0a1 0a1 = move 1 is not above the one before
00 10 01 | 0b2 0a1 = move 1 is not above the one before
00 10 20 00 | 0a1 2a3 = no move leaves state 1
00 10 | 0a1 = no move leaves state 1";

fn made_told(alloc: Global, made: Result<PairStructure, StructureFault>) -> Result<String, Fail> {
    match made {
        Ok(m) => Ok(format!(in alloc; "{} states", m.states().len())?),
        Err(fault) => Ok(format!(in alloc; "{fault}")?),
    }
}

fn structure_told(alloc: Global, spelled: &str) -> Result<String, Fail> {
    let role = role(alloc, BOUND)?;
    let (states, steps) = cut(spelled, "|");
    let states = labels(alloc, states)?;
    let moves = moves(alloc, steps)?;
    made_told(
        alloc,
        PairStructure::make(alloc, &role, &role, &states, &moves),
    )
}

/// Over two lamps that may start in L and in R: labels and moves, and their first fault; then how many start states there are, of how many.
const STARTS: &str = "00 01 10 11 | 0b1 1a3 2a0 3b2 = 4 of 4
00 01 10 11 00 | 0b1 1a3 2a0 3b2 4b1 = 4 of 5
00 01 10 | 0b1 1b0 2a0 = the first states are not labelled with the starts
00 10 01 11 | 0a1 1b3 2b0 3a2 = the first states are not labelled with the starts
00 01 10 00 | 0b1 1b0 2a0 3b1 = the first states are not labelled with the starts
00 01 10 11 | 0b1 1a3 2a0 = no move leaves state 3
 |  = no state";

fn starts_told(alloc: Global, spelled: &str) -> Result<String, Fail> {
    let role = any_role(alloc, EITHER)?;
    let (states, steps) = cut(spelled, "|");
    let states = labels(alloc, states)?;
    let moves = moves(alloc, steps)?;
    match PairStructure::make(alloc, &role, &role, &states, &moves) {
        Ok(m) => {
            Ok(format!(in alloc; "{} of {}", m.start_count(&role, &role), m.states().len())?)
        }
        Err(fault) => Ok(format!(in alloc; "{fault}")?),
    }
}

#[test]
fn begins_in_each_pair_of_starts(rt: HostRuntime) -> Result<(), Fail> {
    expect(&rt, rt.alloc(), STARTS, starts_told)
}

#[test]
fn makes_structures_or_names_the_first_fault(rt: HostRuntime) -> Result<(), Fail> {
    expect(&rt, rt.alloc(), STRUCTURES, structure_told)
}

/// Of each state its ordinal, and how many moves of a and of b leave it; then what is found.
const COPY: &str =
    "0 1 1, 0 1 1, 0 1 1, 0 1 1, 0 1 0, 1 0 1, 0 1 1, 0 1 0, 0 0 1, Some(5) None None [true, false]";

fn ordinals(alloc: Global, m: &PairStructure) -> Result<String, Fail> {
    let mut text = String::new(alloc);
    for state in 0..m.states().len() as u64 {
        let of_a = m.moves_of(state, Side::A).len();
        let of_b = m.moves_of(state, Side::B).len();
        text.push_str(format!(in alloc; "{} {of_a} {of_b}, ", m.ordinal(state))?.as_str())?;
    }
    Ok(text)
}

/// The states with some labels and ordinals, and whether the structure is over two such roles, and over one and a lamp.
fn found(alloc: Global, m: &PairStructure, role: &Role) -> Result<String, Fail> {
    let lamp = samples::role(alloc, LAMP)?;
    let over = [m.is_over(role, role), m.is_over(role, &lamp)];
    let (there, past, never) = (
        m.state_at(1, 1, 1),
        m.state_at(1, 1, 2),
        m.state_at(255, 0, 0),
    );
    Ok(format!(in alloc; "{there:?} {past:?} {never:?} {over:?}")?)
}

fn copy_told(alloc: Global) -> Result<String, Fail> {
    let role = role(alloc, BOUND)?;
    let m = structure(alloc, &role, &role, FIRST)?.copy(alloc)?;
    let ordinals = ordinals(alloc, &m)?;
    let found = found(alloc, &m, &role)?;
    Ok(format!(in alloc; "{ordinals}{found}")?)
}

#[test]
fn tells_states_moves_and_roles(rt: HostRuntime) -> Result<(), Fail> {
    agree(&rt, copy_told(rt.alloc()), COPY)
}

fn arranged_told(alloc: Global) -> Result<String, Fail> {
    let mut steps = moves(alloc, "1b0 0b1 0a2 1b0 0a1")?;
    arrange(&mut steps);
    let wanted = moves(alloc, "0a1 0a2 0b1 1b0")?;
    Ok(format!(in alloc; "{}", steps.as_slice() == wanted.as_slice())?)
}

#[test]
fn arranges_by_from_then_side_then_to(rt: HostRuntime) -> Result<(), Fail> {
    agree(&rt, arranged_told(rt.alloc()), "true")
}
