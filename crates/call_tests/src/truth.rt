//! The truth of formulas at each state of sample structures, and which kinds the structures satisfy. The rows of truth were worked out from
//! the definition, by a script that lists all paths up to a length after which nothing changes.

use crate::table::expect;
use ctl_form::{BitRow, Formula, holds_at, solves};
use ctl_text::Spec;
use pair_structure::PairStructure;
use samples::{
    BOUND, EITHER, FIRST, LAMP, LAST, PHIL, PRIOR, TURN, UNBARRED, any_role, first_kind,
    first_role, formula, pair, role, structure,
};
use std::alloc::{AllocError, Global};
use std::test::Fail;

/// A formula over philosophers, and its truth at each state of FIRST, LAST and PRIOR.
const PHILOSOPHERS: &str = "true = 111111111 111111111 11111111
false = 000000000 000000000 00000000
a.T = 010011001 010011001 01001001
b.C = 000000101 000000101 00000101
!a.N = 010111011 010111011 01011011
a.T & b.T = 000011000 000011000 00001000
a.C | b.C = 000100111 000100111 00010111
a.T -> b.N = 111100110 111100110 11110110
AXa a.C = 010011001 010011001 01001001
EXb b.T = 110100000 110100000 11010000
AXb b.C = 001011010 001011010 00101010
EXa a.T = 101000100 101000100 10100100
AX a.T = 000001001 000010001 00000001
EX b.C = 001001100 001010100 00100100
AG (a.T -> AF a.C) = 111111111 000000000 11111111
EG !a.C = 101000100 111010101 10100100
AF a.C = 010111011 000101010 01011011
EF (a.C & b.N) = 111111111 111111111 11111111
A[a.T U a.C] = 010111011 000101010 01011011
A[a.T W a.C] = 010111011 010111011 01011011
E[a.N U a.C] = 000100010 000100010 00010010
E[a.N W a.C] = 101100110 101100110 10110110
A[b.N U b.T] = 001011010 001011010 00101010
A[b.N W b.T] = 111111010 111111010 11111010
E[b.T W b.N] = 110100000 111101010 11111010";

/// The same for TURN.
const LAMPS: &str = "AXa b.R = 1110
EXb a.R = 0010
AX a.R = 0110
A[a.L U b.R] = 1110
EG a.L = 0000
AF (a.R & b.R) = 1111";

fn over_one(alloc: Global, lines: &str, spelled: &str) -> Result<PairStructure, Fail> {
    let role = role(alloc, lines)?;
    structure(alloc, &role, &role, spelled)
}

/// The states of the structure where the formula holds.
fn truth(alloc: Global, m: &PairStructure, f: &Formula) -> Result<BitRow, Fail> {
    let row = holds_at(alloc, m, f)?;
    Ok(row.copy(alloc)?)
}

/// A space, and a digit for each state.
fn push_digits(text: &mut String, row: &BitRow) -> Result<(), AllocError> {
    text.push(' ')?;
    for state in 0..row.len() as u64 {
        text.push(if row.has(state) { '1' } else { '0' })?;
    }
    Ok(())
}

/// A space, and the truth of a formula at each state of a structure.
fn push_row(
    alloc: Global,
    text: &mut String,
    lines: &str,
    spelled: &str,
    f: &Formula,
) -> Result<(), Fail> {
    let m = over_one(alloc, lines, spelled)?;
    let row = truth(alloc, &m, f)?;
    Ok(push_digits(text, &row)?)
}

fn truth_of_philosophers(alloc: Global, asked: &str) -> Result<String, Fail> {
    let f = formula(alloc, BOUND, asked)?;
    let mut text = String::new(alloc);
    for spelled in [FIRST, LAST, PRIOR] {
        push_row(alloc, &mut text, BOUND, spelled, &f)?;
    }
    Ok(text)
}

fn truth_of_lamps(alloc: Global, asked: &str) -> Result<String, Fail> {
    let f = formula(alloc, LAMP, asked)?;
    let mut text = String::new(alloc);
    push_row(alloc, &mut text, LAMP, TURN, &f)?;
    Ok(text)
}

#[test]
fn formulas_are_true_where_they_hold(rt: HostRuntime) -> Result<(), Fail> {
    expect(&rt, rt.alloc(), PHILOSOPHERS, truth_of_philosophers)?;
    expect(&rt, rt.alloc(), LAMPS, truth_of_lamps)
}

/// Clauses of philosophers, and whether FIRST, LAST and PRIOR satisfy them and the free arcs.
const SOLVED: &str = "AG !(a.C & b.C) = true true true
AG !(a.C & b.C); AG (a.T -> AF a.C); AG (b.T -> AF b.C) = true false false
AG !a.T = false false false";

fn is_solved(alloc: Global, spec: &Spec, spelled: &str) -> Result<bool, Fail> {
    let role = first_role(spec)?;
    let kind = first_kind(spec)?;
    let m = structure(alloc, role, role, spelled)?;
    Ok(solves(alloc, &m, kind, role, role)?)
}

fn solved_by(alloc: Global, lines: &str, clauses: &str) -> Result<String, Fail> {
    let spec = pair(alloc, lines, clauses)?;
    let mut text = String::new(alloc);
    for spelled in [FIRST, LAST, PRIOR] {
        let is = is_solved(alloc, &spec, spelled)?;
        text.push_str(if is { " true" } else { " false" })?;
    }
    Ok(text)
}

fn solved_by_philosophers(alloc: Global, clauses: &str) -> Result<String, Fail> {
    solved_by(alloc, PHIL, clauses)
}

/// The same where each arc is free.
fn solved_by_unbarred(alloc: Global, clauses: &str) -> Result<String, Fail> {
    solved_by(alloc, UNBARRED, clauses)
}

/// Clauses that stand 300 times each.
fn solved_when_repeated(alloc: Global, clauses: &str) -> Result<String, Fail> {
    let mut repeated = String::new(alloc);
    for _ in 0..300 {
        repeated.push_str(clauses)?;
        repeated.push(';')?;
    }
    solved_by(alloc, PHIL, repeated.as_str())
}

#[test]
fn structures_satisfy_kinds(rt: HostRuntime) -> Result<(), Fail> {
    expect(&rt, rt.alloc(), SOLVED, solved_by_philosophers)?;
    expect(&rt, rt.alloc(), " = false false false", solved_by_unbarred)?;
    let repeated = "AG (a.T -> AF a.C); AG !(a.C & b.C) = true false true";
    expect(&rt, rt.alloc(), repeated, solved_when_repeated)
}

/// Clauses of lamps that may start in L and in R, and whether the structure that takes turns satisfies them: at each of its four start states.
const BEGUN: &str = "AF (a.R & b.R) = true
a.L = false
EXb b.R = false
a.L -> EX (b.R | a.R) = true
EF (a.L & b.L); EF (a.R & b.R) = true";

fn solved_from_each_start(alloc: Global, clauses: &str) -> Result<String, Fail> {
    let spec = pair(alloc, LAMP, clauses)?;
    let kind = spec.kinds().first().ok_or("a kind")?;
    let role = any_role(alloc, EITHER)?;
    let m = structure(alloc, &role, &role, "00 01 10 11 | 0b1 1a3 2a0 3b2")?;
    let solved = solves(alloc, &m, kind, &role, &role)?;
    Ok(format!(in alloc; "{solved}")?)
}

#[test]
fn kinds_are_satisfied_at_each_start_state(rt: HostRuntime) -> Result<(), Fail> {
    expect(&rt, rt.alloc(), BEGUN, solved_from_each_start)
}
