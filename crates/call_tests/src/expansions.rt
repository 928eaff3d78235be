//! The rows of small seeds, worked out by hand from the definition of the expansion.

use crate::table::{agree, expect};
use closure_sets::{Closure, Row, full_rows, one_sided_rows};
use ctl_form::Part;
use pair_structure::Side;
use samples::{BOUND, FAIR, LAMP, PHIL, byte, closure, cut, number};
use std::alloc::Global;
use std::test::Fail;

/// Two untils whose parts the label leaves open. Members: 0 true, 1 false, 2 EXa 0, 3 EXb 0, 4 a.N, 5 a.T, 6 EXa 5, 7 E[4 U 6], 8 EXa 7,
/// 9 EXb 7, 10 b.T, 11 EXb 10, 12 A[4 U 11], 13 AXa 12, 14 AXb 12. A row has the local states, the seed and its rows.
const UNTILS: &str = "00: = 2 /3 /
00:0 = 0 2 /0 3 /
00:1 =
00:2 = 2 /
00:2 3 = 2 3 /
00:5 =
10:5 = 2 5 /3 5 /
00:7 = 2 6 7 /3 6 7 /2 4 7 8 /3 4 7 8 /2 4 7 9 /3 4 7 9 /
10:7 = 2 6 7 /3 6 7 /
00:2 6 7 = 2 6 7 /
00:2 4 7 8 9 = 2 4 6 7 8 9 /2 4 7 8 9 /
00:3 12 = 3 11 12 /3 4 12 13 14 /
10:3 12 = 3 11 12 /";

/// `E[a.N U b.T]` and `!(a.N & !EXa true)`. Members: 4 a.N, 5 b.T, 6 E[4 U 5], 7 EXa 6, 8 EXb 6, 9 !a.N, 10 either 9 or 2.
const EASY: &str = "01:2 6 = 2 5 6 /
00:2 6 = 2 4 6 7 /2 4 6 8 /
10:2 6 =
10:3 10 = 3 9 10 /
00:3 10 = 2 3 10 /
00:2 10 = 2 10 /";

fn row_of(text: &str) -> Row {
    let mut row = Row::empty();
    for word in text.split_whitespace() {
        let member = number(word);
        if member < 512 {
            row.add(member);
        }
    }
    row
}

fn push_members(alloc: Global, text: &mut String, c: &Closure, row: &Row) -> Result<(), Fail> {
    for member in 0..c.count() {
        if row.has(member) {
            text.push_str(&format!(in alloc; "{member} ")?)?;
        }
    }
    text.push('/')?;
    Ok(())
}

/// The rows of the seed that stands behind the two digits of the label and a colon.
fn rows_of(alloc: Global, c: &Closure, asked: &str) -> Result<String, Fail> {
    let (label, seed) = cut(asked, ":");
    let label = byte(label);
    let mut text = String::new(alloc);
    for row in &full_rows(alloc, c, label / 10, label % 10, &row_of(seed))? {
        push_members(alloc, &mut text, c, row)?;
    }
    Ok(text)
}

fn rows_of_untils(alloc: Global, asked: &str) -> Result<String, Fail> {
    let c = closure(alloc, BOUND, "E[a.N U EXa a.T]; A[a.N U EXb b.T]")?;
    rows_of(alloc, &c, asked)
}

fn rows_of_easy(alloc: Global, asked: &str) -> Result<String, Fail> {
    let c = closure(alloc, BOUND, "E[a.N U b.T]; !(a.N & !EXa true)")?;
    rows_of(alloc, &c, asked)
}

#[test]
fn expands_seeds(rt: HostRuntime) -> Result<(), Fail> {
    expect(&rt, rt.alloc(), UNTILS, rows_of_untils)?;
    expect(&rt, rt.alloc(), EASY, rows_of_easy)
}

fn roots_of(c: &Closure) -> Row {
    let mut seed = Row::empty();
    for root in c.roots() {
        if *root < 512 {
            seed.add(*root);
        }
    }
    seed
}

/// How many rows the roots have at the starts, and how many of one side.
fn first_rows(alloc: Global, c: &Closure) -> Result<[usize; 2], Fail> {
    let seed = roots_of(c);
    let whole = full_rows(alloc, c, 0, 0, &seed)?;
    let sided = one_sided_rows(alloc, c, 0, 0, &seed)?;
    Ok([whole.len(), sided.len()])
}

/// Two E untils are put off, by two sides each; each row asks for a move of a or of b.
fn sides_told(alloc: Global) -> Result<String, Fail> {
    let c = closure(alloc, LAMP, "EF a.R; EF b.R")?;
    Ok(format!(in alloc; "{:?}", first_rows(alloc, &c)?)?)
}

#[test]
fn expands_along_one_side(rt: HostRuntime) -> Result<(), Fail> {
    agree(&rt, sides_told(rt.alloc()), "[8, 4]")
}

/// What fair philosophers ask has rows at their starts; `AG !a.T` has none where a waits.
fn pairs_told(alloc: Global) -> Result<String, Fail> {
    let fair = closure(alloc, PHIL, FAIR)?;
    let quiet = closure(alloc, PHIL, "AG !a.T")?;
    let none = rows_of(alloc, &quiet, "10:5")?;
    Ok(format!(in alloc;
        "{} {} {none}",
        fair.count(),
        first_rows(alloc, &fair)?[0] > 0
    )?)
}

#[test]
fn expands_pairs(rt: HostRuntime) -> Result<(), Fail> {
    agree(&rt, pairs_told(rt.alloc()), "54 true ")
}

/// The member with its next-times, by side.
fn afters(alloc: Global, c: &Closure, member: u32) -> Result<String, Fail> {
    if member >= c.count() {
        return Err(Fail::from("no member"));
    }
    let next = [c.after(Side::A, member), c.after(Side::B, member)];
    Ok(format!(in alloc; "{:?} {next:?}", c.part(member))?)
}

fn closure_told(alloc: Global) -> Result<String, Fail> {
    let c = closure(alloc, PHIL, "AG !a.T")?.copy(alloc)?;
    let until = afters(alloc, &c, 5)?;
    let moves = [c.some_move(Side::A), c.some_move(Side::B)];
    Ok(format!(in alloc; "{until} {moves:?} {:?} {:?}", c.roots(), c.find(Part::No))?)
}

#[test]
fn copies_a_closure(rt: HostRuntime) -> Result<(), Fail> {
    let wanted =
        "Until { all: true, weak: true, f: 4, g: 1 } [6, 7] [2, 3] [5, 12, 19, 26, 33] Some(1)";
    agree(&rt, closure_told(rt.alloc()), wanted)
}
