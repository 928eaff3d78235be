//! Deletion, ranks and synthesis: kinds of philosophers of which the root is deleted or left, and what is unravelled.

use crate::table::{agree, expect};
use ctl_form::{Part, solves};
use deletion_rules::{Pruned, Ranks, prune};
use pair_structure::PairStructure;
use samples::{BOUND, FAIR, LAMP, PHIL, closure, first_kind, first_role, normal, pair, role};
use std::alloc::Global;
use std::test::Fail;
use tableau_graph::Tableau;
use unravel::{Outcome, synthesize, unravelled};

/// Clauses of philosophers with free arcs: whether what is unravelled solves them, and what is synthesized.
const FREE: &str = "AG !(a.C & b.C); AG (a.T -> AF a.C); AG (b.T -> AF b.C) = solves solves
EF a.C; EF b.C; EG (a.N & b.N | b.T & a.N | b.C & a.N) = solves solves
AG !a.T = dead unsatisfiable";

/// The same without free arcs.
const CLOSED: &str = "AG !a.T = solves solves
AF a.C; AG !a.C = dead unsatisfiable
EF a.C; AG !a.C = dead unsatisfiable";

/// Each lamp can be switched on, but who is first is alone for good: a way for each side is needed at the start, which no row of one side
/// has.
const EITHER_SIDE: &str = "EF a.R; EF b.R; AG (a.R -> AG !b.R); AG (b.R -> AG !a.R)";

/// What is left of a part of the tableau, and what is synthesized all the same.
fn part_told(alloc: Global) -> Result<String, Fail> {
    let role = role(alloc, LAMP)?;
    let closure = closure(alloc, LAMP, EITHER_SIDE)?;
    let part = Tableau::build_part(alloc, &closure, &role, &role)?;
    let breadth = part.breadth();
    let left = match prune(alloc, part)? {
        Pruned::Alive(_) => "alive",
        Pruned::Dead => "dead",
    };
    let word = synthesized_word(alloc, LAMP, EITHER_SIDE)?;
    Ok(format!(in alloc; "{breadth:?} {left} {word}")?)
}

#[test]
fn finds_what_the_part_has_not(rt: HostRuntime) -> Result<(), Fail> {
    agree(&rt, part_told(rt.alloc()), "OneSided dead solves")
}

fn pruned(alloc: Global, lines: &str, clauses: &str) -> Result<Pruned, Fail> {
    let role = role(alloc, lines)?;
    let closure = closure(alloc, lines, clauses)?;
    let t = Tableau::build(alloc, &closure, &role, &role)?;
    Ok(prune(alloc, t)?)
}

fn judged(
    alloc: Global,
    lines: &str,
    clauses: &str,
    m: &PairStructure,
) -> Result<&'static str, Fail> {
    let spec = pair(alloc, lines, clauses)?;
    let role = first_role(&spec)?;
    let kind = first_kind(&spec)?;
    if m.is_over(role, role) && solves(alloc, m, kind, role, role)? {
        return Ok("solves");
    }
    Ok("fails")
}

fn unravelled_word(alloc: Global, lines: &str, clauses: &str) -> Result<&'static str, Fail> {
    match pruned(alloc, lines, clauses)? {
        Pruned::Alive(ranks) => judged(alloc, lines, clauses, &unravelled(alloc, &ranks)?),
        Pruned::Dead => Ok("dead"),
    }
}

fn synthesized_word(alloc: Global, lines: &str, clauses: &str) -> Result<&'static str, Fail> {
    let role = role(alloc, lines)?;
    let normal = normal(alloc, lines, clauses)?;
    match synthesize(alloc, &role, &role, &normal)? {
        Outcome::Structure(m) => judged(alloc, lines, clauses, &m),
        Outcome::Unsatisfiable => Ok("unsatisfiable"),
    }
}

fn told(alloc: Global, lines: &str, clauses: &str) -> Result<String, Fail> {
    let first = unravelled_word(alloc, lines, clauses)?;
    let second = synthesized_word(alloc, lines, clauses)?;
    Ok(format!(in alloc; "{first} {second}")?)
}

fn free_told(alloc: Global, clauses: &str) -> Result<String, Fail> {
    told(alloc, PHIL, clauses)
}

fn closed_told(alloc: Global, clauses: &str) -> Result<String, Fail> {
    told(alloc, BOUND, clauses)
}

#[test]
fn synthesizes_or_deletes_the_root(rt: HostRuntime) -> Result<(), Fail> {
    expect(&rt, rt.alloc(), FREE, free_told)?;
    expect(&rt, rt.alloc(), CLOSED, closed_told)
}

fn is_ever(part: Part) -> bool {
    match part {
        Part::Until { all, weak, .. } => all && !weak,
        _ => false,
    }
}

/// Whether exactly the living nodes with the member have a rank of it, and some have.
fn is_ranked(ranks: &Ranks, member: u32) -> bool {
    let mut some = false;
    let nodes = ranks.tableau().ands();
    for and in 0..nodes.len() {
        let has = member < 512 && nodes[and].row.has(member);
        let wanted = has && ranks.lives_and(and as u64);
        if ranks.rank(and as u64, member).is_some() != wanted {
            return false;
        }
        some = some || wanted;
    }
    some
}

/// How many members are strong untils of each path that are ranked so.
fn ranked_untils(ranks: &Ranks) -> u32 {
    let c = ranks.tableau().closure();
    let mut untils = 0u32;
    for member in 0..c.count() {
        if is_ever(c.part(member)) && is_ranked(ranks, member) {
            untils = untils.saturating_add(1);
        }
    }
    untils
}

fn alive(pruned: Pruned) -> Option<Ranks> {
    match pruned {
        Pruned::Alive(ranks) => Some(ranks),
        Pruned::Dead => None,
    }
}

/// Whether the root is left, and how many untils are ranked.
fn ranks_told(alloc: Global) -> Result<String, Fail> {
    let ranks = alive(pruned(alloc, PHIL, FAIR)?).ok_or("a living root")?;
    Ok(format!(in alloc; "{} {}", ranks.lives_or(0), ranked_untils(&ranks))?)
}

#[test]
fn ranks_the_untils_of_fair_philosophers(rt: HostRuntime) -> Result<(), Fail> {
    agree(&rt, ranks_told(rt.alloc()), "true 2")
}
