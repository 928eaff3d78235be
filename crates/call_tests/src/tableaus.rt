//! Graphs of small kinds, worked out by hand from the rules, and tables of nodes.

use crate::table::agree;
use deletion_rules::Position;
use samples::{LAMP, PHIL, closure, role};
use std::alloc::Global;
use std::test::Fail;
use tableau_graph::{NodeTable, Tableau, is_some_next, push_some};

/// `EXa true` and `AXa b.L` over two lamps. Members: 0 true, 1 false, 2 EXa 0, 3 EXb 0, 4 b.0, 5 AXa 4. Figures, then the children of the
/// OR nodes, then the successors of the AND nodes: after node 0 come two nodes with b.0, and after those, at each of the four pairs, one
/// that moves a and one that moves b.
const GRAPH: &str = "6 [2, 2] Some(A) [true, false, true]
[0][1, 2][3, 4][5, 6][7, 8][9, 10][9, 10][7, 8][5, 6][3, 4]
[1][2][3][4][5][6][7][2][3][8][9]";

fn push_children(alloc: Global, text: &mut String, t: &Tableau) -> Result<(), Fail> {
    for or in 0..t.ors().len() {
        text.push_str(&format!(in alloc; "{:?}", t.children(or as u64))?)?;
    }
    Ok(())
}

fn push_successors(alloc: Global, text: &mut String, t: &Tableau) -> Result<(), Fail> {
    for and in 0..t.ands().len() {
        text.push_str(&format!(in alloc; "{:?}", t.successors(and as u64))?)?;
    }
    Ok(())
}

fn tableau(alloc: Global, lines: &str, clauses: &str) -> Result<Tableau, Fail> {
    let role = role(alloc, lines)?;
    let c = closure(alloc, lines, clauses)?;
    Ok(Tableau::build(alloc, &c, &role, &role)?)
}

/// The closure's count, the roles' counts of local states, and the second OR node, with whether 0, 2 and 4 are in its row.
fn figures(alloc: Global, t: &Tableau) -> Result<String, Fail> {
    let node = t.ors().get(1).ok_or("a second node")?;
    let row = [node.row.has(0), node.row.has(2), node.row.has(4)];
    let roles = [t.role_a().locals().len(), t.role_b().locals().len()];
    Ok(format!(in alloc; "{} {roles:?} {:?} {row:?}", t.closure().count(), node.side)?)
}

fn lamps(alloc: Global) -> Result<Tableau, Fail> {
    tableau(alloc, LAMP, "EXa true; AXa b.L")
}

fn graph_told(alloc: Global) -> Result<String, Fail> {
    let t = lamps(alloc)?;
    let mut text = figures(alloc, &t)?;
    text.push('\n')?;
    push_children(alloc, &mut text, &t)?;
    text.push('\n')?;
    push_successors(alloc, &mut text, &t)?;
    Ok(text)
}

#[test]
fn builds_a_small_graph(rt: HostRuntime) -> Result<(), Fail> {
    agree(&rt, graph_told(rt.alloc()), GRAPH)
}

/// `AG !a.T` against the free arc from N to T: the root has nodes, and each of them leads to an OR node without children.
fn dead_end_told(alloc: Global) -> Result<String, Fail> {
    let t = tableau(alloc, PHIL, "AG !a.T")?;
    let mut text = String::new(alloc);
    push_children(alloc, &mut text, &t)?;
    let signs = [
        text.as_str().starts_with("[]"),
        text.as_str().contains("[]"),
    ];
    Ok(format!(in alloc; "{signs:?}")?)
}

#[test]
fn builds_a_graph_with_a_dead_end(rt: HostRuntime) -> Result<(), Fail> {
    agree(&rt, dead_end_told(rt.alloc()), "[false, true]")
}

/// The members EXs h, with the OR node to which node 0 leads for each.
fn moving_told(alloc: Global) -> Result<String, Fail> {
    let t = lamps(alloc)?;
    if t.ands().is_empty() {
        return Err(Fail::from("no node"));
    }
    let mut text = String::new(alloc);
    for member in 0..t.closure().count() {
        if is_some_next(t.closure().part(member)) {
            text.push_str(&format!(in alloc; "{member} {} ", t.next_or(0, member))?)?;
        }
    }
    Ok(text)
}

/// Member 3 is not in the row of node 0, which has one successor.
#[test]
fn follows_some_next(rt: HostRuntime) -> Result<(), Fail> {
    agree(&rt, moving_told(rt.alloc()), "2 1 3 0 ")
}

/// A place that is there, none, and another.
fn positions(alloc: Global) -> Result<Vec<Position>, Fail> {
    let mut positions = Vec::new(alloc);
    push_some(&mut positions, Some(Position { node: 7, place: 0 }))?;
    push_some(&mut positions, None)?;
    push_some(&mut positions, Some(Position { node: 7, place: 1 }))?;
    Ok(positions)
}

fn numbers_told(alloc: Global) -> Result<String, Fail> {
    let mut table = NodeTable::new(alloc);
    let first = table.number(Position { node: 7, place: 1 })?;
    let given = positions(alloc)?;
    let mut numbers = Vec::new(alloc);
    for position in &given {
        numbers.push(table.number(*position)?)?;
    }
    let count = table.nodes().len();
    let nodes = table.into_nodes();
    Ok(format!(in alloc; "{first} {:?} {count} {}", numbers.as_slice(), nodes.len())?)
}

#[test]
fn numbers_positions(rt: HostRuntime) -> Result<(), Fail> {
    agree(&rt, numbers_told(rt.alloc()), "0 [1, 0] 2 2")
}
