ghost use Rattle.std.specs.Prelude.{◌≡◌, ◌++◌, ◌↔◌, ℕ, IfOk, OnOk, MatchOption, Contains, map};
ghost use Rattle.closure_sets.specs.Firsts.{AreFirsts};
ghost use Rattle.closure_sets.specs.Found.{sets_of};
ghost use Rattle.closure_sets.specs.Row.{set_of};
ghost use Rattle.tableau_graph.specs.TableauParts.{offered};
ghost use Rattle.tableau_graph.specs.Growing.{AreEnds, AreNodesAt, IsEnd, and_with};
ghost use Rattle.tableau_graph.specs.Rules.{LeadsTo};

use crate::pushing::push_some;
use crate::{AndNode, Breadth, OrNode};
use closure_sets::{Closure, Row, full_rows, one_sided_rows};
use pair_structure::{LocalArc, Memory, Role, Side, arcs_of, local_of, with_local};
use std::alloc::Global;

/// The pairs that an OR node leads to. Linear in the arcs of its side.
pub(crate) fn pairs_of(
    alloc: Global,
    a: &Role,
    b: &Role,
    node: &OrNode,
) -> Result<Vec<(u8, u8)>, Memory>
    ensures { IfOk result (λ pairs. (pair : ℕ × ℕ) → Contains pairs.items pair ↔ LeadsTo a.now b.now node.now.side (node.now.a, node.now.b) pair) }
{
    let pair = (node.a, node.b);
    match node.side {
        None => Ok(Vec::from_slice(alloc, &[pair])?),
        Some(side) => Ok(ends_of(alloc, side, pair, arcs_of(side, a, b))?),
    }
}

fn ends_of(
    alloc: Global,
    side: Side,
    pair: (u8, u8),
    arcs: &[LocalArc],
) -> Result<Vec<(u8, u8)>, Memory>
    ensures { IfOk result (λ ends. AreEnds side pair arcs.now ends.items) }
{
    let mut ends = Vec::new(alloc);
    for arc in arcs {
        push_some(&mut ends, end_of(side, pair, arc))?;
    }
    Ok(ends)
}

fn end_of(side: Side, pair: (u8, u8), arc: &LocalArc) -> Option<(u8, u8)>
    ensures { MatchOption result ((end : ℕ × ℕ) → IsEnd side pair arc.now end → ⊥) (IsEnd side pair arc.now) }
{
    if arc.from == local_of(side, pair) {
        return Some(with_local(side, pair, arc.to));
    }
    None
}

/// The nodes of a seed at these pairs: one for each row that is offered.
pub(crate) fn nodes_at(
    alloc: Global,
    c: &Closure,
    breadth: Breadth,
    pairs: &[(u8, u8)],
    seed: &Row,
) -> Result<Vec<AndNode>, Memory>
    ensures { IfOk result (λ nodes. AreNodesAt c.now breadth pairs.now (set_of seed.now.words) nodes.items) }
{
    let mut nodes = Vec::new(alloc);
    for pair in pairs {
        let rows = offered(alloc, c, breadth, *pair, seed)?;
        push_each(&mut nodes, *pair, &rows)?;
    }
    Ok(nodes)
}

/// The rows that are offered of a seed at this pair.
fn offered(
    alloc: Global,
    c: &Closure,
    breadth: Breadth,
    pair: (u8, u8),
    seed: &Row,
) -> Result<Vec<Row>, Memory>
    ensures { IfOk result (λ rows. AreFirsts (offered breadth c.now pair (set_of seed.now.words)) (sets_of rows.items)) }
{
    match breadth {
        Breadth::Whole => full_rows(alloc, c, pair.0, pair.1, seed),
        Breadth::OneSided => one_sided_rows(alloc, c, pair.0, pair.1, seed),
    }
}

/// Puts a node for each row behind the others.
fn push_each(nodes: &mut Vec<AndNode>, pair: (u8, u8), rows: &[Row]) -> Result<(), Memory>
    ensures { OnOk result (nodes.new.items ≡ nodes.old.items ++ map (and_with pair) rows.now) }
{
    for row in rows {
        nodes.push(AndNode {
            a: pair.0,
            b: pair.1,
            row: *row,
        })?;
    }
    Ok(())
}
