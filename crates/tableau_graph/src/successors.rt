ghost use Rattle.std.specs.Prelude.{◌≡◌, ◌<◌, ℕ, true, IfOk, MatchOption};
ghost use Rattle.ctl_form.specs.declared.limits.TheConstants.{MAX_MEMBERS};
ghost use Rattle.ctl_form.specs.declared.part.Part.TheVariants.{Next};
ghost use Rattle.ctl_form.specs.Members.{IsBelow};
ghost use Rattle.closure_sets.specs.ClosureParts.{count};
ghost use Rattle.closure_sets.specs.Label.{part_of};
ghost use Rattle.closure_sets.specs.Row.{add, set_of};
ghost use Rattle.tableau_graph.specs.Growing.{AreNextNodes, IsCarriedBelow, IsCarriedTo, IsNextNode};
ghost use Rattle.pair_structure.specs.declared.side.Side.TheVariants.{A, B};

use crate::pushing::push_some;
use crate::{AndNode, OrNode};
use closure_sets::{Closure, Row};
use ctl_form::Part;
use pair_structure::{Memory, Side};
use std::alloc::Global;

/// The OR nodes that an AND node leads to: one for each EXs h of its row, in rising order of these members. Linear in the closure.
pub(crate) fn next_nodes(alloc: Global, c: &Closure, node: &AndNode) -> Result<Vec<OrNode>, Memory>
    ensures { IfOk result (λ nodes. AreNextNodes c.now node.now (count c.now) nodes.items) }
{
    let carried_a = carried(c, &node.row, Side::A);
    let carried_b = carried(c, &node.row, Side::B);
    let mut nodes = Vec::new(alloc);
    for member in 0..c.count() {
        push_some(
            &mut nodes,
            next_node(c, node, &carried_a, &carried_b, member),
        )?;
    }
    Ok(nodes)
}

fn next_node(
    c: &Closure,
    node: &AndNode,
    carried_a: &Row,
    carried_b: &Row,
    member: u32,
) -> Option<OrNode>
    requires member { member < count c.now }
    requires a { IsCarriedBelow c.now (set_of node.now.row.words) A (count c.now) (set_of carried_a.now.words) }
    requires b { IsCarriedBelow c.now (set_of node.now.row.words) B (count c.now) (set_of carried_b.now.words) }
    ensures { IsNextNode c.now node.now member result }
{
    c.tell_members();
    if !node.row.has(member) {
        return None;
    }
    match c.part(member) {
        Part::Next {
            all: false,
            side: Side::A,
            f,
        } => Some(successor(node, Side::A, *carried_a, f)),
        Part::Next {
            all: false,
            side: Side::B,
            f,
        } => Some(successor(node, Side::B, *carried_b, f)),
        _ => None,
    }
}

fn successor(node: &AndNode, side: Side, carried: Row, h: u32) -> OrNode
    requires { h < MAX_MEMBERS }
    ensures node { result ≡ record { side = Some side; a = node.now.a; b = node.now.b; row = result.row } }
    ensures seed { set_of result.row.words ≡ add (set_of carried.words) h }
{
    let mut row = carried;
    row.add(h);
    OrNode {
        side: Some(side),
        a: node.a,
        b: node.b,
        row,
    }
}

/// Each x for an AXs x of the row.
fn carried(c: &Closure, row: &Row, side: Side) -> Row
    ensures { IsCarriedBelow c.now (set_of row.now.words) side (count c.now) (set_of result.words) }
{
    let mut carried = Row::empty();
    for member in 0..c.count() {
        carried = carried_to(carried, side, c.part(member), row.has(member));
    }
    carried
}

fn carried_to(mut carried: Row, side: Side, part: Part, has: bool) -> Row
    requires { IsBelow MAX_MEMBERS part }
    ensures { IsCarriedTo side part has (set_of carried.words) (set_of result.words) }
{
    if !has {
        return carried;
    }
    if let Some(f) = each_next(part, side) {
        carried.add(f);
    }
    carried
}

/// The member f of a part AXs f.
fn each_next(part: Part, side: Side) -> Option<u32>
    ensures { MatchOption result ((f : ℕ) → part ≡ Next true side f → ⊥) (λ f. part ≡ Next true side f) }
{
    match side {
        Side::A => match part {
            Part::Next {
                all: true,
                side: Side::A,
                f,
            } => Some(f),
            _ => None,
        },
        Side::B => match part {
            Part::Next {
                all: true,
                side: Side::B,
                f,
            } => Some(f),
            _ => None,
        },
    }
}
