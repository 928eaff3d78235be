ghost use Rattle.std.specs.Prelude.{◌≡◌, ◌+◌, ◌<◌, length, IfOk, OnOk};
ghost use Rattle.closure_sets.specs.ClosureParts.{count};
ghost use Rattle.deletion_rules.specs.inside.Edges.{is_next, AreArrows, AreEdges, AreParents};

use pair_structure::{Lists, Memory};
use std::alloc::Global;
use tableau_graph::{Tableau, is_some_next};

/// A member EXs h of an AND node's row, by which the node leads to an OR node.
#[derive(Clone, Copy)]
pub(crate) struct Arrow {
    pub(crate) node: u64,
    pub(crate) member: u32,
}

/// The edges of a tableau the other way round: for each AND node the OR nodes of which it is a child, and for each OR node the members of
/// AND nodes that lead to it. 8 and 16 bytes an edge.
#[derive(Drop)]
pub(crate) struct Edges {
    pub(crate) parents: Lists<u64>,
    pub(crate) arrows: Lists<Arrow>,
}

impl Edges {
    /// Linear in nodes and edges, and in the members for each AND node.
    pub(crate) fn of(alloc: Global, t: &Tableau) -> Result<Edges, Memory>
        ensures { IfOk result (λ e. AreEdges t.now e.parents e.arrows) }
    {
        let parents = parents_of(alloc, t)?;
        let arrows = arrows_of(alloc, t)?;
        Ok(Edges { parents, arrows })
    }
}

fn parents_of(alloc: Global, t: &Tableau) -> Result<Lists<u64>, Memory>
    ensures { IfOk result (λ parents. AreParents t.now (length t.now.ors) parents) }
{
    let ors = t.ors().len();
    let mut parents = Lists::empty(alloc, t.ands().len())?;
    for or in 0..ors {
        add_parent(alloc, t, or as u64, &mut parents)?;
    }
    Ok(parents)
}

/// Puts the OR node down as a parent of each of its children.
fn add_parent(alloc: Global, t: &Tableau, or: u64, parents: &mut Lists<u64>) -> Result<(), Memory>
    requires or { or < length t.now.ors }
    requires before { AreParents t.now or parents.old }
    ensures { OnOk result (AreParents t.now (or + 1) parents.new) }
{
    t.tell_rules();
    for child in t.children(or) {
        parents.push(alloc, *child as usize, or)?;
    }
    Ok(())
}

fn arrows_of(alloc: Global, t: &Tableau) -> Result<Lists<Arrow>, Memory>
    ensures { IfOk result (λ arrows. AreArrows t.now (length t.now.ands) arrows) }
{
    let ands = t.ands().len();
    let mut arrows = Lists::empty(alloc, t.ors().len())?;
    for and in 0..ands {
        add_arrows(alloc, t, and as u64, &mut arrows)?;
    }
    Ok(arrows)
}

/// Puts each member EXs h of the node's row down at the OR node that it leads to. One pass over the members.
fn add_arrows(alloc: Global, t: &Tableau, and: u64, arrows: &mut Lists<Arrow>) -> Result<(), Memory>
    requires and { and < length t.now.ands }
    requires before { AreArrows t.now and arrows.old }
    ensures { OnOk result (AreArrows t.now (and + 1) arrows.new) }
{
    t.tell_rules();
    let mut place = 0;
    for member in 0..t.closure().count() {
        if is_next(t, and, member) {
            let or = t.successor_at(and, place) as usize;
            arrows.push(alloc, or, Arrow { node: and, member })?;
            place += 1;
        }
    }
    Ok(())
}

/// Whether the member is some EXs h of the node's row.
fn is_next(t: &Tableau, and: u64, member: u32) -> bool
    requires and { and < length t.now.ands }
    requires member { member < count t.now.closure }
    ensures { result ≡ is_next t.now and member }
{
    t.closure().tell_members();
    t.ands()[and as usize].row.has(member) && is_some_next(t.closure().part(member))
}
