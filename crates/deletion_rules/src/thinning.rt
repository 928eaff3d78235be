ghost use Rattle.std.specs.Prelude.{◌≡◌, ◌<◌, ℕ, [], Contains, length, IfOk, OnOk};
ghost use Rattle.deletion_rules.specs.inside.Edges.{AreEdges};
ghost use Rattle.pair_structure.specs.Lists.{list_at};
ghost use Rattle.deletion_rules.specs.inside.Thinning.{Deletes, IsLosing, IsThinned, IsThinning, Loses};
ghost use Rattle.deletion_rules.specs.declared.edges.Arrow.{Arrow};

use crate::cursors::{cursors, flags, is_through};
use crate::edges::{Arrow, Edges};
use pair_structure::{Lists, Memory};
use std::alloc::Global;
use tableau_graph::{Tableau, tableau_covers, tableau_is_graph};

/// Which nodes live, the OR nodes that were found to have no living child, and for each OR node how many of its children are known to be
/// deleted.
#[derive(Drop)]
pub(crate) struct Thinning {
    pub(crate) lives: Vec<bool>,
    pub(crate) lost: Vec<bool>,
    pub(crate) cursors: Vec<usize>,
}

/// Deletes the nodes of which a successor has no living child, those that lose a successor by this, and so on. Each edge is passed once: linear
/// in nodes and edges.
pub(crate) fn thin(
    alloc: Global,
    t: &Tableau,
    edges: &Edges,
    lives: Vec<bool>,
) -> Result<Vec<bool>, Memory>
    requires lives { length lives.items ≡ length t.now.ands }
    requires edges { AreEdges t.now edges.now.parents edges.now.arrows }
    ensures { IfOk result (λ left. IsThinned t.now lives.items left.items) }
{
    let count = t.ors().len();
    let mut thinning = Thinning {
        lives,
        lost: flags(alloc, count, false)?,
        cursors: cursors(alloc, count)?,
    };
    let mut ors = lose_all(alloc, t, &mut thinning)?;
    while ors.len() > 0 {
        let nodes = delete_all(alloc, t, &edges.arrows, &ors, &mut thinning)?;
        ors = lose_parents(alloc, t, &edges.parents, &nodes, &mut thinning)?;
    }
    let Thinning { lives, .. } = thinning;
    Ok(lives)
}

/// The OR nodes that have no living child.
fn lose_all(alloc: Global, t: &Tableau, thinning: &mut Thinning) -> Result<Vec<u64>, Memory>
    requires { IsThinning t.now thinning.old }
    ensures { IfOk result (λ ors. Loses t.now thinning.old [] thinning.new ors.items) }
{
    let mut ors = Vec::new(alloc);
    for or in 0..t.ors().len() {
        lose(t, or as u64, thinning, &mut ors)?;
    }
    Ok(ors)
}

/// The OR nodes that lost their last child with these nodes.
fn lose_parents(
    alloc: Global,
    t: &Tableau,
    parents: &Lists<u64>,
    nodes: &[u64],
    thinning: &mut Thinning,
) -> Result<Vec<u64>, Memory>
    requires parents { (n o : ℕ) → Contains (list_at parents.now n) o → o < length t.now.ors }
    requires thinning { IsThinning t.now thinning.old }
    ensures { IfOk result (λ ors. Loses t.now thinning.old [] thinning.new ors.items) }
{
    let mut ors = Vec::new(alloc);
    for node in nodes {
        lose_each(t, parents.list(*node as usize), thinning, &mut ors)?;
    }
    Ok(ors)
}

fn lose_each(
    t: &Tableau,
    parents: &[u64],
    thinning: &mut Thinning,
    ors: &mut Vec<u64>,
) -> Result<(), Memory>
    requires parents { (o : ℕ) → Contains parents.now o → o < length t.now.ors }
    requires thinning { IsThinning t.now thinning.old }
    ensures { OnOk result (Loses t.now thinning.old ors.old.items thinning.new ors.new.items) }
{
    for or in parents {
        lose(t, *or, thinning, ors)?;
    }
    Ok(())
}

/// Lists the OR node, if it has no living child and was not found before.
fn lose(t: &Tableau, or: u64, thinning: &mut Thinning, ors: &mut Vec<u64>) -> Result<(), Memory>
    requires or { or < length t.now.ors }
    requires thinning { IsThinning t.now thinning.old }
    ensures { OnOk result (Loses t.now thinning.old ors.old.items thinning.new ors.new.items) }
{
    t.tell_rules();
    if thinning.lost[or as usize] {
        return Ok(());
    }
    let children = t.children(or);
    if is_through(
        children,
        &thinning.lives,
        false,
        &mut thinning.cursors[or as usize],
    ) {
        ors.push(or)?;
        thinning.lost[or as usize] = true;
    }
    Ok(())
}

/// Deletes the nodes that lead to these OR nodes, and gives those that lived.
fn delete_all(
    alloc: Global,
    t: &Tableau,
    arrows: &Lists<Arrow>,
    ors: &[u64],
    thinning: &mut Thinning,
) -> Result<Vec<u64>, Memory>
    requires arrows { (o : ℕ) (arrow : Arrow) → Contains ors.now o → Contains (list_at arrows.now o) arrow → IsLosing t.now thinning.old.lives.items arrow }
    requires thinning { IsThinning t.now thinning.old }
    ensures { IfOk result (λ nodes. Deletes t.now thinning.old [] thinning.new nodes.items) }
{
    let mut nodes = Vec::new(alloc);
    for or in ors {
        delete_each(t, arrows.list(*or as usize), thinning, &mut nodes)?;
    }
    Ok(nodes)
}

fn delete_each(
    t: &Tableau,
    arrows: &[Arrow],
    thinning: &mut Thinning,
    nodes: &mut Vec<u64>,
) -> Result<(), Memory>
    requires arrows { (arrow : Arrow) → Contains arrows.now arrow → IsLosing t.now thinning.old.lives.items arrow }
    requires thinning { IsThinning t.now thinning.old }
    ensures { OnOk result (Deletes t.now thinning.old nodes.old.items thinning.new nodes.new.items) }
{
    for arrow in arrows {
        delete(t, *arrow, thinning, nodes)?;
    }
    Ok(())
}

/// Deletes the node of the arrow, and lists it if it lived.
fn delete(
    t: &Tableau,
    arrow: Arrow,
    thinning: &mut Thinning,
    nodes: &mut Vec<u64>,
) -> Result<(), Memory>
    requires arrow { IsLosing t.now thinning.old.lives.items arrow }
    requires thinning { IsThinning t.now thinning.old }
    ensures { OnOk result (Deletes t.now thinning.old nodes.old.items thinning.new nodes.new.items) }
{
    t.tell_rules();
    tableau_is_graph();
    tableau_covers();
    if thinning.lives[arrow.node as usize] {
        nodes.push(arrow.node)?;
        thinning.lives[arrow.node as usize] = false;
    }
    Ok(())
}
