ghost use Rattle.std.specs.Prelude.{◌≡◌, ◌<◌, ◌≤◌, ◌+◌, true, length, replicate, IfOk, OnOk};
ghost use Rattle.deletion_rules.specs.inside.Cursors.{AreCursors};
ghost use Rattle.deletion_rules.specs.inside.Edges.{AreEdges};
ghost use Rattle.deletion_rules.specs.Marks.{lives_of, open_count, AreMarks};
ghost use Rattle.deletion_rules.specs.inside.Spread.{AreFirst, IsSpread};
ghost use Rattle.deletion_rules.specs.Targets.{IsTarget};
ghost use Rattle.deletion_rules.specs.inside.Tests.{is_met};
ghost use Rattle.tableau_graph.specs.Graph.{graph_of};

use crate::cursors::{cursors, flags};
use crate::edges::Edges;
use crate::reaching::reach;
use crate::visiting::{Front, Marking, visit_each};
use pair_structure::Memory;
use std::alloc::Global;
use tableau_graph::tableau_is_graph;

/// The round in which a target is seen to be fulfilled at each living node that has it. A round goes from the nodes that were marked last to
/// their parents, and from those that were not reached before to the nodes that lead there: linear in nodes and edges, over all rounds.
pub(crate) fn mark(
    alloc: Global,
    m: &Marking<'_>,
    edges: &Edges,
) -> Result<Vec<Option<u64>>, Memory>
    requires lives { length m.now.lives.now ≡ length m.now.tableau.now.ands }
    requires edges { AreEdges m.now.tableau.now edges.now.parents edges.now.arrows }
    requires target { IsTarget m.now.tableau.now.closure m.now.target }
    ensures { IfOk result (λ marks. AreMarks m.now.tableau.now.closure (graph_of m.now.tableau.now) (lives_of m.now.lives.now) m.now.target marks.items) }
{
    tableau_is_graph();
    let mut front = first_front(alloc, m)?;
    let mut reached = flags(alloc, m.tableau.ors().len(), false)?;
    spread(alloc, m, edges, &mut reached, &mut front)?;
    let Front { marks, .. } = front;
    Ok(marks)
}

/// Lets the marks spread, a round at a time.
fn spread(
    alloc: Global,
    m: &Marking<'_>,
    edges: &Edges,
    reached: &mut [bool],
    front: &mut Front,
) -> Result<(), Memory>
    requires lives { length m.now.lives.now ≡ length m.now.tableau.now.ands }
    requires edges { AreEdges m.now.tableau.now edges.now.parents edges.now.arrows }
    requires target { IsTarget m.now.tableau.now.closure m.now.target }
    requires spread { IsSpread m.now.tableau.now m.now.lives.now m.now.target 1 front.old.marks.items reached.old front.old.nodes.items }
    requires cursors { AreCursors (length m.now.tableau.now.ands) m.now.tableau.now.successors reached.old true front.old.cursors.items }
    requires few { open_count front.old.marks.items + length front.old.nodes.items ≤ length m.now.tableau.now.ands }
    ensures { OnOk result (AreMarks m.now.tableau.now.closure (graph_of m.now.tableau.now) (lives_of m.now.lives.now) m.now.target front.new.marks.items) }
{
    m.tableau.tell_rules();
    let mut round = 0;
    while front.nodes.len() > 0 {
        round += 1;
        let ors = reach(alloc, &edges.parents, &front.nodes, reached)?;
        front.nodes = Vec::new(alloc);
        visit_each(m, &edges.arrows, reached, round, &ors, front)?;
    }
    Ok(())
}

/// Marks the nodes where the target is met.
fn first_front(alloc: Global, m: &Marking<'_>) -> Result<Front, Memory>
    requires lives { length m.now.lives.now ≡ length m.now.tableau.now.ands }
    requires target { IsTarget m.now.tableau.now.closure m.now.target }
    ensures first { IfOk result (λ front. AreFirst m.now.tableau.now m.now.lives.now m.now.target (length m.now.tableau.now.ands) front.marks.items front.nodes.items) }
    ensures cursors { IfOk result (λ front. front.cursors.items ≡ replicate (length m.now.tableau.now.ands) 0) }
{
    let count = m.tableau.ands().len();
    let cursors = cursors(alloc, count)?;
    let mut marks = Vec::with_capacity(alloc, count)?;
    let mut nodes = Vec::new(alloc);
    for n in 0..count {
        if is_met(m, n as u64) {
            nodes.push(n as u64)?;
            marks.push(Some(0))?;
        } else {
            marks.push(None)?;
        }
    }
    Ok(Front {
        marks,
        nodes,
        cursors,
    })
}

/// Whether the node lives, and has the target and its part g.
fn is_met(m: &Marking<'_>, n: u64) -> bool
    requires n { n < length m.now.tableau.now.ands }
    requires lives { length m.now.lives.now ≡ length m.now.tableau.now.ands }
    requires target { IsTarget m.now.tableau.now.closure m.now.target }
    ensures { result ≡ is_met m.now.tableau.now m.now.lives.now m.now.target n }
{
    m.tableau.closure().tell_members();
    let row = m.tableau.ands()[n as usize].row;
    m.lives[n as usize] && row.has(m.target.member) && row.has(m.target.g)
}
