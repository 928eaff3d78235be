ghost use Rattle.std.specs.Prelude.{◌≡◌, ◌<◌, ◌↔◌, All, Contains, IfOk, length};
ghost use Rattle.pair_structure.specs.declared.side.Move.{Move};
ghost use Rattle.pair_structure.specs.Structure.{IsPairStructure, IsRising};
ghost use Rattle.tableau_graph.specs.Graph.{graph_of};
ghost use Rattle.deletion_rules.specs.Satisfying.{Satisfies};
ghost use Rattle.deletion_rules.specs.declared.position.Position.{Position};
ghost use Rattle.unravel.specs.inside.Growing.{IsGrown, label_of, labels_of};
ghost use Rattle.unravel.specs.inside.Pursuit.{AreAllTargets, IsGoodFor};

use crate::child::best_child;
use crate::growing::{Growing, grown};
use crate::pursuit::target_at;
use crate::tableau::{tableau_of, tell_alive};
use deletion_rules::{Position, Ranks, Target, targets_of, unravelled_satisfies};
use pair_structure::{Memory, Move, PairStructure, Role, StructureFault, arrange};
use std::alloc::Global;
use tableau_graph::tableau_is_graph;

/// A structure unravelled from what the rules of deletion leave: a state is a living AND node with the strong until that is pursued there.
pub fn unravelled(alloc: Global, ranks: &Ranks) -> Result<PairStructure, Memory>
    ensures { IfOk result (Satisfies ranks.now.tableau.a ranks.now.tableau.b ranks.now.tableau.closure) }
{
    let targets = targets_of(alloc, tableau_of(ranks).closure())?;
    let first = first_position(ranks, &targets);
    let growing = grown(alloc, ranks, &targets, first)?;
    structure_of(alloc, ranks, &targets, growing)
}

/// The child of the root at which the first target has the lowest rank, and the first place.
fn first_position(ranks: &Ranks, targets: &[Target]) -> Position
    ensures good { IsGoodFor ranks.now targets.now result }
    ensures child { Contains ((graph_of ranks.now.tableau).children 0) result.node }
{
    tell_alive(ranks);
    let start = Position { node: 0, place: 0 };
    let node = best_child(ranks, 0, target_at(targets, start));
    Position { node, place: 0 }
}

/// The structure of all positions and moves.
fn structure_of(
    alloc: Global,
    ranks: &Ranks,
    _targets: &[Target],
    mut growing: Growing,
) -> Result<PairStructure, Memory>
    requires targets { AreAllTargets ranks.now _targets.now }
    requires grown { IsGrown ranks.now _targets.now (length growing.positions) 0 growing.positions growing.moves.items }
    ensures { IfOk result (Satisfies ranks.now.tableau.a ranks.now.tableau.b ranks.now.tableau.closure) }
{
    tableau_is_graph();
    unravelled_satisfies();
    let tableau = tableau_of(ranks);
    arrange(&mut growing.moves);
    let labels = labels_of(alloc, ranks, growing.positions.nodes())?;
    made(
        alloc,
        tableau.role_a(),
        tableau.role_b(),
        &labels,
        &growing.moves,
    )
}

/// The labels of the positions.
fn labels_of(alloc: Global, ranks: &Ranks, positions: &[Position]) -> Result<Vec<(u8, u8)>, Memory>
    requires { All (λ (p : Position). p.node < length ranks.now.tableau.ands) positions.now }
    ensures { IfOk result (λ labels. labels.items ≡ labels_of ranks.now.tableau positions.now) }
{
    let mut labels = Vec::with_capacity(alloc, positions.len())?;
    for position in positions {
        labels.push(label_of(ranks, position.node))?;
    }
    Ok(labels)
}

fn label_of(ranks: &Ranks, and: u64) -> (u8, u8)
    requires { and < length ranks.now.tableau.ands }
    ensures { result ≡ (graph_of ranks.now.tableau).label and }
{
    let node = tableau_of(ranks).ands()[and as usize];
    (node.a, node.b)
}

/// The structure with these states and moves, which are one over the roles.
pub(crate) fn made(
    alloc: Global,
    a: &Role,
    b: &Role,
    states: &[(u8, u8)],
    moves: &[Move],
) -> Result<PairStructure, Memory>
    requires { IsPairStructure a.now b.now states.now moves.now }
    ensures { IfOk result (λ m. m ≡ record { states = states.now; moves = moves.now }) }
{
    match PairStructure::make(alloc, a, b, states, moves) {
        Ok(m) => Ok(m),
        Err(StructureFault::Memory) => Err(Memory),
        Err(_) => unreachable!(),
    }
}
