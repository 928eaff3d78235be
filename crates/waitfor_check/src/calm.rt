ghost use Rattle.std.specs.Prelude.{◌≡◌, ◌<◌, ◌↔◌, length, All, Any, IsTrue};
ghost use Rattle.pair_structure.specs.declared.side.Move.{Move};
ghost use Rattle.pair_structure.specs.Structure.{label_at};
ghost use Rattle.pair_structure.specs.Parts.{role_at};
ghost use Rattle.pair_structure.specs.Sides.{local_of};
ghost use Rattle.waitfor_check.specs.Star.{AllTake, CentreMayGo, IsStarState, MayTake, centre_side, leaf_structure};
ghost use Rattle.waitfor_check.specs.Steps.{HasKinds};

use crate::reached::shown_in;
use conjunctive_compose::System;
use interconnection::Shape;
use pair_structure::{LocalArc, Move, PairStructure, Side};

/// Whether some arc of the centre is permitted by all leaves. Arcs times leaves, and the moves of each leaf's state.
pub(crate) fn centre_may_go(system: &System, shape: &Shape, states: &[u64]) -> bool
    requires kinds { HasKinds system.now shape.now }
    requires states { IsStarState system.now shape.now states.now }
    ensures { IsTrue result ↔ CentreMayGo system.now shape.now states.now }
{
    let arcs = system.network().roles()[shape.role as usize].arcs();
    some_taken(system, shape, states, arcs)
}

fn some_taken(system: &System, shape: &Shape, states: &[u64], arcs: &[LocalArc]) -> bool
    requires kinds { HasKinds system.now shape.now }
    requires states { IsStarState system.now shape.now states.now }
    requires arcs { arcs.now ≡ (role_at system.now.network.roles shape.now.role).arcs }
    ensures { IsTrue result ↔ CentreMayGo system.now shape.now states.now }
{
    for arc in arcs {
        if all_take(system, shape, states, *arc) {
            return true;
        }
    }
    false
}

fn all_take(system: &System, shape: &Shape, states: &[u64], arc: LocalArc) -> bool
    requires kinds { HasKinds system.now shape.now }
    requires states { IsStarState system.now shape.now states.now }
    ensures { IsTrue result ↔ AllTake system.now shape.now arc states.now }
{
    for i in 0..states.len() {
        if !centre_takes(system, shape, i, states[i], arc) {
            return false;
        }
    }
    true
}

fn centre_takes(system: &System, shape: &Shape, i: usize, state: u64, arc: LocalArc) -> bool
    requires kinds { HasKinds system.now shape.now }
    requires leaf { i < length shape.now.leaves }
    requires state { state < length (leaf_structure system.now shape.now i).states }
    ensures { IsTrue result ↔ MayTake (leaf_structure system.now shape.now i) (centre_side shape.now i) arc state }
{
    let (kind, side) = shape.leaves[i];
    may_take(system.structure(kind), side, arc, state)
}

/// Whether the side has a move on the arc from this state. Linear in its moves there.
pub(crate) fn may_take(structure: &PairStructure, side: Side, arc: LocalArc, state: u64) -> bool
    requires { state < length structure.now.states }
    ensures { IsTrue result ↔ MayTake structure.now side arc state }
{
    if shown_in(structure, side, state) != arc.from {
        return false;
    }
    let _labels = structure.states();
    leads_to(structure, side, structure.moves_of(state, side), arc.to)
}

fn leads_to(structure: &PairStructure, side: Side, moves: &[Move], local: u8) -> bool
    requires { All (λ (m : Move). m.to < length structure.now.states) moves.now }
    ensures { IsTrue result ↔ Any (λ (m : Move). local_of side (label_at structure.now.states m.to) ≡ local) moves.now }
{
    for m in moves {
        if shown_in(structure, side, m.to) == local {
            return true;
        }
    }
    false
}
