ghost use Rattle.std.specs.Prelude.{◌≡◌, ◌<◌, ◌↔◌, ◌⊎◌, length, IsTrue};
ghost use Rattle.pair_structure.specs.Structure.{label_at};
ghost use Rattle.pair_structure.specs.Parts.{role_at};
ghost use Rattle.pair_structure.specs.Sides.{local_of};
ghost use Rattle.waitfor_check.specs.Accepted.{IsCalmAt};
ghost use Rattle.waitfor_check.specs.Star.{AllLeavingTaken, IsStarState, LeafMayGo, LeavesMayGo, MayTake, leaf_role, leaf_side, leaf_structure};
ghost use Rattle.waitfor_check.specs.Steps.{HasKinds};

use crate::calm::{centre_may_go, may_take};
use crate::reached::shown_in;
use conjunctive_compose::System;
use interconnection::Shape;
use pair_structure::{LocalArc, PairStructure, Side, local_of, opposite};

/// Whether nobody waits for the centre in this star state, or the centre can go.
pub(crate) fn is_calm(system: &System, shape: &Shape, states: &[u64]) -> bool
    requires kinds { HasKinds system.now shape.now }
    requires states { IsStarState system.now shape.now states.now }
    ensures { IsTrue result ↔ IsCalmAt system.now shape.now states.now }
{
    if leaves_may_go(system, shape, states) {
        return true;
    }
    centre_may_go(system, shape, states)
}

/// Whether the centre permits every arc from every leaf's local state.
fn leaves_may_go(system: &System, shape: &Shape, states: &[u64]) -> bool
    requires kinds { HasKinds system.now shape.now }
    requires states { IsStarState system.now shape.now states.now }
    ensures { IsTrue result ↔ LeavesMayGo system.now shape.now states.now }
{
    for i in 0..states.len() {
        if !leaf_may_go(system, shape, i, states[i]) {
            return false;
        }
    }
    true
}

fn leaf_may_go(system: &System, shape: &Shape, i: usize, state: u64) -> bool
    requires kinds { HasKinds system.now shape.now }
    requires leaf { i < length shape.now.leaves }
    requires state { state < length (leaf_structure system.now shape.now i).states }
    ensures { IsTrue result ↔ LeafMayGo system.now shape.now i state }
{
    let structure = leaf_structure(system, shape, i);
    let side = leaf_side(shape, i);
    let arcs = leaf_arcs(system, shape, i);
    all_leaving_taken(structure, side, arcs, state)
}

fn leaf_structure<'a>(system: &'a System, shape: &Shape, i: usize) -> &'a PairStructure
    requires kinds { HasKinds system.now shape.now }
    requires leaf { i < length shape.now.leaves }
    ensures { result.now ≡ leaf_structure system.now shape.now i }
{
    system.structure(shape.leaves[i].0)
}

fn leaf_side(shape: &Shape, i: usize) -> Side
    requires { i < length shape.now.leaves }
    ensures { result ≡ leaf_side shape.now i }
{
    opposite(shape.leaves[i].1)
}

fn leaf_arcs<'a>(system: &'a System, shape: &Shape, i: usize) -> &'a [LocalArc]
    requires kinds { HasKinds system.now shape.now }
    requires leaf { i < length shape.now.leaves }
    ensures { result.now ≡ (role_at system.now.network.roles (leaf_role system.now shape.now i)).arcs }
{
    let (kind, side) = shape.leaves[i];
    let ends = system.network().ends()[kind as usize];
    let role = local_of(opposite(side), ends);
    system.network().roles()[role as usize].arcs()
}

fn all_leaving_taken(structure: &PairStructure, side: Side, arcs: &[LocalArc], state: u64) -> bool
    requires { state < length structure.now.states }
    ensures { IsTrue result ↔ AllLeavingTaken structure.now side arcs.now state }
{
    for arc in arcs {
        if !stays_or_takes(structure, side, *arc, state) {
            return false;
        }
    }
    true
}

fn stays_or_takes(structure: &PairStructure, side: Side, arc: LocalArc, state: u64) -> bool
    requires { state < length structure.now.states }
    ensures { IsTrue result ↔ (arc.from ≡ local_of side (label_at structure.now.states state) → MayTake structure.now side arc state) }
{
    if arc.from != shown_in(structure, side, state) {
        return true;
    }
    may_take(structure, side, arc, state)
}
