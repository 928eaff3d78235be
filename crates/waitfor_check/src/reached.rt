ghost use Rattle.std.specs.Prelude.{◌≡◌, ◌<◌, ◌==◌, ◌++◌, ◌∷◌, [], cond, ℕ, length, map, filter, All, OnOk};
ghost use Rattle.pair_structure.specs.Structure.{label_at};
ghost use Rattle.pair_structure.specs.declared.side.Move.{Move};
ghost use Rattle.pair_structure.specs.Sides.{local_of};
ghost use Rattle.waitfor_check.specs.Star.{IsStarState, arc_numbered, centre_side, leaf_structure};
ghost use Rattle.waitfor_check.specs.Steps.{HasKinds, reached_at, reached_by};

use crate::numbers::Numbers;
use conjunctive_compose::System;
use interconnection::Shape;
use pair_structure::{Memory, Move, PairStructure, Side, local_of};
use std::alloc::AllocError;

/// Puts, for each leaf, the states that the centre reaches by an arc that ends at this local state.
pub(crate) fn put_reached(
    system: &System,
    shape: &Shape,
    states: &[u64],
    arc: u32,
    to: u8,
    lists: &mut [Numbers],
) -> Result<(), Memory>
    requires kinds { HasKinds system.now shape.now }
    requires states { IsStarState system.now shape.now states.now }
    requires to { to ≡ (arc_numbered system.now shape.now.role arc).to }
    requires lists { length lists.old ≡ length shape.now.leaves }
    ensures { OnOk result (lists.new ≡ reached_by system.now shape.now states.now arc) }
{
    for i in 0..lists.len() {
        put_reached_in(system, shape, i, states[i], to, &mut lists[i])?;
    }
    Ok(())
}

fn put_reached_in(
    system: &System,
    shape: &Shape,
    i: usize,
    state: u64,
    to: u8,
    list: &mut Numbers,
) -> Result<(), AllocError>
    requires leaf { i < length shape.now.leaves }
    requires kinds { HasKinds system.now shape.now }
    requires state { state < length (leaf_structure system.now shape.now i).states }
    ensures { OnOk result (list.new ≡ reached_at (leaf_structure system.now shape.now i) (centre_side shape.now i) to state) }
{
    let (kind, side) = shape.leaves[i];
    let structure = system.structure(kind);
    put_reached_at(structure, side, to, state, list)?;
    Ok(())
}

/// Puts the states that one side reaches from a state by moves to this local state of its own, in the structure's
/// order.
fn put_reached_at(
    structure: &PairStructure,
    side: Side,
    local: u8,
    state: u64,
    list: &mut Numbers,
) -> Result<(), AllocError>
    requires { state < length structure.now.states }
    ensures { OnOk result (list.new ≡ reached_at structure.now side local state) }
{
    list.clear();
    let moves = structure.moves_of(state, side);
    let _labels = structure.states();
    push_reached(structure, side, local, moves, list)?;
    Ok(())
}

fn push_reached(
    structure: &PairStructure,
    side: Side,
    local: u8,
    moves: &[Move],
    list: &mut Numbers,
) -> Result<(), AllocError>
    requires { All (λ (m : Move). m.to < length structure.now.states) moves.now }
    ensures { OnOk result (list.new ≡ list.old ++ filter (λ t. local_of side (label_at structure.now.states t) == local) (map (λ (m : Move). m.to) moves.now)) }
{
    for m in moves {
        push_if(shown_in(structure, side, m.to) == local, m.to, list)?;
    }
    Ok(())
}

pub(crate) fn push_if(wanted: bool, state: u64, list: &mut Numbers) -> Result<(), AllocError>
    ensures { OnOk result (list.new ≡ list.old ++ cond wanted (state ∷ []) []) }
{
    if wanted {
        list.push(state)?;
    }
    Ok(())
}

/// The local state of one side in a pair state.
pub(crate) fn shown_in(structure: &PairStructure, side: Side, state: u64) -> u8
    requires { state < length structure.now.states }
    ensures { result ≡ local_of side (label_at structure.now.states state) }
{
    local_of(side, structure.states()[state as usize])
}
