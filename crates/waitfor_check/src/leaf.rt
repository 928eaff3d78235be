ghost use Rattle.std.specs.Prelude.{◌≡◌, ◌<◌, ◌^◌, ◌*◌, ◌≤◌, ℕ, length, map, filter, slice_index, slice_set};
ghost use Rattle.pair_structure.specs.declared.side.Move.{Move};
ghost use Rattle.pair_structure.specs.Ordinal.{leaves};
ghost use Rattle.waitfor_check.specs.Star.{IsStarState, leaf_side, leaf_structure};
ghost use Rattle.waitfor_check.specs.Steps.{HasKinds, leaf_steps, reached};
ghost use Rattle.waitfor_check.specs.inside.Walk.{AreSorted, IsAtMost, IsBounded, IsWalked};

use crate::Members;
use crate::star::Star;
use crate::walk::Walked;
use conjunctive_compose::System;
use interconnection::Shape;
use pair_structure::{Move, opposite};

/// Walks over the leaves' steps of a member, leaf by leaf, up to the first that reaches no member.
pub(crate) fn walk_leaves(
    system: &System,
    star: &Star,
    states: &[u64],
    target: &mut [u64],
) -> Walked
    requires kinds { HasKinds system.now star.now.shape }
    requires states { IsStarState system.now star.now.shape states.now }
    requires members { AreSorted star.now.members }
    requires few { length star.now.shape.leaves * length star.now.members < 2 ^ 60 }
    requires target { length target.old ≡ length star.now.shape.leaves }
    ensures walked { IsWalked star.now.members (leaf_steps system.now star.now.shape states.now) result }
    ensures bounded { IsAtMost (length star.now.shape.leaves * length star.now.members) result }
{
    target.copy_from_slice(states);
    let mut count = 0;
    for i in 0..states.len() {
        match walk_leaf(system, star, states, i, target) {
            Walked::All { count: more } => count += more,
            Walked::Missing { at } => return Walked::Missing { at: count + at },
        }
    }
    Walked::All { count }
}

/// The walk over the steps of one leaf. The target has the member's states, before and after.
fn walk_leaf(system: &System, star: &Star, states: &[u64], i: usize, target: &mut [u64]) -> Walked
    requires kinds { HasKinds system.now star.now.shape }
    requires states { IsStarState system.now star.now.shape states.now }
    requires members { AreSorted star.now.members }
    requires leaf { i < length star.now.shape.leaves }
    requires target { target.old ≡ states.now }
    ensures target { target.new ≡ states.now }
    ensures walked { IsWalked star.now.members (map (slice_set states.now i) (reached (leaf_structure system.now star.now.shape i) (leaf_side star.now.shape i) (slice_index states.now i))) result }
    ensures bounded { IsBounded star.now.members result }
{
    let _network = system.network();
    let moves = leaf_moves(system, &star.shape, i, states[i]);
    let walked = walk_moves(moves, i, target, &star.members);
    target[i] = states[i];
    walked
}

fn leaf_moves<'a>(system: &'a System, shape: &Shape, i: usize, state: u64) -> &'a [Move]
    requires kinds { HasKinds system.now shape.now }
    requires leaf { i < length shape.now.leaves }
    requires state { state < length (leaf_structure system.now shape.now i).states }
    ensures { result.now ≡ filter (leaves state (leaf_side shape.now i)) (leaf_structure system.now shape.now i).moves }
{
    let (kind, side) = shape.leaves[i];
    system.structure(kind).moves_of(state, opposite(side))
}

fn walk_moves(moves: &[Move], i: usize, target: &mut [u64], members: &Members) -> Walked
    requires within { i < length target.old }
    requires members { AreSorted members.now }
    ensures rest { (x : ℕ) → slice_set target.new i x ≡ slice_set target.old i x }
    ensures walked { IsWalked members.now (map (slice_set target.old i) (map (λ (m : Move). m.to) moves.now)) result }
{
    for (n, m) in moves.iter().enumerate() {
        target[i] = m.to;
        if !members.has(target) {
            return Walked::Missing { at: n as u64 };
        }
    }
    Walked::All {
        count: moves.len() as u64,
    }
}
