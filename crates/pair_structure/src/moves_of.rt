ghost use Rattle.std.specs.Prelude.{◌≡◌, ◌<◌, ◌≤◌, filter, length, nat_le, nat_lt};
ghost use Rattle.std.specs.List.Sorted.{IsNonDecreasingBy, IsPartitionPoint};
ghost use Rattle.pair_structure.specs.declared.side.Move.{Move};
ghost use Rattle.pair_structure.specs.Ordinal.{leaves};
ghost use Rattle.pair_structure.specs.Structure.{IsRising};
ghost use Rattle.pair_structure.specs.inside.Turn.{turn};

use crate::{Move, Side};

/// The moves of one side from a state, of moves that rise: they stand side by side, and binary search finds both ends.
pub(crate) fn moves_of(moves: &[Move], state: u64, side: Side) -> &[Move]
    requires { IsRising moves.now }
    ensures { result.now ≡ filter (leaves state side) moves.now }
{
    let rest = &moves[count_before(moves, state, side)..];
    &rest[..count_by(rest, state, side)]
}

fn count_before(moves: &[Move], state: u64, side: Side) -> usize
    requires { IsRising moves.now }
    ensures bound { result ≤ length moves.now }
    ensures point { IsPartitionPoint (λ (m : Move). turn m.from m.side < turn state side) (λ (m : Move). turn state side ≤ turn m.from m.side) moves.now result }
{
    moves.partition_point(|m| comes_before(m, state, side))
}

/// So many moves are looked at before all are: most states have fewer of one side.
const NEAR: usize = 16;

/// How many moves come no later, of moves that rise. Where they are few, they stand near the first.
fn count_by(moves: &[Move], state: u64, side: Side) -> usize
    requires { IsRising moves.now }
    ensures bound { result ≤ length moves.now }
    ensures point { IsPartitionPoint (λ (m : Move). turn m.from m.side ≤ turn state side) (λ (m : Move). turn state side < turn m.from m.side) moves.now result }
{
    let near = moves.len().min(NEAR);
    let count = count_within(&moves[..near], state, side);
    if count < near {
        return count;
    }
    count_within(moves, state, side)
}

fn count_within(moves: &[Move], state: u64, side: Side) -> usize
    requires { IsNonDecreasingBy (λ (m : Move). turn m.from m.side) moves.now }
    ensures bound { result ≤ length moves.now }
    ensures point { IsPartitionPoint (λ (m : Move). turn m.from m.side ≤ turn state side) (λ (m : Move). turn state side < turn m.from m.side) moves.now result }
{
    moves.partition_point(|m| comes_by(m, state, side))
}

fn comes_before(m: &Move, state: u64, side: Side) -> bool
    ensures { result ≡ nat_lt (turn m.now.from m.now.side) (turn state side) }
{
    (m.from, m.side) < (state, side)
}

fn comes_by(m: &Move, state: u64, side: Side) -> bool
    ensures { result ≡ nat_le (turn m.now.from m.now.side) (turn state side) }
{
    (m.from, m.side) <= (state, side)
}
