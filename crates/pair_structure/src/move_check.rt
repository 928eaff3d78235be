ghost use Rattle.std.specs.Prelude.{◌≡◌, ◌↔◌, ◌<◌, ◌≤◌, ℕ, All, IsTrue, length};
ghost use Rattle.pair_structure.specs.inside.ArcTable.{IsInTable, IsTableOf};
ghost use Rattle.pair_structure.specs.inside.FirstFailing.{IsFirstFailing};
ghost use Rattle.pair_structure.specs.Structure.{OtherStays, IsBefore, IsRising};
ghost use Rattle.pair_structure.specs.inside.StructureCheck.{IsInRange, FollowsArc, KeepsOther, RisesAt, IsLeft};

use crate::arc_table::ArcTable;
use crate::{LocalArc, Move, Side};

/// The first move of which an end is not among so many states.
pub(crate) fn first_out_of_range(count: u64, moves: &[Move]) -> Option<u64>
    ensures { IsFirstFailing (IsInRange count moves.now) (length moves.now) result }
{
    for (n, m) in moves.iter().enumerate() {
        if m.from >= count || m.to >= count {
            return Some(n as u64);
        }
    }
    None
}

/// The first move that follows no arc of its side.
pub(crate) fn first_off_arcs(
    a: &[LocalArc],
    b: &[LocalArc],
    states: &[(u8, u8)],
    moves: &[Move],
) -> Option<u64>
    requires a_in_table { All IsInTable a.now }
    requires b_in_table { All IsInTable b.now }
    requires in_range { (n : ℕ) → n < length moves.now → IsInRange (length states.now) moves.now n }
    ensures { IsFirstFailing (FollowsArc a.now b.now states.now moves.now) (length moves.now) result }
{
    let a_table = ArcTable::of(a);
    let b_table = ArcTable::of(b);
    for (n, m) in moves.iter().enumerate() {
        let from = states[m.from as usize];
        let to = states[m.to as usize];
        let follows = match m.side {
            Side::A => a_table.has(from.0, to.0),
            Side::B => b_table.has(from.1, to.1),
        };
        if !follows {
            return Some(n as u64);
        }
    }
    None
}

/// The first move that changes the local state of the other side.
pub(crate) fn first_moving_other(states: &[(u8, u8)], moves: &[Move]) -> Option<u64>
    requires { (n : ℕ) → n < length moves.now → IsInRange (length states.now) moves.now n }
    ensures { IsFirstFailing (KeepsOther states.now moves.now) (length moves.now) result }
{
    for (n, m) in moves.iter().enumerate() {
        if !other_stays(m.side, states[m.from as usize], states[m.to as usize]) {
            return Some(n as u64);
        }
    }
    None
}

fn other_stays(side: Side, from: (u8, u8), to: (u8, u8)) -> bool
    ensures { IsTrue result ↔ OtherStays side from to }
{
    match side {
        Side::A => from.1 == to.1,
        Side::B => from.0 == to.0,
    }
}

/// The first move that does not come after the one before it.
pub(crate) fn first_not_rising(moves: &[Move]) -> Option<u64>
    ensures { IsFirstFailing (RisesAt moves.now) (length moves.now) result }
{
    for n in 1..moves.len() {
        if !is_before(&moves[n - 1], &moves[n]) {
            return Some(n as u64);
        }
    }
    None
}

fn is_before(x: &Move, y: &Move) -> bool
    ensures { IsTrue result ↔ IsBefore x.now y.now }
{
    x < y
}

/// The first of so many states that no move leaves. One pass, since the moves rise.
pub(crate) fn first_without_move(count: u64, moves: &[Move]) -> Option<u64>
    requires in_range { (n : ℕ) → n < length moves.now → IsInRange count moves.now n }
    requires rising { IsRising moves.now }
    ensures { IsFirstFailing (IsLeft moves.now) count result }
{
    let mut next = 0;
    for m in moves {
        if m.from > next {
            return Some(next);
        }
        if m.from == next {
            next += 1;
        }
    }
    if next < count { Some(next) } else { None }
}
