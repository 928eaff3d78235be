//! Two pair structures of philosophers: of two that try, the one that came first goes, or the one that came last.
ghost use Rattle.std.specs.Prelude.{◌≡◌, ◌∷◌, [], IfOk};
ghost use Rattle.pair_structure.specs.Structure.{IsOver};
ghost use Rattle.big_system.specs.Philosophers.{by_a, by_b, first_goes, last_goes, pair_states};

use crate::philosopher::{CRITICAL, NONCRITICAL, TRYING};
use pair_structure::{Memory, Move, PairStructure, Role, Side};
use std::alloc::Global;

const STATES: [(u8, u8); 9] = [
    (NONCRITICAL, NONCRITICAL),
    (TRYING, NONCRITICAL),
    (NONCRITICAL, TRYING),
    (CRITICAL, NONCRITICAL),
    (TRYING, TRYING),
    (TRYING, TRYING),
    (NONCRITICAL, CRITICAL),
    (CRITICAL, TRYING),
    (TRYING, CRITICAL),
];

/// The structure in which the one that came first goes.
pub(crate) fn first_goes(alloc: Global, role: &Role) -> Result<PairStructure, Memory>
    ensures structure { IfOk result (λ m. m ≡ first_goes) }
    ensures over { IfOk result (IsOver role.now role.now) }
{
    let moves = [
        by_a(0, 1),
        by_b(0, 2),
        by_a(1, 3),
        by_b(1, 4),
        by_a(2, 5),
        by_b(2, 6),
        by_a(3, 0),
        by_b(3, 7),
        by_a(4, 7),
        by_b(5, 8),
        by_a(6, 8),
        by_b(6, 0),
        by_a(7, 2),
        by_b(8, 1),
    ];
    structure(alloc, role, &moves)
}

/// The structure in which the one that came last goes.
pub(crate) fn last_goes(alloc: Global, role: &Role) -> Result<PairStructure, Memory>
    ensures structure { IfOk result (λ m. m ≡ last_goes) }
    ensures over { IfOk result (IsOver role.now role.now) }
{
    let moves = [
        by_a(0, 1),
        by_b(0, 2),
        by_a(1, 3),
        by_b(1, 4),
        by_a(2, 5),
        by_b(2, 6),
        by_a(3, 0),
        by_b(3, 7),
        by_b(4, 8),
        by_a(5, 7),
        by_a(6, 8),
        by_b(6, 0),
        by_a(7, 2),
        by_b(8, 1),
    ];
    structure(alloc, role, &moves)
}

/// The structure of pairs of this role with these moves.
fn structure(alloc: Global, role: &Role, moves: &[Move]) -> Result<PairStructure, Memory>
    ensures structure { IfOk result (λ m. m ≡ record { states = pair_states; moves = moves.now }) }
    ensures over { IfOk result (IsOver role.now role.now) }
{
    match PairStructure::make(alloc, role, role, &STATES, moves) {
        Ok(m) => Ok(m),
        Err(_) => Err(Memory),
    }
}

fn by_a(from: u64, to: u64) -> Move
    ensures { result ≡ by_a from to }
{
    Move {
        from,
        side: Side::A,
        to,
    }
}

fn by_b(from: u64, to: u64) -> Move
    ensures { result ≡ by_b from to }
{
    Move {
        from,
        side: Side::B,
        to,
    }
}
