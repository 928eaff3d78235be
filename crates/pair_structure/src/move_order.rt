ghost use Rattle.std.specs.Prelude.{◌↔◌, Contains};
ghost use Rattle.pair_structure.specs.declared.side.Move.{Move};
ghost use Rattle.pair_structure.specs.Structure.{IsRising};

use crate::Move;

/// Puts moves in the order that a structure wants, and drops those that stand twice. Takes no memory; moves times their logarithm.
pub fn arrange(moves: &mut Vec<Move>)
    ensures rising { IsRising moves.new.items }
    ensures same { (move : Move) → Contains moves.new.items move ↔ Contains moves.old.items move }
{
    moves.sort_unstable();
    moves.dedup();
}
