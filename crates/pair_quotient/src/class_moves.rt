ghost use Rattle.std.specs.Prelude.{◌≡◌, ◌++◌, ◌↔◌, ◌<◌, ℕ, length, All, Contains, IfOk, OnOk, map};
ghost use Rattle.pair_structure.specs.declared.side.Side.{Side};
ghost use Rattle.pair_structure.specs.Structure.{GoesOn, IsRising};
ghost use Rattle.pair_quotient.specs.inside.ClassMoves.{class_move, IsKey, JoinsBelow};
ghost use Rattle.pair_quotient.specs.Quotient.{SomeMemberMoves};

use pair_structure::{Memory, Move, PairStructure, Side, arrange};
use std::alloc::Global;

/// The moves between classes that the moves of all states make, each once. Moves times their logarithm.
pub(crate) fn class_moves(
    alloc: Global,
    m: &PairStructure,
    classes: &[u64],
) -> Result<Vec<Move>, Memory>
    requires goes_on { GoesOn m.now }
    requires long { length classes.now ≡ length m.now.states }
    ensures rising { IfOk result (λ moves. IsRising moves.items) }
    ensures made { IfOk result (λ moves. (side : Side) (c d : ℕ) → Contains moves.items (record { from = c; side = side; to = d }) ↔ SomeMemberMoves m.now classes.now side c d) }
{
    let mut moves = Vec::with_capacity(alloc, m.moves().len())?;
    push_class_moves(m.moves(), classes, &mut moves)?;
    arrange(&mut moves);
    Ok(moves)
}

/// What a state can do, as far as the classes tell: the moves between classes that its own moves make, each once.
pub(crate) fn key_of(
    alloc: Global,
    m: &PairStructure,
    classes: &[u64],
    state: u64,
) -> Result<Vec<Move>, Memory>
    requires goes_on { GoesOn m.now }
    requires long { length classes.now ≡ length m.now.states }
    requires state { state < length m.now.states }
    ensures { IfOk result (λ key. IsKey m.now classes.now state key.items) }
{
    let mut key = Vec::new(alloc);
    push_class_moves(m.moves_of(state, Side::A), classes, &mut key)?;
    push_class_moves(m.moves_of(state, Side::B), classes, &mut key)?;
    arrange(&mut key);
    Ok(key)
}

fn push_class_moves(moves: &[Move], classes: &[u64], into: &mut Vec<Move>) -> Result<(), Memory>
    requires { All (JoinsBelow (length classes.now)) moves.now }
    ensures { OnOk result (into.new.items ≡ into.old.items ++ map (class_move classes.now) moves.now) }
{
    for step in moves {
        into.push(class_move(*step, classes))?;
    }
    Ok(())
}

fn class_move(step: Move, classes: &[u64]) -> Move
    requires { JoinsBelow (length classes.now) step }
    ensures { result ≡ class_move classes.now step }
{
    Move {
        from: classes[step.from as usize],
        side: step.side,
        to: classes[step.to as usize],
    }
}
