ghost use Rattle.skeleton_extract.specs.Laws.{CommandMoves, MovesBack, OnePairState};

/// A label and an ordinal belong to one state at most.
pub fn one_pair_state()
    ensures { OnePairState }
{}

/// A command that is permitted at a pair state is a move from it, to the pair state with the value that is set.
pub fn command_moves()
    ensures { CommandMoves }
{}

/// The moves can be got back from the commands.
pub fn moves_back()
    ensures { MovesBack }
{}
