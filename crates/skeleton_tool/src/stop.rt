use crate::status::Status;
use pair_structure::Memory;
use std::alloc::AllocError;

/// Why a call stops before it comes to its own answer: its text is written, with this status; or memory ran out.
#[derive(Clone, Copy, Debug, PartialEq, Eq)]
pub(crate) enum Stop {
    Answered(Status),
    Memory,
}

impl From<AllocError> for Stop {
    ghost use Rattle.skeleton_tool.specs.declared.stop.Stop.TheVariants.{Memory};
    ghost use Rattle.std.specs.Prelude.{◌≡◌};

    ghost from_gives = { λ _ e. e ≡ Memory };

    fn from(_e: AllocError) -> Stop {
        Stop::Memory
    }
}

impl From<Memory> for Stop {
    ghost use Rattle.skeleton_tool.specs.declared.stop.Stop.TheVariants.{Memory};
    ghost use Rattle.std.specs.Prelude.{◌≡◌};

    ghost from_gives = { λ _ e. e ≡ Memory };

    fn from(_fault: Memory) -> Stop {
        Stop::Memory
    }
}
