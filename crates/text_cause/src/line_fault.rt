use crate::cause::TextCause;
use pair_structure::Memory;
use std::alloc::AllocError;

/// Why a line is not taken.
#[derive(Clone, Copy, Debug, PartialEq, Eq)]
pub enum LineFault {
    /// Something stands against it: the lowest cause.
    Bad(TextCause),
    /// Memory ran out.
    Memory,
}

impl From<AllocError> for LineFault {
    ghost use Rattle.text_cause.specs.declared.line_fault.LineFault.TheVariants.{Memory};
    ghost use Rattle.std.specs.Prelude.{◌≡◌};

    ghost from_gives = { λ _ e. e ≡ Memory };

    fn from(_fault: AllocError) -> LineFault {
        LineFault::Memory
    }
}

impl From<Memory> for LineFault {
    ghost use Rattle.text_cause.specs.declared.line_fault.LineFault.TheVariants.{Memory};
    ghost use Rattle.std.specs.Prelude.{◌≡◌};

    ghost from_gives = { λ _ e. e ≡ Memory };

    fn from(_fault: Memory) -> LineFault {
        LineFault::Memory
    }
}
