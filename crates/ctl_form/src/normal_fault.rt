ghost use Rattle.std.specs.Prelude.{◌≡◌};
ghost use Rattle.ctl_form.specs.declared.normal_fault.NormalFault.TheVariants.{Memory};

use pair_structure::Memory;
use std::alloc::{AllocError, AllocFailed};
use thiserror::Error;

/// Why formulas have no numbered closure.
#[derive(Clone, Copy, Debug, PartialEq, Eq, Error)]
pub enum NormalFault {
    /// Their closure has more than `MAX_MEMBERS` members.
    #[error("the closure has more than 512 members")]
    Over,
    /// Want of memory.
    #[error("out of memory")]
    Memory,
}

impl From<Memory> for NormalFault {
    ghost from_gives = { λ _ e. e ≡ Memory };

    fn from(_fault: Memory) -> NormalFault {
        NormalFault::Memory
    }
}

impl From<AllocError> for NormalFault {
    ghost from_gives = { λ _ e. e ≡ Memory };

    fn from(_fault: AllocError) -> NormalFault {
        NormalFault::Memory
    }
}

impl<T: Drop> From<AllocFailed<T>> for NormalFault {
    ghost from_gives = { λ _ e. e ≡ Memory };

    fn from(_fault: AllocFailed<T>) -> NormalFault {
        NormalFault::Memory
    }
}
