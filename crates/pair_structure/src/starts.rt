ghost use Rattle.std.specs.Prelude.{◌≡◌, IfOk};
ghost use Rattle.pair_structure.specs.inside.Starts.{starts_of};

use crate::Memory;
use std::alloc::Global;

/// The starts of a role. A single one stands in place, so that it takes no memory.
#[derive(Debug, Drop)]
pub(crate) enum Starts {
    One([u8; 1]),
    Several(Vec<u8>),
}

impl Starts {
    pub(crate) fn as_slice(&self) -> &[u8]
        ensures { result.now ≡ starts_of self.now }
    {
        match self {
            Starts::One(start) => start,
            Starts::Several(starts) => starts,
        }
    }

    /// The same starts.
    pub(crate) fn copy(&self, alloc: Global) -> Result<Starts, Memory>
        ensures { IfOk result (λ s. starts_of s ≡ starts_of self.now) }
    {
        match self {
            Starts::One(start) => Ok(Starts::One(*start)),
            Starts::Several(starts) => Ok(Starts::Several(Vec::from_slice(alloc, starts)?)),
        }
    }
}
