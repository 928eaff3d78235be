ghost use Rattle.std.specs.Prelude.{IfOk};
ghost use Rattle.pair_quotient.specs.Quotient.{IsShrinking};

use crate::quotient::quotient;
use crate::refining::stable_blocks;
use pair_structure::{Memory, PairStructure};
use std::alloc::Global;

/// The quotient by bisimulation: one state for each class, numbered by its lowest member.
pub fn shrink(alloc: Global, m: &PairStructure) -> Result<PairStructure, Memory>
    ensures { IfOk result (IsShrinking m.now) }
{
    let blocks = stable_blocks(alloc, m)?;
    let q = quotient(alloc, m, &blocks.classes, blocks.leaders.len())?;
    Ok(q)
}
