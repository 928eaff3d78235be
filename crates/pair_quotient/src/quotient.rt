ghost use Rattle.std.specs.Prelude.{◌≡◌, ◌<◌, ℕ, List, length, All, IfOk, map, slice_index};
ghost use Rattle.pair_structure.specs.Structure.{GoesOn, IsRising, label_at};
ghost use Rattle.pair_quotient.specs.inside.Numbering.{IsNumbering};
ghost use Rattle.pair_quotient.specs.inside.Partition.{IsStable};
ghost use Rattle.pair_quotient.specs.Quotient.{IsQuotient};

use crate::class_moves::class_moves;
use crate::numbering::number_blocks;
use pair_structure::{Memory, PairStructure};
use std::alloc::Global;

/// The structure whose states are the blocks of a stable partition, numbered by their lowest members.
pub(crate) fn quotient(
    alloc: Global,
    m: &PairStructure,
    blocks: &[u64],
    count: usize,
) -> Result<PairStructure, Memory>
    requires stable { IsStable m.now blocks.now }
    requires within { (s : ℕ) → s < length blocks.now → slice_index blocks.now s < count }
    ensures quotient { IfOk result (λ q. (classes : List ℕ) × IsQuotient m.now classes q) }
    ensures goes_on { IfOk result (λ q. GoesOn m.now × GoesOn q × IsRising q.moves) }
{
    let numbering = number_blocks(alloc, blocks, count)?;
    let states = class_labels(alloc, m.states(), &numbering.lowest)?;
    let moves = class_moves(alloc, m, &numbering.classes)?;
    let q = PairStructure::of(alloc, &states, &moves)?;
    Ok(q)
}

fn class_labels(alloc: Global, labels: &[(u8, u8)], lowest: &[u64]) -> Result<Vec<(u8, u8)>, Memory>
    requires { All (λ s. s < length labels.now) lowest.now }
    ensures { IfOk result (λ states. states.items ≡ map (label_at labels.now) lowest.now) }
{
    let mut states = Vec::with_capacity(alloc, lowest.len())?;
    for state in lowest {
        states.push(labels[*state as usize])?;
    }
    Ok(states)
}
