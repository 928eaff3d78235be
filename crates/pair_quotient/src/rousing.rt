ghost use Rattle.std.specs.Prelude.{◌<◌, ◌≤◌, ℕ, length, All, IfOk, OnOk};
ghost use Rattle.pair_quotient.specs.inside.Refining.{AreBlocks, AreWaiting, IsSettled};

use crate::blocks::Blocks;
use crate::moving::wake;
use pair_structure::Memory;
use std::alloc::Global;

/// Where more than half of a block waits, lets all of it wait: then the states that leave it are, by one key, at most half of it.
pub(crate) fn rouse(
    alloc: Global,
    blocks: &Blocks,
    settled: &mut [bool],
    waiting: &mut Vec<u64>,
) -> Result<(), Memory>
    requires blocks { AreBlocks (length settled.old) blocks.now.classes.items blocks.now.leaders.items blocks.now.members }
    requires waiting { AreWaiting (length settled.old) settled.old waiting.old.items }
    ensures waiting { OnOk result (AreWaiting (length settled.old) settled.new waiting.new.items) }
    ensures fewer { (s : ℕ) → IsSettled settled.new s → IsSettled settled.old s }
    ensures more { length waiting.old.items ≤ length waiting.new.items }
{
    let crowded = crowded_blocks(alloc, blocks, waiting)?;
    for block in &crowded {
        rouse_block(blocks, *block, settled, waiting)?;
    }
    Ok(())
}

/// The blocks of which more than half waits, as far as their lists tell, each once.
fn crowded_blocks(alloc: Global, blocks: &Blocks, waiting: &[u64]) -> Result<Vec<u64>, Memory>
    requires blocks { AreBlocks (length blocks.now.classes.items) blocks.now.classes.items blocks.now.leaders.items blocks.now.members }
    requires waiting { All (λ s. s < length blocks.now.classes.items) waiting.now }
    ensures { IfOk result (λ crowded. All (λ b. b < length blocks.now.members) crowded.items) }
{
    let mut each = blocks_of_each(alloc, blocks, waiting)?;
    each.sort_unstable();
    let mut crowded = Vec::new(alloc);
    let mut first = 0;
    for place in 0..each.len() {
        let block = each[place];
        if each[first] != block {
            first = place;
        }
        if place - first == blocks.members.list(block).len() / 2 {
            crowded.push(block)?;
        }
    }
    Ok(crowded)
}

/// The block of each of the states.
fn blocks_of_each(alloc: Global, blocks: &Blocks, states: &[u64]) -> Result<Vec<u64>, Memory>
    requires blocks { AreBlocks (length blocks.now.classes.items) blocks.now.classes.items blocks.now.leaders.items blocks.now.members }
    requires states { All (λ s. s < length blocks.now.classes.items) states.now }
    ensures { IfOk result (λ each. All (λ b. b < length blocks.now.members) each.items) }
{
    let mut each = Vec::with_capacity(alloc, states.len())?;
    for state in states {
        each.push(blocks.classes[*state as usize])?;
    }
    Ok(each)
}

/// Lets each state of the block wait.
fn rouse_block(
    blocks: &Blocks,
    block: u64,
    settled: &mut [bool],
    waiting: &mut Vec<u64>,
) -> Result<(), Memory>
    requires blocks { AreBlocks (length settled.old) blocks.now.classes.items blocks.now.leaders.items blocks.now.members }
    requires block { block < length blocks.now.members }
    requires waiting { AreWaiting (length settled.old) settled.old waiting.old.items }
    ensures waiting { OnOk result (AreWaiting (length settled.old) settled.new waiting.new.items) }
    ensures fewer { (s : ℕ) → IsSettled settled.new s → IsSettled settled.old s }
    ensures more { length waiting.old.items ≤ length waiting.new.items }
{
    for state in blocks.members.list(block) {
        if blocks.classes[*state as usize] == block {
            wake(settled, waiting, *state)?;
        }
    }
    Ok(())
}
