ghost use Rattle.std.specs.Prelude.{◌≡◌, ◌≢◌, ◌<◌, ℕ, length, IfOk, OnOk, slice_index};
ghost use Rattle.pair_quotient.specs.inside.Numbering.{AreFirsts, IsNumberedNext, IsNumbering};

use pair_structure::Memory;
use std::alloc::Global;

/// The class of each state, and the lowest member of each class. Classes are numbered in the order of their lowest members.
#[derive(Debug, Drop)]
pub(crate) struct Numbering {
    pub(crate) classes: Vec<u64>,
    pub(crate) lowest: Vec<u64>,
}

/// Numbers anew the blocks of a partition, of which there are so many. Linear in states.
pub(crate) fn number_blocks(
    alloc: Global,
    blocks: &[u64],
    count: usize,
) -> Result<Numbering, Memory>
    requires { (s : ℕ) → s < length blocks.now → slice_index blocks.now s < count }
    ensures { IfOk result (λ n. IsNumbering blocks.now n.classes.items n.lowest.items) }
{
    let firsts = first_members(alloc, blocks, count)?;
    let mut classes = Vec::with_capacity(alloc, blocks.len())?;
    let mut lowest = Vec::new(alloc);
    for state in 0..blocks.len() {
        let first = firsts[blocks[state] as usize];
        number_state(state as u64, first, &mut classes, &mut lowest)?;
    }
    Ok(Numbering { classes, lowest })
}

/// The lowest member of each block that has one.
fn first_members(alloc: Global, blocks: &[u64], count: usize) -> Result<Vec<u64>, Memory>
    requires { (s : ℕ) → s < length blocks.now → slice_index blocks.now s < count }
    ensures { IfOk result (λ firsts. AreFirsts blocks.now count 0 firsts.items) }
{
    let mut firsts = vec![in alloc; 0u64; count]?;
    let mut state = blocks.len();
    while state > 0 {
        state -= 1;
        firsts[blocks[state] as usize] = state as u64;
    }
    Ok(firsts)
}

/// Gives the next state a new class, if it is the first of its block, and else that of the first.
fn number_state(
    state: u64,
    first: u64,
    classes: &mut Vec<u64>,
    lowest: &mut Vec<u64>,
) -> Result<(), Memory>
    requires { first ≢ state → first < length classes.old.items }
    ensures { OnOk result (IsNumberedNext state first classes.old.items lowest.old.items classes.new.items lowest.new.items) }
{
    if first == state {
        classes.push(lowest.len() as u64)?;
        lowest.push(state)?;
        return Ok(());
    }
    let class: u64 = classes[first as usize];
    classes.push(class)?;
    Ok(())
}
