ghost use Rattle.std.specs.Prelude.{◌≡◌, ◌<◌, ℕ, length, All, Contains, IfOk, OnOk, MatchOption, Some, slice_index, ◌↔◌, ◌⊎◌};
ghost use Rattle.pair_structure.specs.Structure.{GoesOn};
ghost use Rattle.pair_quotient.specs.inside.Refining.{AreBlocks, IsElected, IsMemberIfAny, IsSettled};

use crate::blocks::Blocks;
use crate::class_moves::key_of;
use pair_structure::{Memory, Move, PairStructure};
use std::alloc::Global;

/// The blocks of these states, each once.
pub(crate) fn blocks_of(alloc: Global, classes: &[u64], states: &[u64]) -> Result<Vec<u64>, Memory>
    requires { All (λ s. s < length classes.now) states.now }
    ensures { IfOk result (λ blocks. (b : ℕ) → Contains blocks.items b ↔ ((s : ℕ) × Contains states.now s × (slice_index classes.now s ≡ b))) }
{
    let mut blocks = Vec::with_capacity(alloc, states.len())?;
    for state in states {
        blocks.push(classes[*state as usize])?;
    }
    blocks.sort_unstable();
    blocks.dedup();
    Ok(blocks)
}

/// Gives each of these blocks a leader that is settled, if a state of it is; and else one that can do what most states of it can.
pub(crate) fn elect_each(
    alloc: Global,
    m: &PairStructure,
    blocks: &mut Blocks,
    settled: &[bool],
    touched: &[u64],
) -> Result<(), Memory>
    requires goes_on { GoesOn m.now }
    requires states { length settled.now ≡ length m.now.states }
    requires blocks { AreBlocks (length settled.now) blocks.old.classes.items blocks.old.leaders.items blocks.old.members }
    requires touched { All (λ b. b < length blocks.old.leaders.items) touched.now }
    ensures blocks { AreBlocks (length settled.now) blocks.new.classes.items blocks.new.leaders.items blocks.new.members }
    ensures classes { blocks.new.classes.items ≡ blocks.old.classes.items }
    ensures members { blocks.new.members ≡ blocks.old.members }
    ensures count { length blocks.new.leaders.items ≡ length blocks.old.leaders.items }
    ensures elected { OnOk result (All (IsElected (length settled.now) blocks.new.classes.items blocks.new.leaders.items settled.now) touched.now) }
{
    for block in touched {
        elect(alloc, m, blocks, settled, *block)?;
    }
    Ok(())
}

fn elect(
    alloc: Global,
    m: &PairStructure,
    blocks: &mut Blocks,
    settled: &[bool],
    block: u64,
) -> Result<(), Memory>
    requires goes_on { GoesOn m.now }
    requires states { length settled.now ≡ length m.now.states }
    requires blocks { AreBlocks (length settled.now) blocks.old.classes.items blocks.old.leaders.items blocks.old.members }
    requires block { block < length blocks.old.leaders.items }
    ensures blocks { AreBlocks (length settled.now) blocks.new.classes.items blocks.new.leaders.items blocks.new.members }
    ensures classes { blocks.new.classes.items ≡ blocks.old.classes.items }
    ensures members { blocks.new.members ≡ blocks.old.members }
    ensures count { length blocks.new.leaders.items ≡ length blocks.old.leaders.items }
    ensures others { (b : ℕ) → (b ≡ block → ⊥) → slice_index blocks.new.leaders.items b ≡ slice_index blocks.old.leaders.items b }
    ensures elected { OnOk result (IsElected (length settled.now) blocks.new.classes.items blocks.new.leaders.items settled.now block) }
{
    if settled[blocks.leaders[block as usize] as usize] {
        return Ok(());
    }
    if let Some(state) = settled_member(
        blocks.members.list(block),
        &blocks.classes,
        settled,
        block,
    ) {
        blocks.leaders[block as usize] = state;
        return Ok(());
    }
    let most = frequent_member(alloc, m, blocks.members.list(block), &blocks.classes, block)?;
    if let Some(state) = most {
        blocks.leaders[block as usize] = state;
    }
    Ok(())
}

/// A state of the block, among these, that has the key of more than half of them, if one has; else any. A vote of one is not held.
fn frequent_member(
    alloc: Global,
    m: &PairStructure,
    states: &[u64],
    classes: &[u64],
    block: u64,
) -> Result<Option<u64>, Memory>
    requires goes_on { GoesOn m.now }
    requires long { length classes.now ≡ length m.now.states }
    requires states { All (λ s. s < length m.now.states) states.now }
    ensures { IfOk result (IsMemberIfAny (length m.now.states) classes.now block) }
{
    if states.len() < 2 {
        return Ok(None);
    }
    let mut vote = Vote {
        state: None,
        key: Vec::new(alloc),
        lead: 0,
    };
    for state in states {
        if classes[*state as usize] == block {
            let key = key_of(alloc, m, classes, *state)?;
            vote.count(*state, key);
        }
    }
    Ok(vote.state)
}

/// The state whose key leads in a vote, and by how much.
#[derive(Debug, Drop)]
struct Vote {
    state: Option<u64>,
    key: Vec<Move>,
    lead: u64,
}

impl Vote {
    /// A voice for this key is one against the other that leads (Boyer and Moore 1981).
    fn count(&mut self, state: u64, key: Vec<Move>)
        ensures { (self.new.state ≡ self.old.state) ⊎ (self.new.state ≡ Some state) }
    {
        if self.lead == 0 {
            self.state = Some(state);
            self.key = key;
            self.lead = 1;
            return;
        }
        if self.key.as_slice() == key.as_slice() {
            self.lead = self.lead.saturating_add(1);
        } else {
            self.lead = self.lead.saturating_sub(1);
        }
    }
}

/// A settled state of the block, among these; the last, since those that left are mostly the first.
fn settled_member(states: &[u64], classes: &[u64], settled: &[bool], block: u64) -> Option<u64>
    requires long { length classes.now ≡ length settled.now }
    requires states { All (λ s. s < length settled.now) states.now }
    ensures { MatchOption result ((s : ℕ) → Contains states.now s → slice_index classes.now s ≡ block → IsSettled settled.now s → ⊥)
        (λ s. (s < length settled.now) × (slice_index classes.now s ≡ block) × IsSettled settled.now s) }
{
    let mut place = states.len();
    while place > 0 {
        place -= 1;
        let state = states[place];
        if classes[state as usize] == block && settled[state as usize] {
            return Some(state);
        }
    }
    None
}
