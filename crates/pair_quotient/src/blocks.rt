ghost use Rattle.std.specs.Prelude.{◌≡◌, ◌<◌, ◌≤◌, ◌↔◌, ◌++◌, ◌∷◌, [], ℕ, length, IfOk, OnOk, slice_index, slice_index_or};
ghost use Rattle.pair_structure.specs.Structure.{label_at};
ghost use Rattle.pair_quotient.specs.inside.Labelling.{IsLabelPut, IsListedToo};
ghost use Rattle.pair_quotient.specs.inside.Refining.{AreBlocks};
ghost use Rattle.pair_quotient.specs.inside.Splitting.{IsLeading};

use crate::members::Members;
use crate::naming::lead;
use pair_structure::Memory;
use std::alloc::Global;
use std::collections::BTreeMap;

/// Blocks by labels.
type Labels = BTreeMap<(u8, u8), u64>;

/// A partition of states into blocks: the block of each state, and of each block a leader, which is a state that stays in it, and a list
/// that has its states, and perhaps some that have left it.
#[derive(Debug, Drop)]
pub(crate) struct Blocks {
    pub(crate) classes: Vec<u64>,
    pub(crate) leaders: Vec<u64>,
    pub(crate) members: Members,
}

impl Blocks {
    /// One block for each label.
    pub(crate) fn by_label(alloc: Global, labels: &[(u8, u8)]) -> Result<Blocks, Memory>
        ensures blocks { IfOk result (λ b. AreBlocks (length labels.now) b.classes.items b.leaders.items b.members) }
        ensures same { IfOk result (λ b. (s t : ℕ) → s < length labels.now → t < length labels.now → slice_index b.classes.items s ≡ slice_index b.classes.items t ↔ label_at labels.now s ≡ label_at labels.now t) }
    {
        let mut numbers: Labels = BTreeMap::new(alloc);
        let mut blocks = Blocks {
            classes: Vec::with_capacity(alloc, labels.len())?,
            leaders: Vec::new(alloc),
            members: Members::new(alloc),
        };
        for (state, label) in labels.iter().enumerate() {
            let next = blocks.leaders.len() as u64;
            let block = label_block(&mut numbers, *label, next)?;
            blocks.add(alloc, block, state as u64)?;
        }
        Ok(blocks)
    }

    /// Puts one more state into the block, which it leads if it is a new one.
    fn add(&mut self, alloc: Global, block: u64, state: u64) -> Result<(), Memory>
        requires block { block ≤ length self.old.leaders.items }
        requires lists { length self.old.members ≡ length self.old.leaders.items }
        ensures classes { OnOk result (self.new.classes.items ≡ self.old.classes.items ++ block ∷ []) }
        ensures leading { OnOk result (IsLeading block state self.old.leaders.items self.new.leaders.items) }
        ensures lists { OnOk result (length self.new.members ≡ length self.new.leaders.items) }
        ensures listed { OnOk result (IsListedToo block state self.old.members self.new.members) }
    {
        lead(&mut self.leaders, block, state)?;
        self.open_lists(alloc)?;
        self.members.push(block, state)?;
        self.classes.push(block)?;
        Ok(())
    }

    /// A list for each block that has none yet.
    pub(crate) fn open_lists(&mut self, alloc: Global) -> Result<(), Memory>
        requires { length self.old.members ≤ length self.old.leaders.items }
        ensures classes { self.new.classes.items ≡ self.old.classes.items }
        ensures leaders { self.new.leaders.items ≡ self.old.leaders.items }
        ensures lists { OnOk result (length self.new.members ≡ length self.new.leaders.items) }
        ensures same { OnOk result ((b : ℕ) → slice_index_or self.new.members b [] ≡ slice_index_or self.old.members b []) }
    {
        while self.members.len() < self.leaders.len() {
            self.members.open(alloc)?;
        }
        Ok(())
    }
}

/// The block of the label, which gets the next one if it has none.
fn label_block(numbers: &mut Labels, label: (u8, u8), next: u64) -> Result<u64, Memory>
    ensures { IfOk result (IsLabelPut numbers.old label next numbers.new) }
{
    if let Some(block) = numbers.get(&label) {
        return Ok(*block);
    }
    match numbers.insert(label, next) {
        Ok(_) => Ok(next),
        Err(_) => Err(Memory),
    }
}
