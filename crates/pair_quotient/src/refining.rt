ghost use Rattle.std.specs.Prelude.{◌≡◌, ◌⊎◌, ◌<◌, ◌≤◌, ℕ, [], false, length, replicate, All, Contains, IfOk, slice_index};
ghost use Rattle.pair_structure.specs.Structure.{GoesOn};
ghost use Rattle.pair_quotient.specs.inside.Partition.{IsStable};
ghost use Rattle.ctl_form.specs.Predecessors.{ArePredecessors};
ghost use Rattle.pair_quotient.specs.inside.Refining.{AreRefined};

use crate::blocks::Blocks;
use crate::electing::{blocks_of, elect_each};
use crate::moving::{move_states, settle, unsettle_before};
use crate::naming::{name_leaders, name_states};
use crate::rousing::rouse;
use ctl_form::Predecessors;
use pair_structure::{Memory, PairStructure};
use std::alloc::Global;

/// The coarsest stable partition. A state is looked at again only where a state that it reaches by a move has changed its block, and of a
/// block the part that has its leader keeps the number.
pub(crate) fn stable_blocks(alloc: Global, m: &PairStructure) -> Result<Blocks, Memory>
    ensures stable { IfOk result (λ b. IsStable m.now b.classes.items) }
    ensures within { IfOk result (λ b. (s : ℕ) → s < length b.classes.items → slice_index b.classes.items s < length b.leaders.items) }
{
    let predecessors = Predecessors::of(alloc, m)?;
    let states = m.states();
    let mut blocks = Blocks::by_label(alloc, states)?;
    let mut settled = unsettled(alloc, states.len())?;
    let mut waiting = all_states(alloc, states.len())?;
    while !waiting.is_empty() {
        waiting = pass(
            alloc,
            m,
            &predecessors,
            &mut blocks,
            &mut settled,
            &mut waiting,
        )?;
    }
    Ok(blocks)
}

fn unsettled(alloc: Global, count: usize) -> Result<Vec<bool>, Memory>
    ensures { IfOk result (λ settled. settled.items ≡ replicate count false) }
{
    Ok(vec![in alloc; false; count]?)
}

fn all_states(alloc: Global, count: usize) -> Result<Vec<u64>, Memory>
    ensures within { IfOk result (λ states. All (λ s. s < count) states.items) }
    ensures each { IfOk result (λ states. (s : ℕ) → s < count → Contains states.items s) }
{
    let mut states = Vec::with_capacity(alloc, count)?;
    for state in 0..count {
        states.push(state as u64)?;
    }
    Ok(states)
}

/// One round: those who wait, and whom they rouse, are looked at.
fn pass(
    alloc: Global,
    m: &PairStructure,
    predecessors: &Predecessors,
    blocks: &mut Blocks,
    settled: &mut [bool],
    waiting: &mut Vec<u64>,
) -> Result<Vec<u64>, Memory>
    requires goes_on { GoesOn m.now }
    requires predecessors { ArePredecessors m.now predecessors.now.begins.items predecessors.now.sources.items }
    requires refined { AreRefined m.now blocks.old.classes.items blocks.old.leaders.items blocks.old.members settled.old waiting.old.items }
    ensures refined { IfOk result (λ next. AreRefined m.now blocks.new.classes.items blocks.new.leaders.items blocks.new.members settled.new next.items) }
    ensures more { IfOk result (λ next. length blocks.old.leaders.items ≤ length blocks.new.leaders.items) }
    ensures progress { IfOk result (λ next. (next.items ≡ []) ⊎ (length blocks.old.leaders.items < length blocks.new.leaders.items)) }
{
    rouse(alloc, blocks, settled, waiting)?;
    let next = refine(alloc, m, predecessors, blocks, settled, waiting)?;
    Ok(next)
}

/// Looks at each waiting state, and moves those that no longer match the leader of their block; gives the states that are to be looked at
/// next.
fn refine(
    alloc: Global,
    m: &PairStructure,
    predecessors: &Predecessors,
    blocks: &mut Blocks,
    settled: &mut [bool],
    waiting: &[u64],
) -> Result<Vec<u64>, Memory>
    requires goes_on { GoesOn m.now }
    requires predecessors { ArePredecessors m.now predecessors.now.begins.items predecessors.now.sources.items }
    requires refined { AreRefined m.now blocks.old.classes.items blocks.old.leaders.items blocks.old.members settled.old waiting.now }
    ensures refined { IfOk result (λ next. AreRefined m.now blocks.new.classes.items blocks.new.leaders.items blocks.new.members settled.new next.items) }
    ensures more { IfOk result (λ next. length blocks.old.leaders.items ≤ length blocks.new.leaders.items) }
    ensures progress { IfOk result (λ next. (next.items ≡ []) ⊎ (length blocks.old.leaders.items < length blocks.new.leaders.items)) }
{
    let touched = blocks_of(alloc, &blocks.classes, waiting)?;
    elect_each(alloc, m, blocks, settled, &touched)?;
    let mut names = name_leaders(alloc, m, &blocks.classes, &blocks.leaders, &touched)?;
    let targets = name_states(
        alloc,
        m,
        &blocks.classes,
        &mut blocks.leaders,
        &mut names,
        waiting,
    )?;
    blocks.open_lists(alloc)?;
    let moved = move_states(alloc, blocks, waiting, &targets)?;
    settle(settled, waiting);
    let mut next = Vec::new(alloc);
    unsettle_before(predecessors, blocks, &moved, settled, &mut next)?;
    Ok(next)
}
