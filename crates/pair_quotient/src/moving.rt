ghost use Rattle.std.specs.Prelude.{◌≡◌, ◌⊎◌, ◌+◌, ◌<◌, ◌≤◌, ℕ, length, All, IfOk, IsTrue, OnOk, slice_index, []};
ghost use Rattle.pair_quotient.specs.inside.Moving.{AreAgreed, GoesTo, HaveMoved, StaysIn};
ghost use Rattle.pair_quotient.specs.inside.Refining.{AreListed, AreWaiting, IsAlone, IsSettled};

use crate::blocks::Blocks;
use ctl_form::Predecessors;
use pair_structure::Memory;
use std::alloc::Global;

/// Puts each state into its target, and lists those that change their block.
pub(crate) fn move_states(
    alloc: Global,
    blocks: &mut Blocks,
    states: &[u64],
    targets: &[u64],
) -> Result<Vec<u64>, Memory>
    requires long { length targets.now ≡ length states.now }
    requires states { All (λ s. s < length blocks.old.classes.items) states.now }
    requires targets { All (λ t. t < length blocks.old.members) targets.now }
    requires agreed { AreAgreed states.now targets.now }
    requires lists { HaveMoved (length blocks.old.members) states.now targets.now 0 blocks.old.classes.items blocks.old.classes.items blocks.old.members [] }
    ensures leaders { blocks.new.leaders.items ≡ blocks.old.leaders.items }
    ensures moved { IfOk result (λ moved. HaveMoved (length blocks.old.members) states.now targets.now (length states.now) blocks.old.classes.items blocks.new.classes.items blocks.new.members moved.items) }
{
    let mut moved = Vec::new(alloc);
    for place in 0..states.len() {
        move_state(blocks, states[place], targets[place], &mut moved)?;
    }
    Ok(moved)
}

fn move_state(
    blocks: &mut Blocks,
    state: u64,
    target: u64,
    moved: &mut Vec<u64>,
) -> Result<(), Memory>
    requires state { state < length blocks.old.classes.items }
    requires target { target < length blocks.old.members }
    ensures leaders { blocks.new.leaders.items ≡ blocks.old.leaders.items }
    ensures moves { OnOk result (StaysIn state target blocks.old.classes.items blocks.new.classes.items blocks.old.members blocks.new.members moved.old.items moved.new.items
        ⊎ GoesTo state target blocks.old.classes.items blocks.new.classes.items blocks.old.members blocks.new.members moved.old.items moved.new.items) }
{
    if blocks.classes[state as usize] == target {
        return Ok(());
    }
    blocks.members.push(target, state)?;
    moved.push(state)?;
    blocks.classes[state as usize] = target;
    Ok(())
}

/// Unsettles each state that a move leads from to one of these. A state whose block's list has no other matches its whole block, and may
/// stay settled.
pub(crate) fn unsettle_before(
    predecessors: &Predecessors,
    blocks: &Blocks,
    states: &[u64],
    settled: &mut [bool],
    waiting: &mut Vec<u64>,
) -> Result<(), Memory>
    requires begins { All (λ s. s + 1 < length predecessors.now.begins.items) states.now }
    requires ends { (t : ℕ) → t < length predecessors.now.begins.items → slice_index predecessors.now.begins.items t ≤ length predecessors.now.sources.items }
    requires sources { All (λ t. (k : ℕ) → slice_index predecessors.now.begins.items t ≤ k → k < slice_index predecessors.now.begins.items (t + 1) → slice_index predecessors.now.sources.items k < length settled.old) states.now }
    requires waiting { AreWaiting (length settled.old) settled.old waiting.old.items }
    requires listed { AreListed (length settled.old) blocks.now.classes.items blocks.now.members }
    ensures waiting { OnOk result (AreWaiting (length settled.old) settled.new waiting.new.items) }
    ensures fewer { (s : ℕ) → IsSettled settled.new s → IsSettled settled.old s }
    ensures before { OnOk result (All (λ t. (k : ℕ) → slice_index predecessors.now.begins.items t ≤ k → k < slice_index predecessors.now.begins.items (t + 1) → IsSettled settled.new (slice_index predecessors.now.sources.items k) → IsAlone blocks.now.classes.items (slice_index predecessors.now.sources.items k)) states.now) }
    ensures none { OnOk result (length states.now ≡ 0 → waiting.new.items ≡ waiting.old.items) }
{
    for state in states {
        unsettle_sources(predecessors, blocks, *state, settled, waiting)?;
    }
    Ok(())
}

fn unsettle_sources(
    predecessors: &Predecessors,
    blocks: &Blocks,
    state: u64,
    settled: &mut [bool],
    waiting: &mut Vec<u64>,
) -> Result<(), Memory>
    requires begins { state + 1 < length predecessors.now.begins.items }
    requires ends { (t : ℕ) → t < length predecessors.now.begins.items → slice_index predecessors.now.begins.items t ≤ length predecessors.now.sources.items }
    requires sources { (k : ℕ) → slice_index predecessors.now.begins.items state ≤ k → k < slice_index predecessors.now.begins.items (state + 1) → slice_index predecessors.now.sources.items k < length settled.old }
    requires waiting { AreWaiting (length settled.old) settled.old waiting.old.items }
    requires listed { AreListed (length settled.old) blocks.now.classes.items blocks.now.members }
    ensures waiting { OnOk result (AreWaiting (length settled.old) settled.new waiting.new.items) }
    ensures fewer { (s : ℕ) → IsSettled settled.new s → IsSettled settled.old s }
    ensures before { OnOk result ((k : ℕ) → slice_index predecessors.now.begins.items state ≤ k → k < slice_index predecessors.now.begins.items (state + 1) → IsSettled settled.new (slice_index predecessors.now.sources.items k) → IsAlone blocks.now.classes.items (slice_index predecessors.now.sources.items k)) }
{
    let begin = predecessors.begins[state as usize];
    let end = predecessors.begins[state as usize + 1];
    for place in begin..end {
        unsettle(blocks, settled, waiting, predecessors.sources[place])?;
    }
    Ok(())
}

fn unsettle(
    blocks: &Blocks,
    settled: &mut [bool],
    waiting: &mut Vec<u64>,
    state: u64,
) -> Result<(), Memory>
    requires state { state < length settled.old }
    requires waiting { AreWaiting (length settled.old) settled.old waiting.old.items }
    requires listed { AreListed (length settled.old) blocks.now.classes.items blocks.now.members }
    ensures waiting { OnOk result (AreWaiting (length settled.old) settled.new waiting.new.items) }
    ensures fewer { (s : ℕ) → IsSettled settled.new s → IsSettled settled.old s }
    ensures unsettled { OnOk result (IsSettled settled.new state → IsAlone blocks.now.classes.items state) }
{
    if is_alone(blocks, state) {
        return Ok(());
    }
    wake(settled, waiting, state)?;
    Ok(())
}

/// Lets the state wait, if it does not.
pub(crate) fn wake(settled: &mut [bool], waiting: &mut Vec<u64>, state: u64) -> Result<(), Memory>
    requires state { state < length settled.old }
    requires waiting { AreWaiting (length settled.old) settled.old waiting.old.items }
    ensures waiting { OnOk result (AreWaiting (length settled.old) settled.new waiting.new.items) }
    ensures fewer { (s : ℕ) → IsSettled settled.new s → IsSettled settled.old s }
    ensures unsettled { OnOk result (IsSettled settled.new state → ⊥) }
    ensures more { length waiting.old.items ≤ length waiting.new.items }
{
    if !settled[state as usize] {
        return Ok(());
    }
    waiting.push(state)?;
    settled[state as usize] = false;
    Ok(())
}

fn is_alone(blocks: &Blocks, state: u64) -> bool
    requires state { state < length blocks.now.classes.items }
    requires listed { AreListed (length blocks.now.classes.items) blocks.now.classes.items blocks.now.members }
    ensures { IsTrue result → IsAlone blocks.now.classes.items state }
{
    let block = blocks.classes[state as usize];
    blocks.members.list(block).len() == 1
}

/// Settles each of the states.
pub(crate) fn settle(settled: &mut [bool], states: &[u64])
    requires { All (λ s. s < length settled.old) states.now }
    ensures more { (s : ℕ) → IsSettled settled.old s → IsSettled settled.new s }
    ensures each { All (IsSettled settled.new) states.now }
{
    for state in states {
        settled[*state as usize] = true;
    }
}
