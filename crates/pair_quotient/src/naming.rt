ghost use Rattle.std.specs.Prelude.{◌≡◌, ◌<◌, length, All, IfOk, OnOk, slice_index};
ghost use Rattle.pair_structure.specs.Structure.{GoesOn};
ghost use Rattle.pair_quotient.specs.inside.Naming.{AreNames, IsNamed, IsNameOf};
ghost use Rattle.pair_quotient.specs.inside.Splitting.{AreLed, AreTargets, IsLeading};

use crate::class_moves::key_of;
use pair_structure::{Memory, Move, PairStructure};
use std::alloc::Global;
use std::collections::BTreeMap;

/// Blocks by keys: where a state with that key belongs.
pub(crate) type Names = BTreeMap<Vec<Move>, u64>;

/// The names of the keys of these blocks' leaders: each block is that of its leader.
pub(crate) fn name_leaders(
    alloc: Global,
    m: &PairStructure,
    classes: &[u64],
    leaders: &[u64],
    blocks: &[u64],
) -> Result<Names, Memory>
    requires goes_on { GoesOn m.now }
    requires long { length classes.now ≡ length m.now.states }
    requires led { AreLed (length m.now.states) classes.now leaders.now }
    requires blocks { All (λ b. b < length leaders.now) blocks.now }
    ensures names { IfOk result (AreNames m.now classes.now leaders.now (length leaders.now)) }
    ensures each { IfOk result (λ names. All (λ b. IsNameOf m.now classes.now names (slice_index leaders.now b) b) blocks.now) }
{
    let mut names = BTreeMap::new(alloc);
    for block in blocks {
        let key = key_of(alloc, m, classes, leaders[*block as usize])?;
        name_key(&mut names, key, *block)?;
    }
    Ok(names)
}

/// The name of the key, which gets the next one if it has none.
pub(crate) fn name_key(names: &mut Names, key: Vec<Move>, next: u64) -> Result<u64, Memory>
    ensures { IfOk result (IsNamed names.old key next names.new) }
{
    if let Some(n) = names.get(&key) {
        return Ok(*n);
    }
    match names.insert(key, next) {
        Ok(_) => Ok(next),
        Err(_) => Err(Memory),
    }
}

/// Where each state goes by its key: to the block of that name, or to a new one, of which it is then the leader.
pub(crate) fn name_states(
    alloc: Global,
    m: &PairStructure,
    classes: &[u64],
    leaders: &mut Vec<u64>,
    names: &mut Names,
    states: &[u64],
) -> Result<Vec<u64>, Memory>
    requires goes_on { GoesOn m.now }
    requires long { length classes.now ≡ length m.now.states }
    requires states { All (λ s. s < length m.now.states) states.now }
    requires names { AreNames m.now classes.now leaders.old.items (length leaders.old.items) names.old }
    ensures { IfOk result (λ targets. AreTargets m.now classes.now leaders.old.items names.old states.now (length states.now) leaders.new.items names.new targets.items) }
{
    let mut targets = Vec::with_capacity(alloc, states.len())?;
    for state in states {
        let key = key_of(alloc, m, classes, *state)?;
        let next = leaders.len() as u64;
        let block = name_key(names, key, next)?;
        lead(leaders, block, *state)?;
        targets.push(block)?;
    }
    Ok(targets)
}

/// The state leads the block, if it is a new one.
pub(crate) fn lead(leaders: &mut Vec<u64>, block: u64, state: u64) -> Result<(), Memory>
    ensures { OnOk result (IsLeading block state leaders.old.items leaders.new.items) }
{
    if block == leaders.len() as u64 {
        leaders.push(state)?;
    }
    Ok(())
}
