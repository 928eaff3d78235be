ghost use Rattle.std.specs.Prelude.{◌≡◌, ◌<◌, ℕ, length, IfOk, MatchOption};
ghost use Rattle.pair_structure.specs.Ordinal.{ordinal_of, IsStateAt};

use crate::label_lists::LabelLists;
use std::alloc::{AllocError, Global};
use std::marker::Model;

/// The labels of states, by which the states are found.
#[derive(Debug, Drop)]
pub(crate) struct LabelIndex {
    labels: Vec<(u8, u8)>,
    ordinals: Vec<u64>,
    lists: LabelLists,
}

impl Model for LabelIndex {
    ghost use Rattle.std.specs.Prelude.{List, ℕ};
    ghost use Rattle.pair_structure.specs.inside.LabelIndex.{IsIndexOf};

    ghost Value = { List (ℕ × ℕ) };

    ghost view = { λ i. i.labels.items };

    ghost invariant = { λ i. IsIndexOf i.labels.items i.ordinals.items i.lists };
}

impl LabelIndex {
    /// One pass over the labels.
    pub(crate) fn of(alloc: Global, labels: &[(u8, u8)]) -> Result<LabelIndex, AllocError>
        ensures { IfOk result (λ index. index ≡ labels.now) }
    {
        let mut ordinals = Vec::with_capacity(alloc, labels.len())?;
        let mut lists = LabelLists::new(alloc);
        for (s, (a, b)) in labels.iter().enumerate() {
            ordinals.push(lists.list(*a, *b).len() as u64)?;
            lists.push(alloc, *a, *b, s as u64)?;
        }
        Ok(LabelIndex {
            labels: Vec::from_slice(alloc, labels)?,
            ordinals,
            lists,
        })
    }

    pub(crate) fn labels(&self) -> &[(u8, u8)]
        ensures { result.now ≡ self.now }
    {
        &self.labels
    }

    pub(crate) fn ordinal(&self, state: u64) -> u64
        requires { state < length self.now }
        ensures { result ≡ ordinal_of self.now state }
    {
        self.ordinals[state as usize]
    }

    pub(crate) fn state_at(&self, a: u8, b: u8, x: u64) -> Option<u64>
        ensures { MatchOption result ((s : ℕ) → IsStateAt self.now (a, b) x s → ⊥) (IsStateAt self.now (a, b) x) }
    {
        match self.lists.list(a, b).get(x as usize) {
            Some(state) => Some(*state),
            None => None,
        }
    }
}
