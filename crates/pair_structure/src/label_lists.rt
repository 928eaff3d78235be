ghost use Rattle.std.specs.Prelude.{◌≡◌, ◌<◌, ◌++◌, ◌∷◌, [], ℕ, length, OnOk};
ghost use Rattle.pair_structure.specs.inside.LabelIndex.{label_list};
ghost use Rattle.pair_structure.specs.Lists.{list_at};

use crate::Lists;
use std::alloc::{AllocError, Global};
use std::marker::Model;

/// Numbers of states in lists, one for each label: in rows by the local state of side a, and in a row by that of side b.
#[derive(Debug, Drop)]
pub(crate) struct LabelLists {
    rows: Vec<Lists<u64>>,
}

impl Model for LabelLists {
    ghost use Rattle.std.specs.Prelude.{List, ℕ};

    ghost Value = { List (List (List ℕ)) };

    ghost view = { λ l. l.rows.items };
}

impl LabelLists {
    pub(crate) fn new(alloc: Global) -> LabelLists
        ensures { result ≡ [] }
    {
        LabelLists {
            rows: Vec::new(alloc),
        }
    }

    pub(crate) fn list(&self, a: u8, b: u8) -> &[u64]
        ensures { result.now ≡ label_list self.now a b }
    {
        match self.rows.get(a as usize) {
            Some(row) => row.list(b as usize),
            None => &[],
        }
    }

    /// Appends the state to the list of this label.
    pub(crate) fn push(&mut self, alloc: Global, a: u8, b: u8, state: u64) -> Result<(), AllocError>
        ensures here { OnOk result (label_list self.new a b ≡ label_list self.old a b ++ state ∷ []) }
        ensures elsewhere { OnOk result ((p q : ℕ) → ((a ≡ p) × (b ≡ q) → ⊥) → label_list self.new p q ≡ label_list self.old p q) }
    {
        self.reach(alloc, a)?;
        self.rows[a as usize].push(alloc, b as usize, state)?;
        Ok(())
    }

    fn reach(&mut self, alloc: Global, a: u8) -> Result<(), AllocError>
        ensures within { OnOk result (a < length self.new) }
        ensures same { (p : ℕ) → list_at self.new p ≡ list_at self.old p }
    {
        while self.rows.len() <= a as usize {
            self.rows.push(Lists::new(alloc))?;
        }
        Ok(())
    }
}
