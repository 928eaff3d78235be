ghost use Rattle.std.specs.Prelude.{◌≡◌, ◌<◌, ◌++◌, ◌∷◌, [], ℕ, length, IfOk, OnOk, MatchOption};
ghost use Rattle.ctl_form.specs.Members.{part_at, forms_of, form_of_part, IsBelow};
ghost use Rattle.ctl_form.specs.MemberTable.{IsNumbering, Numbers};
ghost use Rattle.ctl_form.specs.Walk.{noted};

use crate::{MAX_MEMBERS, NormalFault, Part};
use pair_structure::Memory;
use std::alloc::Global;
use std::collections::BTreeMap;
use std::marker::Model;

/// Members in the order of their numbers, and their numbers by their parts. Contracts see the parts.
#[derive(Drop)]
pub(crate) struct Members {
    parts: Vec<Part>,
    numbers: BTreeMap<Part, u32>,
}

impl Model for Members {
    ghost use Rattle.std.specs.Prelude.{List};
    ghost use Rattle.ctl_form.specs.declared.part.Part.{Part};
    ghost use Rattle.ctl_form.specs.MemberTable.{IsTable};

    ghost Value = { List Part };

    ghost view = { λ m. m.parts.items };

    ghost invariant = { λ m. IsTable m.parts.items m.numbers };
}

impl Members {
    pub(crate) fn new(alloc: Global) -> Members
        ensures { result ≡ [] }
    {
        Members {
            parts: Vec::new(alloc),
            numbers: BTreeMap::new(alloc),
        }
    }

    pub(crate) fn parts(&self) -> &[Part]
        ensures same { result.now ≡ self.now }
        ensures numbering { IsNumbering self.now }
    {
        &self.parts
    }

    /// The member with this part.
    pub(crate) fn find(&self, part: Part) -> Option<u32>
        ensures found { MatchOption result ((n : ℕ) → n < length self.now → part_at self.now n ≡ part → ⊥) (λ n. (n < length self.now) × (part_at self.now n ≡ part)) }
        ensures numbering { IsNumbering self.now }
    {
        match self.numbers.get(&part) {
            Some(n) => Some(*n),
            None => None,
        }
    }

    /// The member with this part, which gets the next number if there is none. One look-up in the map, and a second for a new part.
    pub(crate) fn note(&mut self, part: Part) -> Result<u32, NormalFault>
        requires { IsBelow (length self.old) part }
        ensures { let forms = forms_of self.old in let form = form_of_part forms part in Numbers (noted form forms) form self.new result }
    {
        if let Some(n) = self.find(part) {
            return Ok(n);
        }
        if self.parts().len() >= MAX_MEMBERS {
            return Err(NormalFault::Over);
        }
        let n = self.add(part)?;
        Ok(n)
    }

    fn add(&mut self, part: Part) -> Result<u32, Memory>
        requires new { (n : ℕ) → n < length self.old → part_at self.old n ≡ part → ⊥ }
        requires below { IsBelow (length self.old) part }
        requires room { length self.old < MAX_MEMBERS }
        ensures number { IfOk result (λ n. n ≡ length self.old) }
        ensures added { OnOk result (self.new ≡ self.old ++ part ∷ []) }
    {
        let n = self.parts.len() as u32;
        self.parts.push(part)?;
        match self.numbers.insert(part, n) {
            Ok(_) => Ok(n),
            Err(_) => {
                self.parts.pop();
                Err(Memory)
            }
        }
    }
}
