ghost use Rattle.std.specs.Prelude.{◌≡◌, ◌++◌, ◌∷◌, [], All, IfOk, map};
ghost use Rattle.pair_structure.specs.Name.{IsName};
ghost use Rattle.ctl_text.specs.Value.{sets_at};

use crate::names::name_of;
use formula_text::LocalSet;
use pair_structure::Name;
use std::alloc::{AllocError, Global};
use std::marker::Model;

/// The sets of a role, in their order. Contracts see them as a list.
#[derive(Drop)]
pub(crate) struct Sets {
    items: Vec<LocalSet>,
}

impl Model for Sets {
    ghost use Rattle.std.specs.Prelude.{List};
    ghost use Rattle.formula_text.specs.Sets.{SetParts};

    ghost Value = { List SetParts };

    ghost view = { λ s. s.items.items };
}

impl Sets {
    pub(crate) fn new(alloc: Global) -> Sets
        ensures { result ≡ [] }
    {
        Sets {
            items: Vec::new(alloc),
        }
    }

    pub(crate) fn as_slice(&self) -> &[LocalSet]
        ensures { result.now ≡ self.now }
    {
        &self.items
    }

    /// With one more set.
    pub(crate) fn with(self, set: LocalSet) -> Result<Sets, AllocError>
        ensures { IfOk result (λ made. made ≡ self ++ set ∷ []) }
    {
        let Sets { mut items } = self;
        items.push(set)?;
        Ok(Sets { items })
    }
}

/// The sets of a role by its number, and none past the end.
pub(crate) fn sets_at(sets: &[Sets], role: u8) -> &[LocalSet]
    ensures { result.now ≡ sets_at sets.now role }
{
    match sets.get(role as usize) {
        Some(sets) => sets.as_slice(),
        None => &[],
    }
}

/// The set of this name, with members of these names.
pub(crate) fn set_of(alloc: Global, name: &[u8], members: &[&[u8]]) -> Result<LocalSet, AllocError>
    requires name { IsName name.now }
    requires members { All IsName (map (λ m. m.now) members.now) }
    ensures { IfOk result (λ set. set ≡ record { name = name.now; members = map (λ m. m.now) members.now }) }
{
    let name = name_of(alloc, name)?;
    let members = names_of(alloc, members)?;
    Ok(LocalSet::new(name, members))
}

/// The names that these words spell, in their order.
fn names_of(alloc: Global, words: &[&[u8]]) -> Result<Vec<Name>, AllocError>
    requires { All IsName (map (λ w. w.now) words.now) }
    ensures { IfOk result (λ names. names.items ≡ map (λ w. w.now) words.now) }
{
    let mut names = Vec::with_capacity(alloc, words.len())?;
    for word in words {
        names.push(name_of(alloc, word)?)?;
    }
    Ok(names)
}
