ghost use Rattle.std.specs.Prelude.{◌≡◌, map};
ghost use Rattle.std.specs.Option.{option_map};
ghost use Rattle.formula_text.specs.Sets.{SetParts, members_of, members_at};

use crate::token_sign::behind_dot;
use pair_structure::Name;
use std::marker::Model;

/// A set of local states of a role: its name, and the names of its members. In a formula an atom that names it stands for the disjunction of
/// its members' atoms.
#[derive(Debug, Drop)]
pub struct LocalSet {
    name: Name,
    members: Vec<Name>,
}

impl Model for LocalSet {
    ghost use Rattle.formula_text.specs.Sets.{SetParts};

    ghost Value = { SetParts };

    ghost view = { λ s. record { name = s.name; members = s.members.items } };
}

impl LocalSet {
    /// The set of this name with these members. Takes no memory.
    pub fn new(name: Name, members: Vec<Name>) -> LocalSet
        ensures { result ≡ record { name = name; members = members.items } }
    {
        LocalSet { name, members }
    }

    /// The name that atoms spell.
    pub fn name(&self) -> &Name
        ensures { result.now ≡ self.now.name }
    {
        &self.name
    }

    /// The names of its members, in their order.
    pub fn members(&self) -> &[Name]
        ensures { result.now ≡ self.now.members }
    {
        &self.members
    }
}

/// The members of the set that the token names behind this letter and a dot.
pub(crate) fn members_at<'a>(letter: u8, sets: &'a [LocalSet], token: &[u8]) -> Option<&'a [Name]>
    ensures { option_map (λ members. members.now) result ≡ members_at letter sets.now token.now }
{
    match behind_dot(letter, token) {
        Some(name) => members_of(sets, name),
        None => None,
    }
}

/// The members of the set of this name.
fn members_of<'a>(sets: &'a [LocalSet], name: &[u8]) -> Option<&'a [Name]>
    ensures { option_map (λ members. members.now) result ≡ members_of sets.now name.now }
{
    for set in sets {
        if set.name().as_str().as_bytes() == name {
            return Some(set.members());
        }
    }
    None
}
