ghost use Rattle.std.specs.Prelude.{◌≡◌, ◌<◌, ◌∷◌, [], length, IsOk, IfOk, IfErr};
ghost use Rattle.pair_structure.specs.inside.Starts.{starts_of};
ghost use Rattle.pair_structure.specs.Role.{IsRole, AreLawful, first_start, starting_at};
ghost use Rattle.pair_structure.specs.RoleFault.{IsFirstRoleFault};

use crate::role_fault::fault_of;
use crate::starts::Starts;
use crate::{LocalArc, Memory, Name, RoleFault};
use std::alloc::Global;
use std::marker::Model;

/// A role: its name, its local states, those where it may start, and its arcs. Local states, starts and arcs are numbered in their
/// order.
#[derive(Debug, Drop)]
pub struct Role {
    name: Name,
    locals: Vec<Name>,
    starts: Starts,
    arcs: Vec<LocalArc>,
}

impl Model for Role {
    ghost use Rattle.pair_structure.specs.inside.Starts.{starts_of};
    ghost use Rattle.pair_structure.specs.Role.{RoleParts, IsRole};

    ghost Value = { RoleParts };

    ghost view = { λ r. record { name = r.name; locals = r.locals.items; starts = starts_of r.starts; arcs = r.arcs.items } };

    ghost invariant = { λ r. IsRole (record { name = r.name; locals = r.locals.items; starts = starts_of r.starts; arcs = r.arcs.items }) };
}

impl Role {
    /// The role with one start, as `with_starts` makes it.
    pub fn make(
        name: Name,
        locals: Vec<Name>,
        start: u8,
        arcs: Vec<LocalArc>,
    ) -> Result<Role, RoleFault>
        ensures role { IfOk result (λ r. r ≡ record { name = name; locals = locals.items; starts = start ∷ []; arcs = arcs.items }) }
        ensures lawful { IfOk result (λ r. AreLawful locals.items (start ∷ []) arcs.items) }
        ensures accepts { AreLawful locals.items (start ∷ []) arcs.items → IsOk result }
        ensures fault { IfErr result (IsFirstRoleFault locals.items (start ∷ []) arcs.items) }
    {
        Role::of(name, locals, Starts::One([start]), arcs)
    }

    /// The role with these parts, or the first fault that stands against them. Takes no memory; at most 32 times 32 comparisons of names
    /// and of starts, and 128 times 128 of arcs.
    pub fn with_starts(
        name: Name,
        locals: Vec<Name>,
        starts: Vec<u8>,
        arcs: Vec<LocalArc>,
    ) -> Result<Role, RoleFault>
        ensures role { IfOk result (λ r. r ≡ record { name = name; locals = locals.items; starts = starts.items; arcs = arcs.items }) }
        ensures lawful { IfOk result (λ r. AreLawful locals.items starts.items arcs.items) }
        ensures accepts { AreLawful locals.items starts.items arcs.items → IsOk result }
        ensures fault { IfErr result (IsFirstRoleFault locals.items starts.items arcs.items) }
    {
        Role::of(name, locals, Starts::Several(starts), arcs)
    }

    fn of(
        name: Name,
        locals: Vec<Name>,
        starts: Starts,
        arcs: Vec<LocalArc>,
    ) -> Result<Role, RoleFault>
        ensures role { IfOk result (λ r. r ≡ record { name = name; locals = locals.items; starts = starts_of starts; arcs = arcs.items }) }
        ensures lawful { IfOk result (λ r. AreLawful locals.items (starts_of starts) arcs.items) }
        ensures accepts { AreLawful locals.items (starts_of starts) arcs.items → IsOk result }
        ensures fault { IfErr result (IsFirstRoleFault locals.items (starts_of starts) arcs.items) }
    {
        match fault_of(&locals, starts.as_slice(), &arcs) {
            Some(fault) => Err(fault),
            None => Ok(Role {
                name,
                locals,
                starts,
                arcs,
            }),
        }
    }

    /// The role's own name.
    pub fn name(&self) -> &Name
        ensures { result.now ≡ self.now.name }
    {
        &self.name
    }

    /// The names of the local states, in the order of their numbers.
    pub fn locals(&self) -> &[Name]
        ensures locals { result.now ≡ self.now.locals }
        ensures role { IsRole self.now }
    {
        &self.locals
    }

    /// The numbers of the local states where the role may start, in their order; there is one at least.
    pub fn starts(&self) -> &[u8]
        ensures starts { result.now ≡ self.now.starts }
        ensures role { IsRole self.now }
    {
        self.starts.as_slice()
    }

    /// The first of the starts.
    pub fn start(&self) -> u8
        ensures { result ≡ first_start self.now }
    {
        self.starts()[0]
    }

    /// The arcs, in the order of their numbers.
    pub fn arcs(&self) -> &[LocalArc]
        ensures { result.now ≡ self.now.arcs }
    {
        &self.arcs
    }

    /// The role with this start alone.
    #[tactic(auto, using(crate::proofs::OneStart::starting_is_role))]
    pub fn starting_at(&self, alloc: Global, start: u8) -> Result<Role, Memory>
        requires { start < length self.now.locals }
        ensures { IfOk result (λ r. r ≡ starting_at self.now start) }
    {
        Ok(Role {
            name: self.name.copy(alloc)?,
            locals: copies_of(alloc, &self.locals)?,
            starts: Starts::One([start]),
            arcs: Vec::from_slice(alloc, &self.arcs)?,
        })
    }

    /// An equal role.
    pub fn copy(&self, alloc: Global) -> Result<Role, Memory>
        ensures { IfOk result (λ r. r ≡ self.now) }
    {
        Ok(Role {
            name: self.name.copy(alloc)?,
            locals: copies_of(alloc, &self.locals)?,
            starts: self.starts.copy(alloc)?,
            arcs: Vec::from_slice(alloc, &self.arcs)?,
        })
    }
}

fn copies_of(alloc: Global, names: &[Name]) -> Result<Vec<Name>, Memory>
    ensures { IfOk result (λ copies. copies.items ≡ names.now) }
{
    let mut copies = Vec::with_capacity(alloc, names.len())?;
    for name in names {
        copies.push(name.copy(alloc)?)?;
    }
    Ok(copies)
}
