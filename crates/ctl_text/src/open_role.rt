ghost use Rattle.std.specs.Prelude.{◌≡◌, ◌∷◌, [], ◌++◌, ◌^◌, All, IfOk, IfErr, length, map};
ghost use Rattle.pair_structure.specs.Name.{IsName};
ghost use Rattle.pair_structure.specs.declared.limits.TheConstants.{MAX_LOCALS};
ghost use Rattle.ctl_text.specs.State.{arc_in};
ghost use Rattle.ctl_text.specs.Value.{number_in};
ghost use Rattle.text_cause.specs.Answers.{IsBadBy};
ghost use Rattle.text_cause.specs.Cause.{IsFree};
ghost use Rattle.ctl_text.specs.inside.LineCause.{NameStands, StartStands, SetStands, ArcStands};
ghost use Rattle.ctl_text.specs.inside.Sound.{IsSoundRole};
ghost use Rattle.ctl_text.specs.inside.View.{parts_of};

use crate::format::Format;
use crate::names::{local_number, name_of};
use crate::role_cause::{arc_cause, local_cause, start_cause};
use crate::set_cause::set_cause;
use crate::sets::{Sets, set_of};
use pair_structure::{LocalArc, Name};
use std::alloc::{AllocError, Global};
use text_cause::LineFault;

/// A role that has not ended: what its lines have declared so far.
#[derive(Drop)]
pub(crate) struct OpenRole {
    pub format: Format,
    pub name: Name,
    pub locals: Vec<Name>,
    pub starts: Vec<u8>,
    pub sets: Sets,
    pub arcs: Vec<LocalArc>,
}

impl OpenRole {
    /// A role of a text of this format, of which nothing but its name is declared.
    pub(crate) fn new(alloc: Global, format: Format, name: Name) -> OpenRole
        ensures { parts_of result ≡ record { format = format; name = name; locals = []; starts = []; sets = []; arcs = [] } }
    {
        OpenRole {
            format,
            name,
            locals: Vec::new(alloc),
            starts: Vec::new(alloc),
            sets: Sets::new(alloc),
            arcs: Vec::new(alloc),
        }
    }

    /// With one more local state.
    pub(crate) fn with_local(mut self, alloc: Global, name: &[u8]) -> Result<OpenRole, LineFault>
        requires sound { IsSoundRole (parts_of self) }
        requires name { IsName name.now }
        ensures role { IfOk result (λ r. parts_of r ≡ record (parts_of self) { locals = self.locals.items ++ name.now ∷ [] }) }
        ensures free { IfOk result (λ r. IsFree (NameStands self.locals.items MAX_LOCALS name.now)) }
        ensures sound { IfOk result (λ r. IsSoundRole (parts_of r)) }
        ensures refused { IfErr result (IsBadBy (NameStands self.locals.items MAX_LOCALS name.now)) }
    {
        if let Some(cause) = local_cause(&self.locals, name) {
            return Err(LineFault::Bad(cause));
        }
        self.locals = pushed(self.locals, name_of(alloc, name)?)?;
        Ok(self)
    }

    /// With one more start.
    pub(crate) fn with_start(mut self, name: &[u8]) -> Result<OpenRole, LineFault>
        requires { IsSoundRole (parts_of self) }
        ensures role { IfOk result (λ r. parts_of r ≡ record (parts_of self) { starts = self.starts.items ++ number_in self.locals.items name.now ∷ [] }) }
        ensures free { IfOk result (λ r. IsFree (StartStands self.locals.items self.starts.items name.now)) }
        ensures sound { IfOk result (λ r. IsSoundRole (parts_of r)) }
        ensures refused { IfErr result (IsBadBy (StartStands self.locals.items self.starts.items name.now)) }
    {
        if let Some(cause) = start_cause(&self.locals, &self.starts, name) {
            return Err(LineFault::Bad(cause));
        }
        let start = local_number(&self.locals, name) as u8;
        self.starts = pushed(self.starts, start)?;
        Ok(self)
    }

    /// With one more set.
    pub(crate) fn with_set(
        mut self,
        alloc: Global,
        name: &[u8],
        members: &[&[u8]],
    ) -> Result<OpenRole, LineFault>
        requires sound { IsSoundRole (parts_of self) }
        requires name { IsName name.now }
        requires members { All IsName (map (λ m. m.now) members.now) }
        ensures role { IfOk result (λ r. parts_of r ≡ record (parts_of self) { sets = self.sets ++ record { name = name.now; members = map (λ m. m.now) members.now } ∷ [] }) }
        ensures free { IfOk result (λ r. IsFree (SetStands self.locals.items self.sets name.now (map (λ m. m.now) members.now))) }
        ensures sound { IfOk result (λ r. IsSoundRole (parts_of r)) }
        ensures refused { IfErr result (IsBadBy (SetStands self.locals.items self.sets name.now (map (λ m. m.now) members.now))) }
    {
        if let Some(cause) = set_cause(&self.locals, self.sets.as_slice(), name, members) {
            return Err(LineFault::Bad(cause));
        }
        let set = set_of(alloc, name, members)?;
        self.sets = self.sets.with(set)?;
        Ok(self)
    }

    /// With one more arc.
    pub(crate) fn with_arc(
        mut self,
        from: &[u8],
        to: &[u8],
        free: bool,
    ) -> Result<OpenRole, LineFault>
        requires { IsSoundRole (parts_of self) }
        ensures role { IfOk result (λ r. parts_of r ≡ record (parts_of self) { arcs = self.arcs.items ++ arc_in self.locals.items from.now to.now free ∷ [] }) }
        ensures free { IfOk result (λ r. IsFree (ArcStands self.locals.items self.arcs.items from.now to.now)) }
        ensures sound { IfOk result (λ r. IsSoundRole (parts_of r)) }
        ensures refused { IfErr result (IsBadBy (ArcStands self.locals.items self.arcs.items from.now to.now)) }
    {
        if let Some(cause) = arc_cause(&self.locals, &self.arcs, from, to) {
            return Err(LineFault::Bad(cause));
        }
        let from = local_number(&self.locals, from) as u8;
        let to = local_number(&self.locals, to) as u8;
        self.arcs = pushed(self.arcs, LocalArc { from, to, free })?;
        Ok(self)
    }
}

fn pushed<T: Drop>(mut items: Vec<T>, item: T) -> Result<Vec<T>, AllocError>
    ensures { IfOk result (λ more. more.items ≡ items.items ++ item ∷ []) }
{
    items.push(item)?;
    Ok(items)
}
