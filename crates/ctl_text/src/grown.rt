ghost use Rattle.std.specs.Prelude.{◌≡◌, ◌≤◌, All, IfOk, IfErr, length, map};
ghost use Rattle.pair_structure.specs.Name.{IsName};
ghost use Rattle.ctl_form.specs.Form.{form_of};
ghost use Rattle.ctl_text.specs.State.{with_local, with_start, with_set, with_arc, with_form, opened_kind};
ghost use Rattle.text_cause.specs.Answers.{IsBadBy};
ghost use Rattle.text_cause.specs.Cause.{IsFree};
ghost use Rattle.ctl_text.specs.inside.LineCause.{LocalBlocks, StartBlocks, SetBlocks, ArcBlocks};
ghost use Rattle.ctl_text.specs.inside.Sound.{IsSound};
ghost use Rattle.ctl_text.specs.inside.View.{group_of};

use crate::names::{name_of, role_number};
use crate::place::Place;
use ctl_form::Formula;
use interconnection::MAX_ROLES;
use pair_structure::Role;
use std::alloc::{AllocError, Global};
use text_cause::LineFault;

/// An open role with one more local state.
pub(crate) fn with_local(alloc: Global, place: Place, name: &[u8]) -> Result<Place, LineFault>
    requires sound { IsSound (group_of place) }
    requires name { IsName name.now }
    ensures place { IfOk result (λ p. group_of p ≡ with_local (group_of place) name.now) }
    ensures free { IfOk result (λ p. IsFree (LocalBlocks (group_of place) name.now)) }
    ensures sound { IfOk result (λ p. IsSound (group_of p)) }
    ensures refused { IfErr result (IsBadBy (LocalBlocks (group_of place) name.now)) }
{
    match place {
        Place::InRole(role) => {
            let role = role.with_local(alloc, name)?;
            Ok(Place::InRole(role))
        }
        other => Ok(other),
    }
}

/// An open role with one more start.
pub(crate) fn with_start(place: Place, name: &[u8]) -> Result<Place, LineFault>
    requires { IsSound (group_of place) }
    ensures place { IfOk result (λ p. group_of p ≡ with_start (group_of place) name.now) }
    ensures free { IfOk result (λ p. IsFree (StartBlocks (group_of place) name.now)) }
    ensures sound { IfOk result (λ p. IsSound (group_of p)) }
    ensures refused { IfErr result (IsBadBy (StartBlocks (group_of place) name.now)) }
{
    match place {
        Place::InRole(role) => {
            let role = role.with_start(name)?;
            Ok(Place::InRole(role))
        }
        other => Ok(other),
    }
}

/// An open role with one more set.
pub(crate) fn with_set(
    alloc: Global,
    place: Place,
    name: &[u8],
    members: &[&[u8]],
) -> Result<Place, LineFault>
    requires sound { IsSound (group_of place) }
    requires name { IsName name.now }
    requires members { All IsName (map (λ m. m.now) members.now) }
    ensures place { IfOk result (λ p. group_of p ≡ with_set (group_of place) name.now (map (λ m. m.now) members.now)) }
    ensures free { IfOk result (λ p. IsFree (SetBlocks (group_of place) name.now (map (λ m. m.now) members.now))) }
    ensures sound { IfOk result (λ p. IsSound (group_of p)) }
    ensures refused { IfErr result (IsBadBy (SetBlocks (group_of place) name.now (map (λ m. m.now) members.now))) }
{
    match place {
        Place::InRole(role) => {
            let role = role.with_set(alloc, name, members)?;
            Ok(Place::InRole(role))
        }
        other => Ok(other),
    }
}

/// An open role with one more arc.
pub(crate) fn with_arc(place: Place, from: &[u8], to: &[u8], free: bool) -> Result<Place, LineFault>
    requires { IsSound (group_of place) }
    ensures place { IfOk result (λ p. group_of p ≡ with_arc (group_of place) from.now to.now free) }
    ensures free { IfOk result (λ p. IsFree (ArcBlocks (group_of place) from.now to.now)) }
    ensures sound { IfOk result (λ p. IsSound (group_of p)) }
    ensures refused { IfErr result (IsBadBy (ArcBlocks (group_of place) from.now to.now)) }
{
    match place {
        Place::InRole(role) => {
            let role = role.with_arc(from, to, free)?;
            Ok(Place::InRole(role))
        }
        other => Ok(other),
    }
}

/// A kind over these roles, with no clause so far.
pub(crate) fn opened_kind(
    alloc: Global,
    roles: &[Role],
    name: &[u8],
    a: &[u8],
    b: &[u8],
) -> Result<Place, AllocError>
    requires few { length roles.now ≤ MAX_ROLES }
    requires name { IsName name.now }
    ensures { IfOk result (λ p. group_of p ≡ opened_kind roles.now name.now a.now b.now) }
{
    let name = name_of(alloc, name)?;
    let role_a = role_number(roles, a) as u8;
    let role_b = role_number(roles, b) as u8;
    let clauses = Vec::new(alloc);
    Ok(Place::InKind {
        name,
        role_a,
        role_b,
        clauses,
    })
}

/// An open kind with one more clause.
pub(crate) fn with_form(place: Place, formula: Formula) -> Result<Place, AllocError>
    ensures { IfOk result (λ p. group_of p ≡ with_form (group_of place) (form_of formula)) }
{
    match place {
        Place::InKind {
            name,
            role_a,
            role_b,
            mut clauses,
        } => {
            clauses.push(formula)?;
            Ok(Place::InKind {
                name,
                role_a,
                role_b,
                clauses,
            })
        }
        other => Ok(other),
    }
}
