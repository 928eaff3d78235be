ghost use Rattle.std.specs.Prelude.{◌≡◌, ◌↔◌, ◌<◌, ◌≤◌, IsTrue, IfSome, IfNone, Contains, length};
ghost use Rattle.pair_structure.specs.Role.{HasArc, HasArcFrom};
ghost use Rattle.ctl_text.specs.Value.{role_names, number_in};
ghost use Rattle.text_cause.specs.Cause.{IsLowest, IsFree};
ghost use Rattle.ctl_text.specs.inside.LineCause.{NameStands, StartStands, ArcStands, RoleEndStands};

use crate::names::{has_local, has_role, local_number};
use interconnection::MAX_ROLES;
use pair_structure::{LocalArc, MAX_ARCS, MAX_LOCALS, Name, Role};
use text_cause::TextCause;

/// What stands against a role of this name.
pub(crate) fn role_cause(roles: &[Role], name: &[u8]) -> Option<TextCause>
    ensures some { IfSome result (IsLowest (NameStands (role_names roles.now) MAX_ROLES name.now)) }
    ensures none { IfNone result (IsFree (NameStands (role_names roles.now) MAX_ROLES name.now)) }
{
    if has_role(roles, name) {
        return Some(TextCause::Twice);
    }
    if roles.len() >= MAX_ROLES {
        return Some(TextCause::TooMany {
            limit: MAX_ROLES as u32,
        });
    }
    None
}

/// What stands against a local state of this name.
pub(crate) fn local_cause(names: &[Name], name: &[u8]) -> Option<TextCause>
    ensures some { IfSome result (IsLowest (NameStands names.now MAX_LOCALS name.now)) }
    ensures none { IfNone result (IsFree (NameStands names.now MAX_LOCALS name.now)) }
{
    if has_local(names, name) {
        return Some(TextCause::Twice);
    }
    if names.len() >= MAX_LOCALS {
        return Some(TextCause::TooMany {
            limit: MAX_LOCALS as u32,
        });
    }
    None
}

/// What stands against a start at this local state.
pub(crate) fn start_cause(names: &[Name], starts: &[u8], name: &[u8]) -> Option<TextCause>
    ensures some { IfSome result (IsLowest (StartStands names.now starts.now name.now)) }
    ensures none { IfNone result (IsFree (StartStands names.now starts.now name.now)) }
{
    if !has_local(names, name) {
        return Some(TextCause::UnknownName);
    }
    if has_start(starts, local_number(names, name)) {
        return Some(TextCause::Twice);
    }
    None
}

/// Whether the local state of this number is among the starts.
pub(crate) fn has_start(starts: &[u8], local: usize) -> bool
    ensures { IsTrue result ↔ Contains starts.now local }
{
    starts.iter().any(|start| *start as usize == local)
}

/// What stands against an arc between these local states.
pub(crate) fn arc_cause(
    names: &[Name],
    arcs: &[LocalArc],
    from: &[u8],
    to: &[u8],
) -> Option<TextCause>
    ensures some { IfSome result (IsLowest (ArcStands names.now arcs.now from.now to.now)) }
    ensures none { IfNone result (IsFree (ArcStands names.now arcs.now from.now to.now)) }
{
    if !has_local(names, from) {
        return Some(TextCause::UnknownName);
    }
    if !has_local(names, to) {
        return Some(TextCause::UnknownName);
    }
    if has_arc(arcs, local_number(names, from), local_number(names, to)) {
        return Some(TextCause::Twice);
    }
    if from == to {
        return Some(TextCause::SelfArc);
    }
    if arcs.len() >= MAX_ARCS {
        return Some(TextCause::TooMany {
            limit: MAX_ARCS as u32,
        });
    }
    None
}

fn has_arc(arcs: &[LocalArc], from: usize, to: usize) -> bool
    ensures { IsTrue result ↔ HasArc arcs.now from to }
{
    arcs.iter()
        .any(|arc| arc.from as usize == from && arc.to as usize == to)
}

/// What stands against the end of a role.
pub(crate) fn role_end_cause(names: &[Name], arcs: &[LocalArc]) -> Option<TextCause>
    requires { length names.now ≤ MAX_LOCALS }
    ensures some { IfSome result (IsLowest (RoleEndStands names.now arcs.now)) }
    ensures none { IfNone result (IsFree (RoleEndStands names.now arcs.now)) }
{
    for local in 0..names.len() as u8 {
        if !is_left(arcs, local) {
            return Some(TextCause::NoArc { local });
        }
    }
    None
}

fn is_left(arcs: &[LocalArc], local: u8) -> bool
    ensures { IsTrue result ↔ HasArcFrom arcs.now local }
{
    arcs.iter().any(|arc| arc.from == local)
}
