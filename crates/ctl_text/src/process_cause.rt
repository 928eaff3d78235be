ghost use Rattle.std.specs.Prelude.{◌↔◌, ◌≤◌, IsTrue, IfSome, IfNone, Some};
ghost use Rattle.std.specs.Option.{option_copied};
ghost use Rattle.interconnection.specs.declared.limits.TheConstants.{MAX_PROCESSES};
ghost use Rattle.text_cause.specs.Cause.{IsLowest, IsFree};
ghost use Rattle.ctl_text.specs.Cause.{IsUnknownStart, IsNoStart};
ghost use Rattle.ctl_text.specs.Value.{process_names};
ghost use Rattle.ctl_text.specs.inside.LineCause.{NameStands, BeginStands, ProcessStands};

use crate::names::{has_local, has_process, local_number, role_named};
use crate::role_cause::has_start;
use interconnection::Processes;
use pair_structure::Role;
use text_cause::TextCause;

/// What stands against a process of this name and role that is to begin there, where there may be so many.
pub(crate) fn process_cause(
    most: usize,
    roles: &[Role],
    processes: &Processes,
    name: &[u8],
    role: &[u8],
    start: Option<&[u8]>,
) -> Option<TextCause>
    requires { most ≤ MAX_PROCESSES }
    ensures some { IfSome result (IsLowest (ProcessStands most roles.now processes.now name.now role.now (option_copied start.entry))) }
    ensures none { IfNone result (IsFree (ProcessStands most roles.now processes.now name.now role.now (option_copied start.entry))) }
{
    match role_named(roles, role) {
        Some(role) => begin_cause(most, role, processes, name, start),
        None => Some(TextCause::UnknownName),
    }
}

fn begin_cause(
    most: usize,
    role: &Role,
    processes: &Processes,
    name: &[u8],
    start: Option<&[u8]>,
) -> Option<TextCause>
    requires { most ≤ MAX_PROCESSES }
    ensures some { IfSome result (IsLowest (BeginStands most role.now processes.now name.now (option_copied start.entry))) }
    ensures none { IfNone result (IsFree (BeginStands most role.now processes.now name.now (option_copied start.entry))) }
{
    if is_unknown_start(role, start) {
        return Some(TextCause::UnknownName);
    }
    if let Some(cause) = process_name_cause(most, processes, name) {
        return Some(cause);
    }
    if is_no_start(role, start) {
        return Some(TextCause::NotAStart);
    }
    None
}

fn process_name_cause(most: usize, processes: &Processes, name: &[u8]) -> Option<TextCause>
    requires { most ≤ MAX_PROCESSES }
    ensures some { IfSome result (IsLowest (NameStands (process_names processes.now) most name.now)) }
    ensures none { IfNone result (IsFree (NameStands (process_names processes.now) most name.now)) }
{
    if has_process(processes, name) {
        return Some(TextCause::Twice);
    }
    if processes.as_slice().len() >= most {
        return Some(TextCause::TooMany { limit: most as u32 });
    }
    None
}

fn is_unknown_start(role: &Role, start: Option<&[u8]>) -> bool
    ensures { IsTrue result ↔ IsUnknownStart role.now (option_copied start.entry) }
{
    match start {
        Some(name) => !has_local(role.locals(), name),
        None => false,
    }
}

fn is_no_start(role: &Role, start: Option<&[u8]>) -> bool
    ensures { IsTrue result ↔ IsNoStart role.now (option_copied start.entry) }
{
    match start {
        Some(name) => is_other_local(role, name),
        None => false,
    }
}

/// Whether a local state of the role has this name, and is none of its starts.
fn is_other_local(role: &Role, name: &[u8]) -> bool
    ensures { IsTrue result ↔ IsNoStart role.now (Some name.now) }
{
    let locals = role.locals();
    has_local(locals, name) && !has_start(role.starts(), local_number(locals, name))
}
