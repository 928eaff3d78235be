ghost use Rattle.std.specs.Prelude.{◌≡◌, ◌≤◌, IfOk, length};
ghost use Rattle.std.specs.Option.{option_copied};
ghost use Rattle.pair_structure.specs.Name.{IsName};
ghost use Rattle.pair_structure.specs.Parts.{role_at};
ghost use Rattle.ctl_text.specs.Item.{process_line, edge_line};
ghost use Rattle.ctl_text.specs.State.{after_line, process_in};
ghost use Rattle.ctl_text.specs.Value.{start_named};
ghost use Rattle.ctl_text.specs.inside.View.{state_of};

use crate::names::{kind_number, local_number, name_of, process_number, role_number};
use crate::place::{Place, Reader};
use interconnection::{Edge, MAX_KINDS, MAX_PROCESSES, MAX_ROLES, Process};
use pair_structure::Role;
use std::alloc::{AllocError, Global};

/// With one more process.
pub(crate) fn process_added(
    alloc: Global,
    mut reader: Reader,
    name: &[u8],
    role: &[u8],
    start: Option<&[u8]>,
) -> Result<Reader, AllocError>
    requires few { length reader.pairs.roles ≤ MAX_ROLES }
    requires name { IsName name.now }
    ensures { IfOk result (λ r. state_of r ≡ after_line (state_of reader) (process_line name.now role.now (option_copied start.entry))) }
{
    let process = process_of(alloc, reader.pairs.roles(), name, role, start)?;
    reader.processes = reader.processes.with(alloc, process)?;
    reader.place = Place::AmongProcesses;
    Ok(reader)
}

fn process_of(
    alloc: Global,
    roles: &[Role],
    name: &[u8],
    role: &[u8],
    start: Option<&[u8]>,
) -> Result<Process, AllocError>
    requires few { length roles.now ≤ MAX_ROLES }
    requires name { IsName name.now }
    ensures { IfOk result (λ p. p ≡ process_in roles.now name.now role.now (option_copied start.entry)) }
{
    let name = name_of(alloc, name)?;
    let number = role_number(roles, role);
    let start = start_number(roles, number, start);
    let role = number as u8;
    Ok(Process { name, role, start })
}

/// The number of the local state where a process of this role begins, and 0 where there is no such role.
fn start_number(roles: &[Role], role: usize, start: Option<&[u8]>) -> u8
    ensures { result ≡ start_named (role_at roles.now role) (option_copied start.entry) }
{
    match roles.get(role) {
        Some(role) => start_in(role, start),
        None => 0,
    }
}

fn start_in(role: &Role, start: Option<&[u8]>) -> u8
    ensures { result ≡ start_named role.now (option_copied start.entry) }
{
    match start {
        Some(name) => local_number(role.locals(), name) as u8,
        None => role.start(),
    }
}

/// With one more edge.
pub(crate) fn edge_added(
    alloc: Global,
    mut reader: Reader,
    a: &[u8],
    b: &[u8],
    kind: &[u8],
) -> Result<Reader, AllocError>
    requires few_kinds { length reader.pairs.kinds ≤ MAX_KINDS }
    requires few_processes { length reader.processes ≤ MAX_PROCESSES }
    ensures { IfOk result (λ r. state_of r ≡ after_line (state_of reader) (edge_line a.now b.now kind.now)) }
{
    let a = process_number(&reader.processes, a) as u32;
    let b = process_number(&reader.processes, b) as u32;
    let kind = kind_number(reader.pairs.kinds(), kind) as u8;
    reader.edges = reader.edges.with(alloc, Edge { a, b, kind })?;
    reader.place = Place::AmongEdges;
    Ok(reader)
}
