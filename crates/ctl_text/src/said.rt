ghost use Rattle.std.specs.Prelude.{◌≡◌, ◌≤◌, ◌^◌, All, IfOk, IfErr, length, map};
ghost use Rattle.std.specs.Option.{option_copied};
ghost use Rattle.pair_structure.specs.Name.{IsName};
ghost use Rattle.text_cause.specs.Answers.{IsBadBy};
ghost use Rattle.ctl_text.specs.Item.{role_line, local_line, start_line, set_line, arc_line, kind_line, process_line, edge_line, IsSpelled};
ghost use Rattle.ctl_text.specs.State.{MayStand};
ghost use Rattle.ctl_text.specs.inside.Judged.{IsSaidTaken};
ghost use Rattle.ctl_text.specs.inside.LineCause.{LineBlocks};
ghost use Rattle.ctl_text.specs.inside.Sound.{IsSoundState};
ghost use Rattle.ctl_text.specs.inside.View.{group_of, state_of, said};

use crate::added::{edge_added, process_added};
use crate::ended::take_end;
use crate::format::most_processes;
use crate::graph_cause::{edge_cause, kind_cause};
use crate::grown::{opened_kind, with_arc, with_local, with_set, with_start};
use crate::item::Item;
use crate::names::name_of;
use crate::open_role::OpenRole;
use crate::place::{Place, Reader};
use crate::process_cause::process_cause;
use crate::role_cause::role_cause;
use std::alloc::Global;
use text_cause::LineFault;

/// What stands below a line that says this and may stand there.
pub(crate) fn take_said(alloc: Global, reader: Reader, item: Item<'_>) -> Result<Reader, LineFault>
    requires sound { IsSoundState (state_of reader) }
    requires may { MayStand (group_of reader.place) (said item) }
    requires spelled { IsSpelled (said item) }
    ensures taken { IfOk result (λ r. IsSaidTaken (state_of reader) (said item.entry) (state_of r)) }
    ensures refused { IfErr result (IsBadBy (LineBlocks (state_of reader) (said item.entry))) }
{
    match item {
        Item::Head(format) => Ok(Reader::new(alloc, format, Place::AmongRoles)),
        Item::Role(name) => {
            let reader = take_role(alloc, reader, name)?;
            Ok(reader)
        }
        Item::Local(name) => {
            let reader = take_local(alloc, reader, name)?;
            Ok(reader)
        }
        Item::Start(name) => {
            let reader = take_start(reader, name)?;
            Ok(reader)
        }
        Item::Set { name, members } => {
            let reader = take_set(alloc, reader, name, members)?;
            Ok(reader)
        }
        Item::Arc { from, to, free } => {
            let reader = take_arc(reader, from, to, free)?;
            Ok(reader)
        }
        Item::Kind { name, a, b } => {
            let reader = take_kind(alloc, reader, name, a, b)?;
            Ok(reader)
        }
        Item::End => {
            let reader = take_end(alloc, reader)?;
            Ok(reader)
        }
        Item::Process { name, role, start } => {
            let reader = take_process(alloc, reader, name, role, start)?;
            Ok(reader)
        }
        Item::Edge { a, b, kind } => {
            let reader = take_edge(alloc, reader, a, b, kind)?;
            Ok(reader)
        }
        Item::Done => Ok(opened(reader, Place::AfterDone)),
    }
}

/// The reader with another group open.
fn opened(mut reader: Reader, place: Place) -> Reader
    ensures { state_of result ≡ record { parts = (state_of reader).parts; group = group_of place } }
{
    reader.place = place;
    reader
}

fn take_role(alloc: Global, reader: Reader, name: &[u8]) -> Result<Reader, LineFault>
    requires sound { IsSoundState (state_of reader) }
    requires name { IsName name.now }
    ensures taken { IfOk result (λ r. IsSaidTaken (state_of reader) (role_line name.now) (state_of r)) }
    ensures refused { IfErr result (IsBadBy (LineBlocks (state_of reader) (role_line name.now))) }
{
    if let Some(cause) = role_cause(reader.pairs.roles(), name) {
        return Err(LineFault::Bad(cause));
    }
    let role = OpenRole::new(alloc, reader.format, name_of(alloc, name)?);
    Ok(opened(reader, Place::InRole(role)))
}

fn take_local(alloc: Global, mut reader: Reader, name: &[u8]) -> Result<Reader, LineFault>
    requires sound { IsSoundState (state_of reader) }
    requires name { IsName name.now }
    ensures taken { IfOk result (λ r. IsSaidTaken (state_of reader) (local_line name.now) (state_of r)) }
    ensures refused { IfErr result (IsBadBy (LineBlocks (state_of reader) (local_line name.now))) }
{
    reader.place = with_local(alloc, reader.place, name)?;
    Ok(reader)
}

fn take_start(mut reader: Reader, name: &[u8]) -> Result<Reader, LineFault>
    requires sound { IsSoundState (state_of reader) }
    ensures taken { IfOk result (λ r. IsSaidTaken (state_of reader) (start_line name.now) (state_of r)) }
    ensures refused { IfErr result (IsBadBy (LineBlocks (state_of reader) (start_line name.now))) }
{
    reader.place = with_start(reader.place, name)?;
    Ok(reader)
}

fn take_set(
    alloc: Global,
    mut reader: Reader,
    name: &[u8],
    members: &[&[u8]],
) -> Result<Reader, LineFault>
    requires sound { IsSoundState (state_of reader) }
    requires name { IsName name.now }
    requires members { All IsName (map (λ m. m.now) members.now) }
    ensures taken { IfOk result (λ r. IsSaidTaken (state_of reader) (set_line name.now (map (λ m. m.now) members.now)) (state_of r)) }
    ensures refused { IfErr result (IsBadBy (LineBlocks (state_of reader) (set_line name.now (map (λ m. m.now) members.now)))) }
{
    reader.place = with_set(alloc, reader.place, name, members)?;
    Ok(reader)
}

fn take_arc(mut reader: Reader, from: &[u8], to: &[u8], free: bool) -> Result<Reader, LineFault>
    requires sound { IsSoundState (state_of reader) }
    ensures taken { IfOk result (λ r. IsSaidTaken (state_of reader) (arc_line from.now to.now free) (state_of r)) }
    ensures refused { IfErr result (IsBadBy (LineBlocks (state_of reader) (arc_line from.now to.now free))) }
{
    reader.place = with_arc(reader.place, from, to, free)?;
    Ok(reader)
}

fn take_kind(
    alloc: Global,
    reader: Reader,
    name: &[u8],
    a: &[u8],
    b: &[u8],
) -> Result<Reader, LineFault>
    requires sound { IsSoundState (state_of reader) }
    requires name { IsName name.now }
    ensures taken { IfOk result (λ r. IsSaidTaken (state_of reader) (kind_line name.now a.now b.now) (state_of r)) }
    ensures refused { IfErr result (IsBadBy (LineBlocks (state_of reader) (kind_line name.now a.now b.now))) }
{
    if let Some(cause) = kind_cause(reader.pairs.roles(), reader.pairs.kinds(), name, a, b) {
        return Err(LineFault::Bad(cause));
    }
    let place = opened_kind(alloc, reader.pairs.roles(), name, a, b)?;
    Ok(opened(reader, place))
}

fn take_process(
    alloc: Global,
    reader: Reader,
    name: &[u8],
    role: &[u8],
    start: Option<&[u8]>,
) -> Result<Reader, LineFault>
    requires sound { IsSoundState (state_of reader) }
    requires name { IsName name.now }
    ensures taken { IfOk result (λ r. IsSaidTaken (state_of reader) (process_line name.now role.now (option_copied start.entry)) (state_of r)) }
    ensures refused { IfErr result (IsBadBy (LineBlocks (state_of reader) (process_line name.now role.now (option_copied start.entry)))) }
{
    let most = most_processes(reader.format);
    let roles = reader.pairs.roles();
    if let Some(cause) = process_cause(most, roles, &reader.processes, name, role, start) {
        return Err(LineFault::Bad(cause));
    }
    let reader = process_added(alloc, reader, name, role, start)?;
    Ok(reader)
}

fn take_edge(
    alloc: Global,
    reader: Reader,
    a: &[u8],
    b: &[u8],
    kind: &[u8],
) -> Result<Reader, LineFault>
    requires sound { IsSoundState (state_of reader) }
    ensures taken { IfOk result (λ r. IsSaidTaken (state_of reader) (edge_line a.now b.now kind.now) (state_of r)) }
    ensures refused { IfErr result (IsBadBy (LineBlocks (state_of reader) (edge_line a.now b.now kind.now))) }
{
    if let Some(cause) = edge_cause(&reader, a, b, kind) {
        return Err(LineFault::Bad(cause));
    }
    let reader = edge_added(alloc, reader, a, b, kind)?;
    Ok(reader)
}
