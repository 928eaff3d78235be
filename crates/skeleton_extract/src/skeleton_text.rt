ghost use Rattle.std.specs.Prelude.{◌≡◌, ◌++◌, length, OnErr, OnOk};
ghost use Rattle.std.specs.List.{flat_map};
ghost use Rattle.skeleton_extract.specs.Commands.{HasLists};
ghost use Rattle.skeleton_extract.specs.SkeletonText.{arc_line, arc_text, arcs_text, command_line, skeleton_text};

use crate::{Command, Skeleton};
use itoa::Buffer;
use pair_structure::{Lists, LocalArc, Memory, Name, Role, Side, push_name};
use std::alloc::{AllocError, Global};

/// Appends the text of the skeletons of one kind, or nothing. Linear in the text, which is written beside `into` first.
pub fn write_skeleton(
    alloc: Global,
    s: &Skeleton,
    kind: &Name,
    a: &Role,
    b: &Role,
    into: &mut Vec<u8>,
) -> Result<(), Memory>
    requires { HasLists a.now b.now s.now }
    ensures text { OnOk result (into.new.items ≡ into.old.items ++ skeleton_text kind.now a.now b.now s.now) }
    ensures unchanged { OnErr result (into.new.items ≡ into.old.items) }
{
    let mut text = Vec::new(alloc);
    write_kind(s, kind, a, b, &mut text)?;
    into.extend_from_slice(&text)?;
    Ok(())
}

fn write_kind(
    s: &Skeleton,
    kind: &Name,
    a: &Role,
    b: &Role,
    into: &mut Vec<u8>,
) -> Result<(), AllocError>
    requires { HasLists a.now b.now s.now }
    ensures { OnOk result (into.new.items ≡ into.old.items ++ skeleton_text kind.now a.now b.now s.now) }
{
    into.extend_from_slice(b"kind ")?;
    into.extend_from_slice(kind.as_str().as_bytes())?;
    into.extend_from_slice(b"\nside a\n")?;
    write_arcs(a.locals(), b.locals(), a.arcs(), s.lists(Side::A), into)?;
    into.extend_from_slice(b"side b\n")?;
    write_arcs(b.locals(), a.locals(), b.arcs(), s.lists(Side::B), into)?;
    into.extend_from_slice(b"end\n")?;
    Ok(())
}

fn write_arcs(
    own: &[Name],
    other: &[Name],
    arcs: &[LocalArc],
    lists: &Lists<Command>,
    into: &mut Vec<u8>,
) -> Result<(), AllocError>
    requires { length lists.now ≡ length arcs.now }
    ensures { OnOk result (into.new.items ≡ into.old.items ++ arcs_text own.now other.now arcs.now lists.now) }
{
    for (n, arc) in arcs.iter().enumerate() {
        write_arc(own, arc, into)?;
        write_commands(other, lists.list(n), into)?;
    }
    Ok(())
}

fn write_arc(own: &[Name], arc: &LocalArc, into: &mut Vec<u8>) -> Result<(), AllocError>
    ensures { OnOk result (into.new.items ≡ into.old.items ++ arc_line own.now arc.now) }
{
    into.extend_from_slice(b"arc ")?;
    push_name(own, arc.from, into)?;
    into.extend_from_slice(b" ")?;
    push_name(own, arc.to, into)?;
    into.extend_from_slice(b"\n")?;
    Ok(())
}

fn write_commands(
    other: &[Name],
    commands: &[Command],
    into: &mut Vec<u8>,
) -> Result<(), AllocError>
    ensures { OnOk result (into.new.items ≡ into.old.items ++ flat_map (command_line other.now) commands.now) }
{
    for command in commands {
        write_command(other, command, into)?;
    }
    Ok(())
}

fn write_command(other: &[Name], command: &Command, into: &mut Vec<u8>) -> Result<(), AllocError>
    ensures { OnOk result (into.new.items ≡ into.old.items ++ command_line other.now command.now) }
{
    let mut buffer = Buffer::new();
    into.extend_from_slice(b"command ")?;
    push_name(other, command.other, into)?;
    into.extend_from_slice(b" ")?;
    into.extend_from_slice(buffer.format(command.x).as_bytes())?;
    into.extend_from_slice(b" ")?;
    into.extend_from_slice(buffer.format(command.set).as_bytes())?;
    into.extend_from_slice(b"\n")?;
    Ok(())
}
