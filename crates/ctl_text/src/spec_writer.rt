ghost use Rattle.std.specs.Prelude.{◌≡◌, ◌++◌, OnOk, OnErr, map};
ghost use Rattle.std.specs.List.{flat_map};
ghost use Rattle.pair_structure.specs.Parts.{name_at, role_at};
ghost use Rattle.pair_structure.specs.Role.{first_start};
ghost use Rattle.ctl_form.specs.Form.{form_of};
ghost use Rattle.ctl_text.specs.Item.{head_line, role_line, start_line, kind_line, end_line, done_line};
ghost use Rattle.ctl_text.specs.SpecText.{line_for, ended, local_text, start_text, arc_text, free_text, role_text, require_text, kind_lines_over, kind_text, start_name, start_word, process_text, edge_text, spec_text};
ghost use Rattle.ctl_text.specs.Text.{IsSpecText};
ghost use Rattle.ctl_text.specs.Value.{process_at, kind_at};

use crate::spec::Spec;
use ctl_form::{Formula, PairSpec};
use formula_text::write_formula;
use interconnection::{Edge, Process};
use pair_structure::{LocalArc, Memory, Name, Role, push_name};
use std::alloc::{AllocError, Global};

/// Appends the canonical text of a specification, and nothing where memory runs out. What is appended is read again as an equal specification. Linear in the text.
pub fn write_spec(alloc: Global, spec: &Spec, into: &mut Vec<u8>) -> Result<(), Memory>
    ensures written { OnOk result (into.new.items ≡ into.old.items ++ spec_text spec.now) }
    ensures text { OnOk result (IsSpecText (spec_text spec.now) spec.now) }
    ensures kept { OnErr result (into.new.items ≡ into.old.items) }
{
    let network = spec.network();
    let mut text = Vec::new(alloc);
    write_lines(
        network.roles(),
        spec.kinds(),
        network.processes(),
        network.edges(),
        &mut text,
    )?;
    into.extend_from_slice(&text)?;
    Ok(())
}

fn write_lines(
    roles: &[Role],
    kinds: &[PairSpec],
    processes: &[Process],
    edges: &[Edge],
    into: &mut Vec<u8>,
) -> Result<(), AllocError>
    ensures { OnOk result (into.new.items ≡ into.old.items ++ spec_text (record { roles = roles.now; kinds = kinds.now; processes = processes.now; edges = edges.now })) }
{
    into.extend_from_slice(b"pairs 2\n")?;
    write_roles(roles, into)?;
    write_kinds(roles, kinds, into)?;
    write_processes(roles, processes, into)?;
    write_edges(processes, kinds, edges, into)?;
    into.extend_from_slice(b"done\n")?;
    Ok(())
}

fn write_roles(roles: &[Role], into: &mut Vec<u8>) -> Result<(), AllocError>
    ensures { OnOk result (into.new.items ≡ into.old.items ++ flat_map role_text roles.now) }
{
    for role in roles {
        write_role(role, into)?;
    }
    Ok(())
}

fn write_role(role: &Role, into: &mut Vec<u8>) -> Result<(), AllocError>
    ensures { OnOk result (into.new.items ≡ into.old.items ++ role_text role.now) }
{
    write_role_head(role.name(), into)?;
    write_locals(role.locals(), into)?;
    write_starts(role.locals(), role.starts(), into)?;
    write_arcs(role.locals(), role.arcs(), into)?;
    into.extend_from_slice(b"end\n")?;
    Ok(())
}

fn write_role_head(name: &Name, into: &mut Vec<u8>) -> Result<(), AllocError>
    ensures { OnOk result (into.new.items ≡ into.old.items ++ ended (line_for (role_line name.now))) }
{
    into.extend_from_slice(b"role ")?;
    into.extend_from_slice(name.as_str().as_bytes())?;
    into.extend_from_slice(b"\n")?;
    Ok(())
}

fn write_locals(names: &[Name], into: &mut Vec<u8>) -> Result<(), AllocError>
    ensures { OnOk result (into.new.items ≡ into.old.items ++ flat_map ended (map local_text names.now)) }
{
    for name in names {
        write_name(name, into)?;
    }
    Ok(())
}

/// Appends the line of a local state.
fn write_name(name: &Name, into: &mut Vec<u8>) -> Result<(), AllocError>
    ensures { OnOk result (into.new.items ≡ into.old.items ++ ended (local_text name.now)) }
{
    into.extend_from_slice(b"local ")?;
    into.extend_from_slice(name.as_str().as_bytes())?;
    into.extend_from_slice(b"\n")?;
    Ok(())
}

fn write_starts(names: &[Name], starts: &[u8], into: &mut Vec<u8>) -> Result<(), AllocError>
    ensures { OnOk result (into.new.items ≡ into.old.items ++ flat_map ended (map (start_text names.now) starts.now)) }
{
    for start in starts {
        write_start(names, *start, into)?;
    }
    Ok(())
}

fn write_start(names: &[Name], start: u8, into: &mut Vec<u8>) -> Result<(), AllocError>
    ensures { OnOk result (into.new.items ≡ into.old.items ++ ended (start_text names.now start)) }
{
    into.extend_from_slice(b"start ")?;
    push_name(names, start, into)?;
    into.extend_from_slice(b"\n")?;
    Ok(())
}

fn write_arcs(names: &[Name], arcs: &[LocalArc], into: &mut Vec<u8>) -> Result<(), AllocError>
    ensures { OnOk result (into.new.items ≡ into.old.items ++ flat_map ended (map (arc_text names.now) arcs.now)) }
{
    for arc in arcs {
        write_arc(names, *arc, into)?;
    }
    Ok(())
}

fn write_arc(names: &[Name], arc: LocalArc, into: &mut Vec<u8>) -> Result<(), AllocError>
    ensures { OnOk result (into.new.items ≡ into.old.items ++ ended (arc_text names.now arc)) }
{
    into.extend_from_slice(b"arc ")?;
    push_name(names, arc.from, into)?;
    into.extend_from_slice(b" ")?;
    push_name(names, arc.to, into)?;
    write_free(arc.free, into)?;
    Ok(())
}

fn write_free(free: bool, into: &mut Vec<u8>) -> Result<(), AllocError>
    ensures { OnOk result (into.new.items ≡ into.old.items ++ free_text free) }
{
    if free {
        into.extend_from_slice(b" free\n")?;
        Ok(())
    } else {
        into.extend_from_slice(b"\n")?;
        Ok(())
    }
}

fn write_kinds(roles: &[Role], kinds: &[PairSpec], into: &mut Vec<u8>) -> Result<(), AllocError>
    ensures { OnOk result (into.new.items ≡ into.old.items ++ flat_map (kind_text roles.now) kinds.now) }
{
    for kind in kinds {
        write_kind(roles, kind, into)?;
    }
    Ok(())
}

fn write_kind(roles: &[Role], kind: &PairSpec, into: &mut Vec<u8>) -> Result<(), AllocError>
    ensures { OnOk result (into.new.items ≡ into.old.items ++ kind_text roles.now kind.now) }
{
    write_kind_head(roles, kind, into)?;
    let a = locals_at(roles, kind.role_a);
    let b = locals_at(roles, kind.role_b);
    write_requires(a, b, kind.clauses.as_slice(), into)?;
    into.extend_from_slice(b"end\n")?;
    Ok(())
}

fn write_kind_head(roles: &[Role], kind: &PairSpec, into: &mut Vec<u8>) -> Result<(), AllocError>
    ensures { OnOk result (into.new.items ≡ into.old.items ++ ended (line_for (kind_line kind.now.name (role_at roles.now kind.now.role_a).name (role_at roles.now kind.now.role_b).name))) }
{
    into.extend_from_slice(b"kind ")?;
    into.extend_from_slice(kind.name.as_str().as_bytes())?;
    into.extend_from_slice(b" ")?;
    write_role_name(roles, kind.role_a, into)?;
    into.extend_from_slice(b" ")?;
    write_role_name(roles, kind.role_b, into)?;
    into.extend_from_slice(b"\n")?;
    Ok(())
}

/// The names of the local states of a role by its number, and none past the end.
fn locals_at(roles: &[Role], role: u8) -> &[Name]
    ensures { result.now ≡ (role_at roles.now role).locals }
{
    match roles.get(role as usize) {
        Some(role) => role.locals(),
        None => &[],
    }
}

/// Appends the name of a role by its number, and nothing past the end.
fn write_role_name(roles: &[Role], role: u8, into: &mut Vec<u8>) -> Result<(), AllocError>
    ensures { OnOk result (into.new.items ≡ into.old.items ++ (role_at roles.now role).name) }
{
    match roles.get(role as usize) {
        Some(role) => into.extend_from_slice(role.name().as_str().as_bytes()),
        None => Ok(()),
    }
}

fn write_requires(
    a: &[Name],
    b: &[Name],
    clauses: &[Formula],
    into: &mut Vec<u8>,
) -> Result<(), AllocError>
    ensures { OnOk result (into.new.items ≡ into.old.items ++ flat_map ended (map (require_text a.now b.now) (map form_of clauses.now))) }
{
    for clause in clauses {
        write_require(a, b, clause, into)?;
    }
    Ok(())
}

fn write_require(
    a: &[Name],
    b: &[Name],
    clause: &Formula,
    into: &mut Vec<u8>,
) -> Result<(), AllocError>
    ensures { OnOk result (into.new.items ≡ into.old.items ++ ended (require_text a.now b.now (form_of clause.now))) }
{
    into.extend_from_slice(b"require ")?;
    write_formula(a, b, clause, into)?;
    into.extend_from_slice(b"\n")?;
    Ok(())
}

fn write_processes(
    roles: &[Role],
    processes: &[Process],
    into: &mut Vec<u8>,
) -> Result<(), AllocError>
    ensures { OnOk result (into.new.items ≡ into.old.items ++ flat_map ended (map (process_text roles.now) processes.now)) }
{
    for process in processes {
        write_process(roles, process, into)?;
    }
    Ok(())
}

fn write_process(roles: &[Role], process: &Process, into: &mut Vec<u8>) -> Result<(), AllocError>
    ensures { OnOk result (into.new.items ≡ into.old.items ++ ended (process_text roles.now process.now)) }
{
    into.extend_from_slice(b"process ")?;
    into.extend_from_slice(process.name.as_str().as_bytes())?;
    into.extend_from_slice(b" ")?;
    write_role_name(roles, process.role, into)?;
    write_process_start(roles, process, into)?;
    into.extend_from_slice(b"\n")?;
    Ok(())
}

/// Appends the name of the local state where the process begins, behind a space, and nothing where that is its role's first start.
fn write_process_start(
    roles: &[Role],
    process: &Process,
    into: &mut Vec<u8>,
) -> Result<(), AllocError>
    ensures { OnOk result (into.new.items ≡ into.old.items ++ start_word (start_name (role_at roles.now process.now.role) process.now.start)) }
{
    if process.start == first_start_at(roles, process.role) {
        return Ok(());
    }
    into.extend_from_slice(b" ")?;
    push_name(locals_at(roles, process.role), process.start, into)?;
    Ok(())
}

/// The first start of a role by its number, and 0 past the end.
fn first_start_at(roles: &[Role], role: u8) -> u8
    ensures { result ≡ first_start (role_at roles.now role) }
{
    match roles.get(role as usize) {
        Some(role) => role.start(),
        None => 0,
    }
}

fn write_edges(
    processes: &[Process],
    kinds: &[PairSpec],
    edges: &[Edge],
    into: &mut Vec<u8>,
) -> Result<(), AllocError>
    ensures { OnOk result (into.new.items ≡ into.old.items ++ flat_map ended (map (edge_text processes.now kinds.now) edges.now)) }
{
    for edge in edges {
        write_edge(processes, kinds, *edge, into)?;
    }
    Ok(())
}

fn write_edge(
    processes: &[Process],
    kinds: &[PairSpec],
    edge: Edge,
    into: &mut Vec<u8>,
) -> Result<(), AllocError>
    ensures { OnOk result (into.new.items ≡ into.old.items ++ ended (edge_text processes.now kinds.now edge)) }
{
    into.extend_from_slice(b"edge ")?;
    write_process_name(processes, edge.a, into)?;
    into.extend_from_slice(b" ")?;
    write_process_name(processes, edge.b, into)?;
    into.extend_from_slice(b" ")?;
    write_kind_name(kinds, edge.kind, into)?;
    into.extend_from_slice(b"\n")?;
    Ok(())
}

/// Appends the name of a process by its number, and nothing past the end.
fn write_process_name(
    processes: &[Process],
    process: u32,
    into: &mut Vec<u8>,
) -> Result<(), AllocError>
    ensures { OnOk result (into.new.items ≡ into.old.items ++ (process_at processes.now process).name) }
{
    match processes.get(process as usize) {
        Some(process) => into.extend_from_slice(process.name.as_str().as_bytes()),
        None => Ok(()),
    }
}

/// Appends the name of a kind by its number, and nothing past the end.
fn write_kind_name(kinds: &[PairSpec], kind: u8, into: &mut Vec<u8>) -> Result<(), AllocError>
    ensures { OnOk result (into.new.items ≡ into.old.items ++ (kind_at kinds.now kind).name) }
{
    match kinds.get(kind as usize) {
        Some(kind) => into.extend_from_slice(kind.name.as_str().as_bytes()),
        None => Ok(()),
    }
}
