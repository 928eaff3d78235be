ghost use Rattle.std.specs.Prelude.{◌≡◌, ◌<◌, ◌++◌, OnOk, decimal, length};
ghost use Rattle.conjunctive_compose.specs.System.{edge_count, process_count, role_of};
ghost use Rattle.conjunctive_compose.specs.Whole.{IsProper};
ghost use Rattle.skeleton_tool.specs.Replay.{away_text, blocked_text, edge_line, edges_text, local_name, process_line, process_name, processes_text, run_text, stuck_text};
ghost use Rattle.skeleton_tool.specs.inside.Telling.{IsRefusal};

use conjunctive_compose::{StepAnswer, System, Whole};
use itoa::Buffer;
use pair_structure::{Name, push_name};
use std::alloc::AllocError;

/// Appends the text of a run of so many entries: each process where it is, with how often it fired, and each edge with
/// its pair state.
pub(crate) fn write_run(
    system: &System,
    count: u64,
    whole: &Whole,
    moves: &[u64],
    states: &[u64],
    into: &mut Vec<u8>,
) -> Result<(), AllocError>
    requires proper { IsProper system.now whole.now }
    requires moves { length moves.now ≡ process_count system.now }
    requires states { length states.now ≡ edge_count system.now }
    ensures { OnOk result (into.new.items ≡ into.old.items ++ run_text system.now count whole.now moves.now states.now) }
{
    into.extend_from_slice(b"run ")?;
    write_number(count, into)?;
    into.extend_from_slice(b"\n")?;
    write_processes(system, whole, moves, into)?;
    write_edges(system, states, into)?;
    into.extend_from_slice(b"done\n")?;
    Ok(())
}

#[tactic(auto, using(crate::proofs::Pieces::pieces_more))]
fn write_processes(
    system: &System,
    whole: &Whole,
    moves: &[u64],
    into: &mut Vec<u8>,
) -> Result<(), AllocError>
    requires proper { IsProper system.now whole.now }
    requires moves { length moves.now ≡ process_count system.now }
    ensures { OnOk result (into.new.items ≡ into.old.items ++ processes_text system.now whole.now moves.now) }
{
    let count = system.network().processes().len();
    for process in 0..count {
        write_process(system, whole, moves, process as u32, into)?;
    }
    Ok(())
}

fn write_process(
    system: &System,
    whole: &Whole,
    moves: &[u64],
    process: u32,
    into: &mut Vec<u8>,
) -> Result<(), AllocError>
    requires proper { IsProper system.now whole.now }
    requires moves { length moves.now ≡ process_count system.now }
    requires within { process < process_count system.now }
    ensures { OnOk result (into.new.items ≡ into.old.items ++ process_line system.now whole.now moves.now process) }
{
    into.extend_from_slice(b"process ")?;
    write_name(process_name(system, process), into)?;
    into.extend_from_slice(b" ")?;
    write_local(system, process, whole.locals[process as usize], into)?;
    into.extend_from_slice(b" ")?;
    write_number(moves[process as usize], into)?;
    into.extend_from_slice(b"\n")?;
    Ok(())
}

#[tactic(auto, using(crate::proofs::Pieces::pieces_more))]
fn write_edges(system: &System, states: &[u64], into: &mut Vec<u8>) -> Result<(), AllocError>
    requires { length states.now ≡ edge_count system.now }
    ensures { OnOk result (into.new.items ≡ into.old.items ++ edges_text system.now states.now) }
{
    let count = system.network().edges().len();
    for edge in 0..count {
        write_edge(system, states, edge, into)?;
    }
    Ok(())
}

fn write_edge(
    system: &System,
    states: &[u64],
    edge: usize,
    into: &mut Vec<u8>,
) -> Result<(), AllocError>
    requires states { length states.now ≡ edge_count system.now }
    requires within { edge < edge_count system.now }
    ensures { OnOk result (into.new.items ≡ into.old.items ++ edge_line system.now states.now edge) }
{
    let ends = system.network().edges()[edge];
    into.extend_from_slice(b"edge ")?;
    write_name(process_name(system, ends.a), into)?;
    into.extend_from_slice(b" ")?;
    write_name(process_name(system, ends.b), into)?;
    into.extend_from_slice(b" ")?;
    write_number(states[edge], into)?;
    into.extend_from_slice(b"\n")?;
    Ok(())
}

/// Appends the place of an entry of this process that does not move, and why.
pub(crate) fn write_stuck(
    system: &System,
    at: u64,
    process: u32,
    why: StepAnswer,
    into: &mut Vec<u8>,
) -> Result<(), AllocError>
    requires within { process < process_count system.now }
    requires why { IsRefusal system.now why }
    ensures { OnOk result (into.new.items ≡ into.old.items ++ stuck_text system.now at process why) }
{
    match why {
        StepAnswer::Moved => unreachable!(),
        StepAnswer::Away { local } => {
            write_away(system, at, process, local, into)?;
            Ok(())
        }
        StepAnswer::Blocked { neighbour } => {
            write_blocked(system, at, neighbour, into)?;
            Ok(())
        }
    }
}

fn write_away(
    system: &System,
    at: u64,
    process: u32,
    local: u8,
    into: &mut Vec<u8>,
) -> Result<(), AllocError>
    requires { process < process_count system.now }
    ensures { OnOk result (into.new.items ≡ into.old.items ++ away_text system.now at process local) }
{
    into.extend_from_slice(b"not-a-run ")?;
    write_number(at, into)?;
    into.extend_from_slice(b" away ")?;
    write_local(system, process, local, into)?;
    into.extend_from_slice(b"\n")?;
    Ok(())
}

fn write_blocked(
    system: &System,
    at: u64,
    neighbour: u32,
    into: &mut Vec<u8>,
) -> Result<(), AllocError>
    requires { neighbour < process_count system.now }
    ensures { OnOk result (into.new.items ≡ into.old.items ++ blocked_text system.now at neighbour) }
{
    into.extend_from_slice(b"not-a-run ")?;
    write_number(at, into)?;
    into.extend_from_slice(b" blocked ")?;
    write_name(process_name(system, neighbour), into)?;
    into.extend_from_slice(b"\n")?;
    Ok(())
}

pub(crate) fn process_name(system: &System, process: u32) -> &Name
    requires { process < process_count system.now }
    ensures { result.now ≡ process_name system.now process }
{
    &system.network().processes()[process as usize].name
}

/// Appends the name of a local state of this process's role; of none that there is, nothing.
fn write_local(
    system: &System,
    process: u32,
    local: u8,
    into: &mut Vec<u8>,
) -> Result<(), AllocError>
    requires { process < process_count system.now }
    ensures { OnOk result (into.new.items ≡ into.old.items ++ local_name system.now process local) }
{
    push_name(locals_of(system, process), local, into)
}

fn locals_of(system: &System, process: u32) -> &[Name]
    requires { process < process_count system.now }
    ensures { result.now ≡ (role_of system.now process).locals }
{
    let network = system.network();
    let role = network.processes()[process as usize].role;
    network.roles()[role as usize].locals()
}

pub(crate) fn write_name(name: &Name, into: &mut Vec<u8>) -> Result<(), AllocError>
    ensures { OnOk result (into.new.items ≡ into.old.items ++ name.now) }
{
    into.extend_from_slice(name.as_str().as_bytes())?;
    Ok(())
}

pub(crate) fn write_number(n: u64, into: &mut Vec<u8>) -> Result<(), AllocError>
    ensures { OnOk result (into.new.items ≡ into.old.items ++ decimal n) }
{
    let mut buffer = Buffer::new();
    into.extend_from_slice(buffer.format(n).as_bytes())?;
    Ok(())
}
