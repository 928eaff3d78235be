//! Networks, spelled as rows: so many roles; the roles of each kind as `01`; the processes; the edges. The parts stand between bars.

ghost use Rattle.std.specs.Prelude.{◌<◌, length};

use crate::table::{agree, expect};
use interconnection::{Network, NetworkFault};
use pair_structure::Role;
use samples::{LAMP, cut, edges, labels, number, processes, role};
use std::alloc::Global;
use std::test::Fail;

/// Each fault at its first place, and of two faults the one that comes first. Process 5 has 64 neighbours, and then 65.
const FAULTS: &str = "0 | | |  = a network
2 | 01 | 0 1 | 0-1:0 = a network
16 | 00 00 00 00 00 00 00 00 00 00 00 00 00 00 00 00 | 4096*15 |  = a network
17 | | 4097*0 |  = more than 16 of a part
0 | 00 00 00 00 00 00 00 00 00 00 00 00 00 00 00 00 00 | |  = more than 16 of a part
1 | 01 | 4097*0 |  = more than 4096 of a part
2 | 01 02 20 | 2 |  = an end of kind 1 is no role
2 | 01 20 | |  = an end of kind 1 is no role
2 | 01 | 0 2 3 | 0-3:0 = the role of process 1 is none
2 | 01 | 0@1 2 | 0-1:0 = the role of process 1 is none
2 | 01 | 0 1@1 0@2 | 0-0:0 = process 1 starts in none of the role's starts
2 | 01 | 0 1 | 0-1:0 1-1:1 0-0:0 = edge 1 names no process or no kind
2 | 01 | 0 1 | 2-1:0 = edge 0 names no process or no kind
2 | 01 | 0 1 | 0-0:0 0-2:0 = edge 1 names no process or no kind
1 | 00 | 0 0 | 0-1:0 1-0:0 1-1:0 = edge 2 joins a process with itself
1 | 00 | 0 0 0 | 0-1:0 1-2:0 1-0:0 0-1:0 = edge 2 joins the processes of an earlier one
1 | 00 | 0 0 | 0-1:0 0-1:0 = edge 1 joins the processes of an earlier one
2 | 01 | 0 1 | 1-0:0 0-1:0 = edge 1 joins the processes of an earlier one
2 | 01 10 | 0 1 1 | 0-1:0 2-0:0 1-2:1 = edge 1 has processes of other roles than its kind
2 | 01 10 | 0 1 1 | 0-1:0 2-0:1 1-2:1 = edge 2 has processes of other roles than its kind
2 | 00 11 | 70*0 | 5-0:0 1-5:0 5-2:0 3-5:0 5-4:0 6-5:0 5-7:0 8-5:0 5-9:0 10-5:0 5-11:0 12-5:0 5-13:0 14-5:0 5-15:0 16-5:0 5-17:0 18-5:0 5-19:0 20-5:0 5-21:0 22-5:0 5-23:0 24-5:0 5-25:0 26-5:0 5-27:0 28-5:0 5-29:0 30-5:0 5-31:0 32-5:0 5-33:0 34-5:0 5-35:0 36-5:0 5-37:0 38-5:0 5-39:0 40-5:0 5-41:0 42-5:0 5-43:0 44-5:0 5-45:0 46-5:0 5-47:0 48-5:0 5-49:0 50-5:0 5-51:0 52-5:0 5-53:0 54-5:0 5-55:0 56-5:0 5-57:0 58-5:0 5-59:0 60-5:0 5-61:0 62-5:0 5-63:0 64-5:0 = a network
2 | 00 11 | 70*0 | 5-0:0 1-5:0 5-2:0 3-5:0 5-4:0 6-5:0 5-7:0 8-5:0 5-9:0 10-5:0 5-11:0 12-5:0 5-13:0 14-5:0 5-15:0 16-5:0 5-17:0 18-5:0 5-19:0 20-5:0 5-21:0 22-5:0 5-23:0 24-5:0 5-25:0 26-5:0 5-27:0 28-5:0 5-29:0 30-5:0 5-31:0 32-5:0 5-33:0 34-5:0 5-35:0 36-5:0 5-37:0 38-5:0 5-39:0 40-5:0 5-41:0 42-5:0 5-43:0 44-5:0 5-45:0 46-5:0 5-47:0 48-5:0 5-49:0 50-5:0 5-51:0 52-5:0 5-53:0 54-5:0 5-55:0 56-5:0 5-57:0 58-5:0 5-59:0 60-5:0 5-61:0 62-5:0 5-63:0 64-5:0 5-65:0 = process 5 has more than 64 neighbours
2 | 00 11 | 70*0 | 5-0:0 1-5:0 5-2:0 3-5:0 5-4:0 6-5:0 5-7:0 8-5:0 5-9:0 10-5:0 5-11:0 12-5:0 5-13:0 14-5:0 5-15:0 16-5:0 5-17:0 18-5:0 5-19:0 20-5:0 5-21:0 22-5:0 5-23:0 24-5:0 5-25:0 26-5:0 5-27:0 28-5:0 5-29:0 30-5:0 5-31:0 32-5:0 5-33:0 34-5:0 5-35:0 36-5:0 5-37:0 38-5:0 5-39:0 40-5:0 5-41:0 42-5:0 5-43:0 44-5:0 5-45:0 46-5:0 5-47:0 48-5:0 5-49:0 50-5:0 5-51:0 52-5:0 5-53:0 54-5:0 5-55:0 56-5:0 5-57:0 58-5:0 5-59:0 60-5:0 5-61:0 62-5:0 5-63:0 64-5:0 5-65:1 = edge 64 has processes of other roles than its kind";

/// Rings of three philosophers, the second with its edges out of order, and a pair beside two who are alone.
/// Of each process the neighbours, and then its plan: its edges, or a lock behind the edges.
const NEIGHBOURS: &str =
    "1 | 00 | 3*0 | 0-1:0 1-2:0 2-0:0 = [Beside { process: 1, edge: 0, side: A }, Beside { process: 2, edge: 2, side: B }] [0, 2]; [Beside { process: 0, edge: 0, side: B }, Beside { process: 2, edge: 1, side: A }] [0, 1]; [Beside { process: 0, edge: 2, side: A }, Beside { process: 1, edge: 1, side: B }] [1, 2];
1 | 00 | 3*0 | 2-0:0 1-2:0 0-1:0 = [Beside { process: 1, edge: 2, side: A }, Beside { process: 2, edge: 0, side: B }] [0, 2]; [Beside { process: 0, edge: 2, side: B }, Beside { process: 2, edge: 1, side: A }] [1, 2]; [Beside { process: 0, edge: 0, side: A }, Beside { process: 1, edge: 1, side: B }] [0, 1];
1 | 00 | 4*0 | 3-0:0 = [Beside { process: 3, edge: 0, side: B }] [0]; [] [2]; [] [3]; [Beside { process: 0, edge: 0, side: A }] [0];";

/// Lamps around process 0, by edges of two kinds, and the shapes of process 0. One arc leaves each local state of a
/// lamp, so that a shape has two leaves, if there are as many edges.
const SHAPES: &str =
    "1 | 00 00 | 5*0 | 0-1:0 0-2:0 2-3:1 4-0:1 3-0:1 = [(0, A), (0, A)] [(0, A), (1, B)] [(1, B), (1, B)]
1 | 00 00 | 4*0 | 3-0:1 0-1:0 2-0:0 = [(0, A), (0, B)] [(0, A), (1, B)] [(0, B), (1, B)]
1 | 00 | 3*0 | 1-0:0 = [(0, B)]
1 | 00 | 3*0 | 1-2:0 = ";

fn roles(alloc: Global, count: &str) -> Result<Vec<Role>, Fail> {
    let mut roles = Vec::new(alloc);
    for _ in 0..number(count) {
        roles.push(role(alloc, LAMP)?)?;
    }
    Ok(roles)
}

/// What `make` answers to the parts.
fn made(alloc: Global, parts: &str) -> Result<Result<Network, NetworkFault>, Fail> {
    let (count, rest) = cut(parts, "|");
    let (kinds, rest) = cut(rest, "|");
    let (groups, joins) = cut(rest, "|");
    let edges = edges(alloc, joins)?;
    let (roles, ends) = (roles(alloc, count)?, labels(alloc, kinds)?);
    let processes = processes(alloc, groups)?;
    Ok(Network::make(alloc, roles, ends, processes, edges))
}

fn fault_told(alloc: Global, parts: &str) -> Result<String, Fail> {
    match made(alloc, parts)? {
        Ok(_network) => Ok(String::from_str(alloc, "a network")?),
        Err(fault) => Ok(format!(in alloc; "{fault}")?),
    }
}

#[test]
fn refuses_the_first_fault(rt: HostRuntime) -> Result<(), Fail> {
    expect(&rt, rt.alloc(), FAULTS, fault_told)
}

fn neighbours_told(alloc: Global, parts: &str) -> Result<String, Fail> {
    let network = made(alloc, parts)??.copy(alloc)?;
    let mut text = String::new(alloc);
    for k in 0..network.processes().len() {
        let (beside, plan) = (network.neighbours(k as u32), network.lock_plan(k as u32));
        text.push_str(&format!(in alloc; "{beside:?} {plan:?}; ")?)?;
    }
    Ok(text)
}

#[test]
fn lists_neighbours_and_plans(rt: HostRuntime) -> Result<(), Fail> {
    expect(&rt, rt.alloc(), NEIGHBOURS, neighbours_told)
}

fn parts_told(alloc: Global) -> Result<String, Fail> {
    let network = made(alloc, "2 | 01 00 | 0 1 0 | 0-1:0 2-0:1")??;
    let counts = [network.roles().len(), network.processes().len()];
    Ok(format!(in alloc; "{counts:?} {:?} {:?}", network.ends(), network.edges())?)
}

#[test]
fn has_its_parts(rt: HostRuntime) -> Result<(), Fail> {
    let wanted =
        "[2, 3] [(0, 1), (0, 0)] [Edge { a: 0, b: 1, kind: 0 }, Edge { a: 2, b: 0, kind: 1 }]";
    agree(&rt, parts_told(rt.alloc()), wanted)
}

fn shapes_of(alloc: Global, network: &Network, k: u32) -> Result<String, Fail>
    requires { k < length network.now.processes }
{
    let mut text = String::new(alloc);
    let Some(mut shape) = network.first_shape(alloc, k)? else {
        return Ok(text);
    };
    for _ in 0..100 {
        text.push_str(&format!(in alloc; "{:?} ", shape.leaves.as_slice())?)?;
        if !network.next_shape(k, &mut shape) {
            break;
        }
    }
    Ok(text)
}

fn shapes_told(alloc: Global, parts: &str) -> Result<String, Fail> {
    let network = made(alloc, parts)??;
    if network.processes().is_empty() {
        return Err(Fail::from("no process"));
    }
    shapes_of(alloc, &network, 0)
}

#[test]
fn lists_shapes_in_rising_order(rt: HostRuntime) -> Result<(), Fail> {
    expect(&rt, rt.alloc(), SHAPES, shapes_told)
}
