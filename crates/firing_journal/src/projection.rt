ghost use Rattle.std.specs.Prelude.{◌≡◌, ◌<◌, [], IfOk, option_to_list};
ghost use Rattle.conjunctive_compose.specs.System.{edge_at, edge_count, side_on, structure_at};
ghost use Rattle.conjunctive_compose.specs.Whole.{IsProper, start_of, start_state};
ghost use Rattle.conjunctive_compose.specs.Run.{IsRun};
ghost use Rattle.conjunctive_compose.specs.Projection.{Begins, IsPairPath, IsProjection};
ghost use Rattle.firing_journal.specs.Journal.{wishes_of};

use crate::{Entry, Journal};
use conjunctive_compose::{PairMove, System, Whole};
use interconnection::Edge;
use pair_structure::{Memory, Side};
use std::alloc::Global;

/// What a run does on one edge: for each firing of one of its two processes the side and the pair state after it. A step for each entry.
pub fn project(
    alloc: Global,
    system: &System,
    j: &Journal,
    edge: u32,
) -> Result<Vec<PairMove>, Memory>
    requires run { IsRun system.now (start_of system.now) (wishes_of j.now) }
    requires edge { edge < edge_count system.now }
    ensures projection { IfOk result (λ moves. IsProjection system.now (start_of system.now) edge (wishes_of j.now) moves.items) }
    ensures path { IfOk result (λ moves. IsPairPath (structure_at system.now edge) (start_state system.now edge) moves.items) }
{
    let _network = system.network();
    let moves = project_all(alloc, system, j.entries(), edge)?;
    Ok(moves)
}

fn project_all(
    alloc: Global,
    system: &System,
    entries: &[Entry],
    edge: u32,
) -> Result<Vec<PairMove>, Memory>
    requires run { IsRun system.now (start_of system.now) (wishes_of entries.now) }
    requires edge { edge < edge_count system.now }
    ensures { IfOk result (λ moves. IsProjection system.now (start_of system.now) edge (wishes_of entries.now) moves.items) }
{
    let mut whole = system.start(alloc)?;
    let mut moves = Vec::new(alloc);
    for entry in entries {
        system.step(&mut whole, entry.wish);
        if let Some(step) = move_on(system, &whole, edge, entry.wish.process) {
            moves.push(step)?;
        }
    }
    Ok(moves)
}

/// The move of the edge's pair that the process's firing was, if it is one of the edge's two.
fn move_on(system: &System, whole: &Whole, edge: u32, process: u32) -> Option<PairMove>
    requires proper { IsProper system.now whole.now }
    requires edge { edge < edge_count system.now }
    ensures { Begins system.now whole.now edge (side_on (edge_at system.now edge) process) (option_to_list result) [] }
{
    let ends = system.network().edges()[edge as usize];
    match side_on(ends, process) {
        Some(side) => Some(PairMove {
            side,
            state: system.pair_state(whole, edge),
        }),
        None => None,
    }
}

/// The side of a process on an edge, if it is on one.
fn side_on(edge: Edge, process: u32) -> Option<Side>
    ensures { result ≡ side_on edge process }
{
    if edge.a == process {
        return Some(Side::A);
    }
    if edge.b == process {
        return Some(Side::B);
    }
    None
}
