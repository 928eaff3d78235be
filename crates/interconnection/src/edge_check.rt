ghost use Rattle.std.specs.Prelude.{◌↔◌, ◌<◌, ◌^◌, length, List, MatchOption, IsTrue};
ghost use Rattle.pair_structure.specs.inside.FirstFailing.{IsFirstFailing};
ghost use Rattle.pair_structure.specs.Role.{RoleParts};
ghost use Rattle.interconnection.specs.Graph.{edge_at};
ghost use Rattle.interconnection.specs.Network.{IsInRange, JoinsTwo, HasRoles};
ghost use Rattle.interconnection.specs.inside.NetworkCheck.{AreParts, AreEdges};
ghost use Rattle.interconnection.specs.NetworkFault.{IsFirstNetworkFault};

use crate::{Edge, NetworkFault, Process};

/// The first fault of an edge alone: of its range, or that it joins a process with itself. Two passes over the edges; takes no memory.
pub(crate) fn edge_fault(
    ends: &[(u8, u8)],
    processes: &[Process],
    edges: &[Edge],
) -> Option<NetworkFault>
    requires { length edges.now < 2 ^ 32 }
    ensures { (roles : List RoleParts) → AreParts roles ends.now processes.now →
        MatchOption result (AreEdges ends.now processes.now edges.now) (IsFirstNetworkFault roles ends.now processes.now edges.now) }
{
    if let Some(edge) = first_out_of_range(ends, processes, edges) {
        return Some(NetworkFault::EdgeRange { edge: edge as u32 });
    }
    match first_self_edge(edges) {
        Some(edge) => Some(NetworkFault::SelfEdge { edge: edge as u32 }),
        None => None,
    }
}

fn first_out_of_range(ends: &[(u8, u8)], processes: &[Process], edges: &[Edge]) -> Option<usize>
    ensures { IsFirstFailing (λ e. IsInRange ends.now processes.now (edge_at edges.now e)) (length edges.now) result }
{
    let (kinds, count) = (ends.len(), processes.len());
    for (e, edge) in edges.iter().enumerate() {
        if edge.a as usize >= count || edge.b as usize >= count || edge.kind as usize >= kinds {
            return Some(e);
        }
    }
    None
}

fn first_self_edge(edges: &[Edge]) -> Option<usize>
    ensures { IsFirstFailing (λ e. JoinsTwo (edge_at edges.now e)) (length edges.now) result }
{
    for (e, edge) in edges.iter().enumerate() {
        if edge.a == edge.b {
            return Some(e);
        }
    }
    None
}

/// The first edge whose processes have other roles than its kind. One pass; takes no memory.
pub(crate) fn first_mismatch(
    ends: &[(u8, u8)],
    processes: &[Process],
    edges: &[Edge],
) -> Option<usize>
    requires { AreEdges ends.now processes.now edges.now }
    ensures { IsFirstFailing (λ e. HasRoles ends.now processes.now (edge_at edges.now e)) (length edges.now) result }
{
    for (e, edge) in edges.iter().enumerate() {
        if !has_roles(ends, processes, edge) {
            return Some(e);
        }
    }
    None
}

fn has_roles(ends: &[(u8, u8)], processes: &[Process], edge: &Edge) -> bool
    requires { IsInRange ends.now processes.now edge.now }
    ensures { IsTrue result ↔ HasRoles ends.now processes.now edge.now }
{
    let (a, b) = ends[edge.kind as usize];
    processes[edge.a as usize].role == a && processes[edge.b as usize].role == b
}
