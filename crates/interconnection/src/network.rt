ghost use Rattle.std.specs.Prelude.{◌≡◌, ◌≢◌, ◌<◌, ◌^◌, length, All, IfOk, IfErr};
ghost use Rattle.std.specs.List.Sorted.{IsNonDecreasingBy, IsPermutation};
ghost use Rattle.pair_structure.specs.Role.{IsRole};
ghost use Rattle.interconnection.specs.Around.{AreLocked};
ghost use Rattle.interconnection.specs.Graph.{AreNeighbours, IsLockPlan, degree_of};
ghost use Rattle.interconnection.specs.Network.{AreLawful, IsNetwork};
ghost use Rattle.interconnection.specs.NetworkFault.{IsFirstNetworkFault};
ghost use Rattle.interconnection.specs.Shape.{labels_of, rank};

use crate::adjacency::Adjacency;
use crate::copies::{process_copies, role_copies};
use crate::edge_check::{edge_fault, first_mismatch};
use crate::labels::{label_copies, sorted_labels};
use crate::part_check::part_fault;
use crate::{Beside, Edge, NetworkFault, Process};
use pair_structure::{Lists, Memory, Role, Side};
use std::alloc::Global;
use std::marker::Model;

/// Roles, kinds of pairs, processes that play the roles, and edges between the processes. Each part is numbered in its order.
#[derive(Debug, Drop)]
pub struct Network {
    roles: Vec<Role>,
    ends: Vec<(u8, u8)>,
    processes: Vec<Process>,
    edges: Vec<Edge>,
    adjacency: Adjacency,
    labels: Lists<(u8, Side)>,
}

impl Model for Network {
    ghost use Rattle.std.specs.Prelude.{length};
    ghost use Rattle.interconnection.specs.Around.{AreLocked};
    ghost use Rattle.interconnection.specs.inside.Labels.{AreLabels};
    ghost use Rattle.interconnection.specs.Network.{NetworkParts, AreLawful};

    ghost Value = { NetworkParts };

    ghost view = { λ n. record { roles = n.roles.items; ends = n.ends.items; processes = n.processes.items; edges = n.edges.items } };

    ghost invariant = { λ n. AreLawful n.roles.items n.ends.items n.processes.items n.edges.items × AreLocked (length n.processes.items) n.edges.items n.adjacency × AreLabels (length n.processes.items) n.edges.items n.labels };
}

impl Network {
    /// The network with these parts, or the first fault that stands against them; `ends` has the numbers of the two roles of each kind.
    /// Linear in the parts, with a binary search among the neighbours for each end of an edge.
    pub fn make(
        alloc: Global,
        roles: Vec<Role>,
        ends: Vec<(u8, u8)>,
        processes: Vec<Process>,
        edges: Vec<Edge>,
    ) -> Result<Network, NetworkFault>
        requires { length edges.items < 2 ^ 32 }
        ensures network { IfOk result (λ n. n ≡ record { roles = roles.items; ends = ends.items; processes = processes.items; edges = edges.items }) }
        ensures lawful { IfOk result (λ n. AreLawful roles.items ends.items processes.items edges.items) }
        ensures fault { IfErr result (λ fault. fault ≢ NetworkFault.Memory → IsFirstNetworkFault roles.items ends.items processes.items edges.items fault) }
        ensures refused { IfErr result (λ fault. fault ≢ NetworkFault.Memory → AreLawful roles.items ends.items processes.items edges.items → ⊥) }
    {
        match adjacency_of(alloc, &roles, &ends, &processes, &edges) {
            Ok(adjacency) => {
                let labels = sorted_labels(alloc, processes.len(), &edges)?;
                Ok(Network {
                    roles,
                    ends,
                    processes,
                    edges,
                    adjacency,
                    labels,
                })
            }
            Err(fault) => Err(fault),
        }
    }

    /// An equal network. Linear in its parts.
    pub fn copy(&self, alloc: Global) -> Result<Network, Memory>
        ensures copy { IfOk result (λ n. n ≡ self.now) }
        ensures roles { IfOk result (λ n. All IsRole self.now.roles) }
    {
        let roles = role_copies(alloc, &self.roles)?;
        let processes = process_copies(alloc, &self.processes)?;
        Ok(Network {
            roles,
            ends: Vec::from_slice(alloc, &self.ends)?,
            processes,
            edges: Vec::from_slice(alloc, &self.edges)?,
            adjacency: self.adjacency.copy(alloc)?,
            labels: label_copies(alloc, &self.labels, self.processes.len())?,
        })
    }

    /// The roles, in the order of their numbers.
    pub fn roles(&self) -> &[Role]
        ensures roles { result.now ≡ self.now.roles }
        ensures network { IsNetwork self.now }
    {
        &self.roles
    }

    /// The numbers of the two roles of each kind.
    pub fn ends(&self) -> &[(u8, u8)]
        ensures ends { result.now ≡ self.now.ends }
        ensures network { IsNetwork self.now }
    {
        &self.ends
    }

    /// The processes, in the order of their numbers.
    pub fn processes(&self) -> &[Process]
        ensures processes { result.now ≡ self.now.processes }
        ensures network { IsNetwork self.now }
    {
        &self.processes
    }

    /// The edges, in the order of their numbers.
    pub fn edges(&self) -> &[Edge]
        ensures edges { result.now ≡ self.now.edges }
        ensures network { IsNetwork self.now }
    {
        &self.edges
    }

    /// The neighbours of a process, by rising number. Takes no time that grows with the network.
    pub fn neighbours(&self, k: u32) -> &[Beside]
        requires { k < length self.now.processes }
        ensures neighbours { AreNeighbours self.now.edges k result.now }
        ensures degree { length result.now ≡ degree_of self.now.edges k }
    {
        self.adjacency.beside(k as usize)
    }

    /// The locks of a process, in the order in which a firing of it takes them: its edges by rising number, and where it
    /// has none the one lock of its own, whose number is its process number past the count of edges. Takes no time that
    /// grows with the network.
    pub fn lock_plan(&self, k: u32) -> &[u32]
        requires { k < length self.now.processes }
        ensures { IsLockPlan self.now.edges k result.now }
    {
        self.adjacency.plan(k as usize)
    }

    /// The labels of the process's edges, sorted. Takes no time that grows with the network.
    pub(crate) fn labels(&self, k: u32) -> &[(u8, Side)]
        requires { k < length self.now.processes }
        ensures same { IsPermutation (labels_of self.now.edges k) result.now }
        ensures sorted { IsNonDecreasingBy rank result.now }
        ensures count { length result.now ≡ degree_of self.now.edges k }
    {
        self.labels.list(k as usize)
    }
}

fn adjacency_of(
    alloc: Global,
    roles: &[Role],
    ends: &[(u8, u8)],
    processes: &[Process],
    edges: &[Edge],
) -> Result<Adjacency, NetworkFault>
    requires { length edges.now < 2 ^ 32 }
    ensures locked { IfOk result (λ a. AreLocked (length processes.now) edges.now a) }
    ensures lawful { IfOk result (λ a. AreLawful roles.now ends.now processes.now edges.now) }
    ensures fault { IfErr result (λ fault. fault ≢ NetworkFault.Memory → IsFirstNetworkFault roles.now ends.now processes.now edges.now fault) }
{
    if let Some(fault) = part_fault(roles, ends, processes) {
        return Err(fault);
    }
    if let Some(fault) = edge_fault(ends, processes, edges) {
        return Err(fault);
    }
    let mut adjacency = Adjacency::of(alloc, processes.len(), edges)?;
    if let Some(edge) = first_mismatch(ends, processes, edges) {
        return Err(NetworkFault::RoleMismatch { edge: edge as u32 });
    }
    if let Some(process) = adjacency.first_over() {
        return Err(NetworkFault::DegreeOver {
            process: process as u32,
        });
    }
    adjacency.give_own_locks(edges.len())?;
    Ok(adjacency)
}
