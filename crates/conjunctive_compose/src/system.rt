ghost use Rattle.std.specs.Prelude.{◌≡◌, ◌<◌, ◌↔◌, length, map, replicate, IfOk, IsTrue};
ghost use Rattle.std.specs.List.{range_with_len};
ghost use Rattle.pair_structure.specs.Structure.{IsOver};
ghost use Rattle.conjunctive_compose.specs.Firing.{Fits, WishFits, arc_of};
ghost use Rattle.conjunctive_compose.specs.System.{HasStructures, IsSystem, edge_count, lists_at, process_count, role_a, role_b, role_of, structure_of};
ghost use Rattle.conjunctive_compose.specs.Whole.{HasPair, IsProper, start_local, start_of};

use crate::making::{skeletons_of, structure_copies};
use crate::{Whole, Wish};
use interconnection::Network;
use pair_structure::{LocalArc, Memory, PairStructure, Role};
use skeleton_extract::Skeleton;
use std::alloc::{AllocError, Global};
use std::marker::Model;

/// Processes on a graph, with the pair structure of each kind and the commands of its moves.
#[derive(Debug, Drop)]
pub struct System {
    network: Network,
    structures: Vec<PairStructure>,
    skeletons: Vec<Skeleton>,
}

impl Model for System {
    ghost use Rattle.conjunctive_compose.specs.System.{IsSystem, SystemParts};

    ghost Value = { SystemParts };

    ghost view = { λ s. record { network = s.network; structures = s.structures.items; lists = s.skeletons.items } };

    ghost invariant = { λ s. IsSystem (record { network = s.network; structures = s.structures.items; lists = s.skeletons.items }) };
}

impl System {
    /// The system of a network and of a structure for each of its kinds, over the kind's roles and with fewer than 2^32 states. Linear in
    /// the network and the states; moves times their logarithm.
    pub fn make(
        alloc: Global,
        network: &Network,
        structures: &[PairStructure],
    ) -> Result<System, Memory>
        requires { HasStructures network.now structures.now }
        ensures network { IfOk result (λ s. s.network ≡ network.now) }
        ensures structures { IfOk result (λ s. s.structures ≡ structures.now) }
        ensures system { IfOk result IsSystem }
    {
        let skeletons = skeletons_of(alloc, network, structures)?;
        let structures = structure_copies(alloc, structures)?;
        let network = network.copy(alloc)?;
        Ok(System {
            network,
            structures,
            skeletons,
        })
    }

    /// The network of the system.
    pub fn network(&self) -> &Network
        ensures network { result.now ≡ self.now.network }
        ensures system { IsSystem self.now }
    {
        &self.network
    }

    /// The structure of a kind.
    pub fn structure(&self, kind: u8) -> &PairStructure
        requires { kind < length self.now.network.ends }
        ensures structure { result.now ≡ structure_of self.now.structures kind }
        ensures over { IsOver (role_a self.now.network kind) (role_b self.now.network kind) (structure_of self.now.structures kind) }
    {
        &self.structures[kind as usize]
    }

    /// The whole state in which each process is in its own start and each value is 0. Linear in processes and edges.
    pub fn start(&self, alloc: Global) -> Result<Whole, Memory>
        ensures start { IfOk result (λ w. w ≡ start_of self.now) }
        ensures proper { IfOk result (IsProper self.now) }
    {
        let locals = self.start_locals(alloc)?;
        let shared = zeros(alloc, self.network.edges().len())?;
        Ok(Whole { locals, shared })
    }

    fn start_locals(&self, alloc: Global) -> Result<Vec<u8>, AllocError>
        ensures { IfOk result (λ locals. locals.items ≡ map (start_local self.now) (range_with_len 0 (process_count self.now))) }
    {
        let count = self.network.processes().len();
        let mut locals = Vec::with_capacity(alloc, count)?;
        for k in 0..count {
            locals.push(self.start_local(k as u32))?;
        }
        Ok(locals)
    }

    /// Whether the process exists and its role has the arc.
    pub fn fits(&self, wish: Wish) -> bool
        ensures { IsTrue result ↔ WishFits self.now wish }
    {
        (wish.process as usize) < self.network.processes().len()
            && (wish.arc as usize) < self.role(wish.process).arcs().len()
    }

    /// The state of an edge's pair in a whole state. Logarithmic in the states of its kind.
    pub fn pair_state(&self, w: &Whole, edge: u32) -> u64
        requires proper { IsProper self.now w.now }
        requires within { edge < edge_count self.now }
        ensures { HasPair self.now w.now edge result }
    {
        let ends = self.network().edges()[edge as usize];
        let structure = self.structure(ends.kind);
        match structure.state_at(w.local(ends.a), w.local(ends.b), w.value(edge)) {
            Some(state) => state,
            None => unreachable!(),
        }
    }

    pub(crate) fn role(&self, process: u32) -> &Role
        requires { process < process_count self.now }
        ensures { result.now ≡ role_of self.now process }
    {
        let number = self.network.processes()[process as usize].role;
        &self.network.roles()[number as usize]
    }

    fn start_local(&self, process: u32) -> u8
        requires { process < process_count self.now }
        ensures { result ≡ start_local self.now process }
    {
        self.network.processes()[process as usize].start
    }

    /// An arc of a process's role, by its number.
    pub fn arc(&self, process: u32, arc: u32) -> LocalArc
        requires { Fits self.now process arc }
        ensures { result ≡ arc_of self.now process arc }
    {
        self.role(process).arcs()[arc as usize]
    }

    pub(crate) fn skeleton(&self, edge: u32) -> &Skeleton
        requires { edge < edge_count self.now }
        ensures lists { result.now ≡ lists_at self.now edge }
        ensures system { IsSystem self.now }
    {
        let kind = self.network.edges()[edge as usize].kind;
        &self.skeletons[kind as usize]
    }
}

fn zeros(alloc: Global, count: usize) -> Result<Vec<u64>, AllocError>
    ensures { IfOk result (λ zeros. zeros.items ≡ replicate count 0) }
{
    let zeros = vec![in alloc; 0; count]?;
    Ok(zeros)
}
