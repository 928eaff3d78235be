ghost use Rattle.std.specs.Prelude.{◌≡◌, ◌↔◌, ◌<◌, ◌≤◌, ◌+◌, ◌^◌, ℕ, length, IfOk, IfErr, IsTrue, OnOk};
ghost use Rattle.pair_structure.specs.inside.FirstFailing.{IsFirstFailing};
ghost use Rattle.interconnection.specs.Around.{AreAround, AreEmpty, AreGiven, HasBeside, IsGrown, IsOrdered, around_at};
ghost use Rattle.interconnection.specs.Graph.{edge_at};
ghost use Rattle.interconnection.specs.Network.{JoinsTwo};
ghost use Rattle.interconnection.specs.inside.NetworkCheck.{AreSingle, IsFailedAdjacency};

use crate::neighbourhood::{Neighbourhood, has_beside};
use crate::{Beside, Edge, MAX_NEIGHBOURS, MAX_PROCESSES, NetworkFault};
use pair_structure::Side;
use std::alloc::{AllocError, Global};
use std::marker::Model;

/// For each process what stands around it.
#[derive(Debug, Drop)]
pub(crate) struct Adjacency {
    each: Vec<Neighbourhood>,
}

impl Model for Adjacency {
    ghost use Rattle.std.specs.Prelude.{List};
    ghost use Rattle.interconnection.specs.Around.{Around};

    ghost Value = { List Around };

    ghost view = { λ a. a.each.items };
}

impl Adjacency {
    /// What these edges put around so many processes, or the first edge that joins the processes of an earlier one. A binary search for
    /// each end of an edge.
    pub(crate) fn of(alloc: Global, count: usize, edges: &[Edge]) -> Result<Adjacency, NetworkFault>
        requires few_processes { count ≤ MAX_PROCESSES }
        requires few_edges { length edges.now < 2 ^ 32 }
        requires in_range { (e : ℕ) → e < length edges.now → ((edge_at edges.now e).a < count) × ((edge_at edges.now e).b < count) }
        requires joins_two { (e : ℕ) → e < length edges.now → JoinsTwo (edge_at edges.now e) }
        ensures around { IfOk result (λ a. AreAround count edges.now a) }
        ensures single { IfOk result (λ a. AreSingle edges.now) }
        ensures fault { IfErr result (IsFailedAdjacency edges.now) }
    {
        let mut adjacency = Adjacency::without_edges(alloc, count)?;
        for (e, edge) in edges.iter().enumerate() {
            if adjacency.are_joined(edge) {
                return Err(NetworkFault::EdgeTwice { edge: e as u32 });
            }
            adjacency.join(e as u32, edge)?;
        }
        Ok(adjacency)
    }

    fn without_edges(alloc: Global, count: usize) -> Result<Adjacency, AllocError>
        requires { count ≤ MAX_PROCESSES }
        ensures { IfOk result (AreEmpty count) }
    {
        let mut each = Vec::with_capacity(alloc, count)?;
        for _ in 0..count {
            each.push(Neighbourhood::empty(alloc))?;
        }
        Ok(Adjacency { each })
    }

    pub(crate) fn copy(&self, alloc: Global) -> Result<Adjacency, AllocError>
        ensures { IfOk result (λ a. a ≡ self.now) }
    {
        let each = neighbourhood_copies(alloc, &self.each)?;
        Ok(Adjacency { each })
    }

    pub(crate) fn beside(&self, k: usize) -> &[Beside]
        requires { k < length self.now }
        ensures { result.now ≡ (around_at self.now k).beside }
    {
        self.each[k].beside()
    }

    pub(crate) fn plan(&self, k: usize) -> &[u32]
        requires { k < length self.now }
        ensures { result.now ≡ (around_at self.now k).plan }
    {
        self.each[k].plan()
    }

    /// Whether the edge's second process is beside its first.
    fn are_joined(&self, edge: &Edge) -> bool
        requires within { edge.now.a < length self.now }
        requires ordered { IsOrdered (around_at self.now edge.now.a).beside }
        ensures { IsTrue result ↔ HasBeside (around_at self.now edge.now.a).beside edge.now.b }
    {
        has_beside(self.beside(edge.a as usize), edge.b)
    }

    fn join(&mut self, e: u32, edge: &Edge) -> Result<(), AllocError>
        requires a_within { edge.now.a < length self.old }
        requires b_within { edge.now.b < length self.old }
        requires differ { JoinsTwo edge.now }
        requires a_ordered { IsOrdered (around_at self.old edge.now.a).beside }
        requires b_ordered { IsOrdered (around_at self.old edge.now.b).beside }
        requires a_fresh { HasBeside (around_at self.old edge.now.a).beside edge.now.b → ⊥ }
        requires b_fresh { HasBeside (around_at self.old edge.now.b).beside edge.now.a → ⊥ }
        ensures size { OnOk result (length self.new ≡ length self.old) }
        ensures a { OnOk result (IsGrown (around_at self.old edge.now.a) (record { process = edge.now.b; edge = e; side = Side.A }) (around_at self.new edge.now.a)) }
        ensures b { OnOk result (IsGrown (around_at self.old edge.now.b) (record { process = edge.now.a; edge = e; side = Side.B }) (around_at self.new edge.now.b)) }
        ensures others { OnOk result ((k : ℕ) → (edge.now.a ≡ k → ⊥) → (edge.now.b ≡ k → ⊥) → around_at self.new k ≡ around_at self.old k) }
    {
        self.add(
            edge.a as usize,
            Beside {
                process: edge.b,
                edge: e,
                side: Side::A,
            },
        )?;
        self.add(
            edge.b as usize,
            Beside {
                process: edge.a,
                edge: e,
                side: Side::B,
            },
        )?;
        Ok(())
    }

    fn add(&mut self, k: usize, neighbour: Beside) -> Result<(), AllocError>
        requires within { k < length self.old }
        requires ordered { IsOrdered (around_at self.old k).beside }
        requires fresh { HasBeside (around_at self.old k).beside neighbour.process → ⊥ }
        ensures size { length self.new ≡ length self.old }
        ensures here { OnOk result (IsGrown (around_at self.old k) neighbour (around_at self.new k)) }
        ensures elsewhere { OnOk result ((j : ℕ) → (k ≡ j → ⊥) → around_at self.new j ≡ around_at self.old j) }
    {
        self.each[k].add(neighbour)?;
        Ok(())
    }

    /// Gives each process without an edge its own lock, behind the locks of so many edges. Linear in processes.
    pub(crate) fn give_own_locks(&mut self, edge_count: usize) -> Result<(), AllocError>
        requires { edge_count + length self.old < 2 ^ 32 }
        ensures { OnOk result (AreGiven edge_count self.old self.new) }
    {
        for k in 0..self.each.len() {
            self.each[k].give_own_lock((edge_count + k) as u32)?;
        }
        Ok(())
    }

    /// The first process with more than `MAX_NEIGHBOURS` neighbours. Linear in processes.
    pub(crate) fn first_over(&self) -> Option<usize>
        ensures { IsFirstFailing (λ k. length (around_at self.now k).beside ≤ MAX_NEIGHBOURS) (length self.now) result }
    {
        for (k, around) in self.each.iter().enumerate() {
            if around.beside().len() > MAX_NEIGHBOURS {
                return Some(k);
            }
        }
        None
    }
}

fn neighbourhood_copies(
    alloc: Global,
    each: &[Neighbourhood],
) -> Result<Vec<Neighbourhood>, AllocError>
    ensures { IfOk result (λ copies. copies.items ≡ each.now) }
{
    let mut copies = Vec::with_capacity(alloc, each.len())?;
    for around in each {
        copies.push(around.copy(alloc)?)?;
    }
    Ok(copies)
}
