ghost use Rattle.std.specs.Prelude.{◌≡◌, ◌↔◌, ◌≤◌, ◌++◌, ◌∷◌, [], IsTrue, IfOk, Contains};
ghost use Rattle.interconnection.specs.Graph.{degree_of, AreJoined};

use crate::Edge;
use pair_structure::Lists;
use std::alloc::{AllocError, Global};
use std::marker::Model;

/// A list of edges that grows, to be found by their processes. Contracts see it as the list.
#[derive(Drop)]
pub struct Edges {
    list: Vec<Edge>,
    beside: Lists<u32>,
}

impl Model for Edges {
    ghost use Rattle.std.specs.Prelude.{List};
    ghost use Rattle.interconnection.specs.declared.parts.Edge.{Edge};
    ghost use Rattle.interconnection.specs.inside.EdgeTable.{IsEdgeTable};

    ghost Value = { List Edge };

    ghost view = { λ e. e.list.items };

    ghost invariant = { λ e. IsEdgeTable e.list.items e.beside };
}

impl Edges {
    /// No edge yet.
    pub fn new(alloc: Global) -> Edges
        ensures { result ≡ [] }
    {
        Edges {
            list: Vec::new(alloc),
            beside: Lists::new(alloc),
        }
    }

    /// The edges with one more.
    pub fn with(self, alloc: Global, edge: Edge) -> Result<Edges, AllocError>
        ensures { IfOk result (λ made. made ≡ self ++ edge ∷ []) }
    {
        let Edges {
            mut list,
            mut beside,
        } = self;
        list.push(edge)?;
        beside.push(alloc, edge.a as usize, edge.b)?;
        if edge.a == edge.b {
            return Ok(Edges { list, beside });
        }
        beside.push(alloc, edge.b as usize, edge.a)?;
        Ok(Edges { list, beside })
    }

    /// The edges, in the order that they came.
    pub fn into_vec(self) -> Vec<Edge>
        ensures { result.items ≡ self }
    {
        self.list
    }

    /// Whether an edge is between the two processes. Linear in the edges of one.
    pub fn are_joined(&self, p: u32, q: u32) -> bool
        ensures { IsTrue result ↔ AreJoined self.now p q }
    {
        has(self.beside.list(p as usize), q)
    }

    /// Whether the process has so many edges.
    pub fn is_full(&self, process: u32, most: usize) -> bool
        ensures { IsTrue result ↔ (most ≤ degree_of self.now process) }
    {
        self.beside.list(process as usize).len() >= most
    }
}

fn has(list: &[u32], process: u32) -> bool
    ensures { IsTrue result ↔ Contains list.now process }
{
    list.contains(&process)
}
