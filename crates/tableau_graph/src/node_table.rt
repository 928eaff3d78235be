ghost use Rattle.std.specs.Prelude.{◌≡◌, ◌++◌, ◌∷◌, [], ℕ, length, IfOk, OnErr, OnOk, MatchOption, Some, slice_get};
ghost use Rattle.tableau_graph.specs.NodeTable.{IsNumber, AreNumbers};
ghost use Rattle.tableau_graph.specs.Rules.{AreApart};

use pair_structure::Memory;
use std::alloc::Global;
use std::collections::BTreeMap;
use std::marker::Model;

/// Nodes that are equal where their order says so.
pub trait Node: Ord + Copy + Drop {
    ghost use Rattle.std.proofs.lemmas.Map.Lookups.{CmpEqualImpliesEq};

    ghost exact: { CmpEqualImpliesEq Self.cmp };
}

/// Nodes in the order of their numbers, and their numbers by the nodes. Contracts see the nodes.
#[derive(Drop)]
pub struct NodeTable<N: Node> {
    nodes: Vec<N>,
    numbers: BTreeMap<N, u64>,
}

impl<N: Node> Model for NodeTable<N> {
    ghost use Rattle.std.specs.Prelude.{List};
    ghost use Rattle.tableau_graph.specs.NodeTable.{IsTable};

    ghost Value = { List N };

    ghost view = { λ t. t.nodes.items };

    ghost invariant = { λ t. IsTable N.cmp t.nodes.items t.numbers };
}

impl<N: Node> NodeTable<N> {
    /// The table without nodes.
    pub fn new(alloc: Global) -> NodeTable<N>
        ensures { result ≡ [] }
    {
        NodeTable {
            nodes: Vec::new(alloc),
            numbers: BTreeMap::new(alloc),
        }
    }

    /// The nodes, in the order of their numbers.
    pub fn nodes(&self) -> &[N]
        ensures same { result.now ≡ self.now }
        ensures apart { AreApart self.now }
    {
        &self.nodes
    }

    /// Tells a proof that no node stands twice. It does nothing.
    pub(crate) fn tell_apart(&self)
        ensures { AreApart self.now }
    {
        let _nodes = self.nodes();
    }

    /// The nodes as a list of their own.
    pub fn into_nodes(self) -> Vec<N>
        ensures same { result.items ≡ self }
        ensures apart { AreApart self }
    {
        self.nodes
    }

    /// The number of the node, which gets the next one if it has none. At want of memory the table stays as it was. One look-up in the map, and
    /// a second for a new node.
    pub fn number(&mut self, node: N) -> Result<u64, Memory>
        ensures number { IfOk result (λ n. IsNumber self.old node self.new n) }
        ensures kept { OnErr result (self.new ≡ self.old) }
    {
        if let Some(n) = self.find(node) {
            return Ok(n);
        }
        let n = self.add(node)?;
        Ok(n)
    }

    fn find(&self, node: N) -> Option<u64>
        ensures { MatchOption result ((n : ℕ) → slice_get self.now n ≡ Some node → ⊥) (λ n. slice_get self.now n ≡ Some node) }
    {
        match self.numbers.get(&node) {
            Some(n) => Some(*n),
            None => None,
        }
    }

    fn add(&mut self, node: N) -> Result<u64, Memory>
        requires new { (n : ℕ) → slice_get self.old n ≡ Some node → ⊥ }
        ensures number { IfOk result (λ n. n ≡ length self.old) }
        ensures added { OnOk result (self.new ≡ self.old ++ node ∷ []) }
        ensures kept { OnErr result (self.new ≡ self.old) }
    {
        let n = self.nodes.len() as u64;
        self.nodes.push(node)?;
        match self.numbers.insert(node, n) {
            Ok(_) => Ok(n),
            Err(_) => {
                self.nodes.pop();
                Err(Memory)
            }
        }
    }

    /// The numbers of these nodes, in their order.
    pub(crate) fn number_each(&mut self, alloc: Global, nodes: &[N]) -> Result<Vec<u64>, Memory>
        ensures { IfOk result (λ numbers. AreNumbers self.old nodes.now self.new numbers.items) }
    {
        let mut numbers = Vec::with_capacity(alloc, nodes.len())?;
        for node in nodes {
            numbers.push(self.number(*node)?)?;
        }
        Ok(numbers)
    }
}
