ghost use Rattle.std.specs.Prelude.{◌≡◌, ◌<◌, ◌↔◌, ℕ, Contains, IfOk, OnOk, length, true, false};
ghost use Rattle.closure_sets.specs.Full.{Has};
ghost use Rattle.closure_sets.specs.Row.{set_of};
ghost use Rattle.pair_structure.specs.Role.{IsRole, HasOneStart, first_start};
ghost use Rattle.tableau_graph.specs.Growing.{parts_of, room_of};
ghost use Rattle.tableau_graph.specs.Rules.{FollowsRules, IsTableau};
ghost use Rattle.tableau_graph.specs.TableauParts.{and_at, or_at};

use crate::children::{nodes_at, pairs_of};
use crate::node_table::NodeTable;
use crate::successors::next_nodes;
use crate::{AndNode, Breadth, OrNode};
use closure_sets::{Closure, Row};
use pair_structure::{Memory, Role};
use std::alloc::Global;

/// A tableau that grows: nodes are expanded in the order of their numbers, so that the lists of edges say how far it is.
#[derive(Drop)]
pub(crate) struct Growing {
    pub(crate) breadth: Breadth,
    pub(crate) ands: NodeTable<AndNode>,
    pub(crate) ors: NodeTable<OrNode>,
    pub(crate) children: Vec<Vec<u64>>,
    pub(crate) successors: Vec<Vec<u64>>,
}

impl Growing {
    /// The root alone.
    pub(crate) fn start(
        alloc: Global,
        c: &Closure,
        a: &Role,
        b: &Role,
        breadth: Breadth,
    ) -> Result<Growing, Memory>
        requires one_a { HasOneStart a.now }
        requires one_b { HasOneStart b.now }
        ensures breadth { IfOk result (λ g. g.breadth ≡ breadth) }
        ensures rules { IfOk result (λ g. FollowsRules (parts_of c.now a.now b.now g)) }
    {
        c.tell_members();
        tell_role(a);
        tell_role(b);
        let mut ors = NodeTable::new(alloc);
        ors.number(root_node(c, a, b))?;
        Ok(Growing {
            breadth,
            ands: NodeTable::new(alloc),
            ors,
            children: Vec::new(alloc),
            successors: Vec::new(alloc),
        })
    }

    /// Expands a node that is not expanded yet; false where there is none.
    pub(crate) fn expand_next(
        &mut self,
        alloc: Global,
        c: &Closure,
        a: &Role,
        b: &Role,
    ) -> Result<bool, Memory>
        requires rules { FollowsRules (parts_of c.now a.now b.now self.old) }
        ensures breadth { self.new.breadth ≡ self.old.breadth }
        ensures rules { OnOk result (FollowsRules (parts_of c.now a.now b.now self.new)) }
        ensures done { IfOk result (λ more. more ≡ false → IsTableau (parts_of c.now a.now b.now self.new)) }
        ensures room { IfOk result (λ more. more ≡ true → room_of self.new < room_of self.old) }
    {
        if self.children.len() < self.ors.nodes().len() {
            self.expand_or(alloc, c, a, b)?;
            return Ok(true);
        }
        if self.successors.len() < self.ands.nodes().len() {
            self.expand_and(alloc, c, a, b)?;
            return Ok(true);
        }
        Ok(false)
    }

    /// The OR node that is expanded next.
    fn open_or(&self) -> OrNode
        requires { length self.now.children.items < length self.now.ors }
        ensures { result ≡ or_at self.now.ors (length self.now.children.items) }
    {
        self.ors.nodes()[self.children.len()]
    }

    /// The AND node that is expanded next.
    fn open_and(&self) -> AndNode
        requires { length self.now.successors.items < length self.now.ands }
        ensures { result ≡ and_at self.now.ands (length self.now.successors.items) }
    {
        self.ands.nodes()[self.successors.len()]
    }

    fn expand_or(&mut self, alloc: Global, c: &Closure, a: &Role, b: &Role) -> Result<(), Memory>
        requires open { length self.old.children.items < length self.old.ors }
        requires rules { FollowsRules (parts_of c.now a.now b.now self.old) }
        ensures breadth { self.new.breadth ≡ self.old.breadth }
        ensures rules { OnOk result (FollowsRules (parts_of c.now a.now b.now self.new)) }
        ensures room { OnOk result (room_of self.new < room_of self.old) }
    {
        let node = self.open_or();
        let pairs = pairs_of(alloc, a, b, &node)?;
        let nodes = nodes_at(alloc, c, self.breadth, &pairs, &node.row)?;
        let numbers = self.ands.number_each(alloc, &nodes)?;
        self.ands.tell_apart();
        self.children.push(numbers)?;
        Ok(())
    }

    fn expand_and(&mut self, alloc: Global, c: &Closure, _a: &Role, _b: &Role) -> Result<(), Memory>
        requires open { length self.old.successors.items < length self.old.ands }
        requires rules { FollowsRules (parts_of c.now _a.now _b.now self.old) }
        ensures breadth { self.new.breadth ≡ self.old.breadth }
        ensures rules { OnOk result (FollowsRules (parts_of c.now _a.now _b.now self.new)) }
        ensures room { OnOk result (room_of self.new < room_of self.old) }
    {
        let node = self.open_and();
        let nodes = next_nodes(alloc, c, &node)?;
        let numbers = self.ors.number_each(alloc, &nodes)?;
        self.ors.tell_apart();
        self.successors.push(numbers)?;
        Ok(())
    }
}

fn root_node(c: &Closure, a: &Role, b: &Role) -> OrNode
    ensures side { result.side ≡ None }
    ensures a { result.a ≡ first_start a.now }
    ensures b { result.b ≡ first_start b.now }
    ensures seed { (j : ℕ) → Has (set_of result.row.words) j ↔ Contains c.now.roots j }
{
    OrNode {
        side: None,
        a: a.start(),
        b: b.start(),
        row: root_row(c),
    }
}

/// The roots of all conjuncts.
fn root_row(c: &Closure) -> Row
    ensures { (j : ℕ) → Has (set_of result.words) j ↔ Contains c.now.roots j }
{
    c.tell_members();
    let mut row = Row::empty();
    for root in c.roots() {
        row.add(*root);
    }
    row
}

/// Tells a proof that a role is one. It does nothing else.
fn tell_role(role: &Role)
    ensures { IsRole role.now }
{
    let _locals = role.locals();
}
