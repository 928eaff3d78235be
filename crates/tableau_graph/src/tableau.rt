ghost use Rattle.std.specs.Prelude.{◌≡◌, ◌<◌, IfOk, length};
ghost use Rattle.pair_structure.specs.Role.{HasOneStart};
ghost use Rattle.tableau_graph.specs.Growing.{parts_of};
ghost use Rattle.tableau_graph.specs.Rules.{IsTableau};
ghost use Rattle.tableau_graph.specs.TableauParts.{IsWhole, edges_at};
ghost use Rattle.tableau_graph.specs.declared.breadth.Breadth.TheVariants.{OneSided};

use crate::growing::Growing;
use crate::{AndNode, Breadth, OrNode};
use closure_sets::Closure;
use pair_structure::{Memory, Role};
use std::alloc::Global;
use std::marker::Model;

/// The graph of AND and OR nodes over a closure and two roles, or a part of it (Emerson and Clarke 1982). It keeps copies of the three.
#[derive(Drop)]
pub struct Tableau {
    closure: Closure,
    a: Role,
    b: Role,
    breadth: Breadth,
    ands: Vec<AndNode>,
    ors: Vec<OrNode>,
    children: Vec<Vec<u64>>,
    successors: Vec<Vec<u64>>,
}

impl Model for Tableau {
    ghost use Rattle.tableau_graph.specs.Growing.{lists_of};
    ghost use Rattle.tableau_graph.specs.Rules.{IsTableau};
    ghost use Rattle.tableau_graph.specs.TableauParts.{TableauParts};

    ghost Value = { TableauParts };

    ghost view = { λ t. record { closure = t.closure; a = t.a; b = t.b; breadth = t.breadth; ands = t.ands.items; ors = t.ors.items; children = lists_of t.children.items; successors = lists_of t.successors.items } };

    ghost invariant = { λ t. IsTableau (record { closure = t.closure; a = t.a; b = t.b; breadth = t.breadth; ands = t.ands.items; ors = t.ors.items; children = lists_of t.children.items; successors = lists_of t.successors.items }) };
}

impl Tableau {
    /// The graph of the closure's roots over the two roles, each with one start. Each node is expanded once: an OR node by an expansion of its row at each end of an
    /// arc, an AND node in time linear in the closure.
    pub fn build(alloc: Global, c: &Closure, a: &Role, b: &Role) -> Result<Tableau, Memory>
        requires one_a { HasOneStart a.now }
        requires one_b { HasOneStart b.now }
        ensures closure { IfOk result (λ t. t.closure ≡ c.now) }
        ensures a { IfOk result (λ t. t.a ≡ a.now) }
        ensures b { IfOk result (λ t. t.b ≡ b.now) }
        ensures whole { IfOk result IsWhole }
        ensures tableau { IfOk result IsTableau }
    {
        Tableau::build_of(alloc, c, a, b, Breadth::Whole)
    }

    /// The same graph with the rows of one side alone: a part of it, which may lack what a structure needs. Where many E untils can be put off at
    /// once it has far fewer nodes.
    pub fn build_part(alloc: Global, c: &Closure, a: &Role, b: &Role) -> Result<Tableau, Memory>
        requires one_a { HasOneStart a.now }
        requires one_b { HasOneStart b.now }
        ensures closure { IfOk result (λ t. t.closure ≡ c.now) }
        ensures a { IfOk result (λ t. t.a ≡ a.now) }
        ensures b { IfOk result (λ t. t.b ≡ b.now) }
        ensures part { IfOk result (λ t. t.breadth ≡ OneSided) }
        ensures tableau { IfOk result IsTableau }
    {
        Tableau::build_of(alloc, c, a, b, Breadth::OneSided)
    }

    fn build_of(
        alloc: Global,
        c: &Closure,
        a: &Role,
        b: &Role,
        breadth: Breadth,
    ) -> Result<Tableau, Memory>
        requires one_a { HasOneStart a.now }
        requires one_b { HasOneStart b.now }
        ensures closure { IfOk result (λ t. t.closure ≡ c.now) }
        ensures a { IfOk result (λ t. t.a ≡ a.now) }
        ensures b { IfOk result (λ t. t.b ≡ b.now) }
        ensures breadth { IfOk result (λ t. t.breadth ≡ breadth) }
        ensures tableau { IfOk result IsTableau }
    {
        let closure = c.copy(alloc)?;
        let role_a = a.copy(alloc)?;
        let role_b = b.copy(alloc)?;
        let grown = grown(alloc, c, a, b, breadth)?;
        Ok(Tableau {
            closure,
            a: role_a,
            b: role_b,
            breadth: grown.breadth,
            ands: grown.ands.into_nodes(),
            ors: grown.ors.into_nodes(),
            children: grown.children,
            successors: grown.successors,
        })
    }

    /// Tells a proof that this is a tableau by the rules. It does nothing.
    pub fn tell_rules(&self)
        ensures { IsTableau self.now }
    {
        let _ors = &self.ors;
    }

    /// The closure of which rows are sets.
    pub fn closure(&self) -> &Closure
        ensures { result.now ≡ self.now.closure }
    {
        &self.closure
    }

    /// The role of side a.
    pub fn role_a(&self) -> &Role
        ensures { result.now ≡ self.now.a }
    {
        &self.a
    }

    /// The role of side b.
    pub fn role_b(&self) -> &Role
        ensures { result.now ≡ self.now.b }
    {
        &self.b
    }

    /// Which rows its OR nodes offer.
    pub fn breadth(&self) -> Breadth
        ensures { result ≡ self.now.breadth }
    {
        self.breadth
    }

    /// The AND nodes, in the order of their numbers.
    pub fn ands(&self) -> &[AndNode]
        ensures ands { result.now ≡ self.now.ands }
        ensures tableau { IsTableau self.now }
    {
        &self.ands
    }

    /// The OR nodes, in the order of their numbers; the root is node 0.
    pub fn ors(&self) -> &[OrNode]
        ensures ors { result.now ≡ self.now.ors }
        ensures tableau { IsTableau self.now }
    {
        &self.ors
    }

    /// The AND nodes that an OR node offers: one for each pair that it leads to and each row that is offered of its row there.
    pub fn children(&self, or: u64) -> &[u64]
        requires { or < length self.now.ors }
        ensures { result.now ≡ edges_at self.now.children or }
    {
        &self.children[or as usize]
    }

    /// The OR nodes that an AND node leads to: one for each `EXs h` of its row, in the rising order of these members.
    pub fn successors(&self, and: u64) -> &[u64]
        requires { and < length self.now.ands }
        ensures { result.now ≡ edges_at self.now.successors and }
    {
        &self.successors[and as usize]
    }
}

fn grown(
    alloc: Global,
    c: &Closure,
    a: &Role,
    b: &Role,
    breadth: Breadth,
) -> Result<Growing, Memory>
    requires one_a { HasOneStart a.now }
    requires one_b { HasOneStart b.now }
    ensures breadth { IfOk result (λ g. g.breadth ≡ breadth) }
    ensures tableau { IfOk result (λ g. IsTableau (parts_of c.now a.now b.now g)) }
{
    let mut growing = Growing::start(alloc, c, a, b, breadth)?;
    while growing.expand_next(alloc, c, a, b)? {}
    Ok(growing)
}
