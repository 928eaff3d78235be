ghost use Rattle.std.specs.Prelude.{◌≡◌, ◌<◌, ◌↔◌, IsTrue, length};
ghost use Rattle.deletion_rules.specs.Deletion.{LivesOr};
ghost use Rattle.deletion_rules.specs.Pruned.{rank_at, lives_at, AreRanksOf};
ghost use Rattle.deletion_rules.specs.inside.Tests.{lives_or};
ghost use Rattle.tableau_graph.specs.Graph.{graph_of};

use crate::deleting;
use std::marker::Model;
use tableau_graph::Tableau;

/// A tableau, the nodes that no rule deletes, and the ranks of their strong untils. Contracts see the three.
#[derive(Drop)]
pub struct Ranks {
    pub(crate) tableau: Tableau,
    pub(crate) lives: Vec<bool>,
    pub(crate) table: Vec<Vec<Option<u64>>>,
}

impl Model for Ranks {
    ghost use Rattle.deletion_rules.specs.Marks.{lists_of};
    ghost use Rattle.deletion_rules.specs.Pruned.{AreRanksOf, RankParts};

    ghost Value = { RankParts };

    ghost view = { λ r. record { tableau = r.tableau; lives = r.lives.items; table = lists_of r.table.items } };

    ghost invariant = { λ r. AreRanksOf (record { tableau = r.tableau; lives = r.lives.items; table = lists_of r.table.items }) };
}

impl Ranks {
    /// The tableau.
    pub fn tableau(&self) -> &Tableau
        ensures same { result.now ≡ self.now.tableau }
        ensures ranks { AreRanksOf self.now }
    {
        &self.tableau
    }

    /// Whether the AND node is left.
    pub fn lives_and(&self, and: u64) -> bool
        requires { and < length self.now.tableau.ands }
        ensures { result ≡ lives_at self.now and }
    {
        self.lives[and as usize]
    }

    /// Whether the OR node is left: some child of it is.
    pub fn lives_or(&self, or: u64) -> bool
        requires { or < length self.now.tableau.ors }
        ensures { IsTrue result ↔ LivesOr (graph_of self.now.tableau) (lives_at self.now) or }
    {
        self.has_living_child(or)
    }

    /// The same by the list of the nodes that are left.
    fn has_living_child(&self, or: u64) -> bool
        requires { or < length self.now.tableau.ors }
        ensures { result ≡ lives_or self.now.tableau self.now.lives or }
    {
        deleting::lives_or(&self.tableau, &self.lives, or)
    }

    /// The rank of the member at the node, the least with which it is fulfilled there: none exactly where the node is
    /// deleted, or the member is no strong until of its row.
    pub fn rank(&self, and: u64, member: u32) -> Option<u64>
        ensures { result ≡ rank_at self.now and member }
    {
        deleting::rank_at(&self.table, and, member)
    }
}
