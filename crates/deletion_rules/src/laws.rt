//! Laws of deletion and unravelling, stated where the crates above can cite them; their bodies do nothing.

ghost use Rattle.deletion_rules.specs.Laws.{DeadIsUnsatisfiable, MetAreSupported, RanksAreBounded, RemovalKeepsMet, SupportRises};
ghost use Rattle.deletion_rules.specs.Satisfying.{KeptIsSatisfiable, UnravelledSatisfies};
ghost use Rattle.deletion_rules.specs.Unravel.{RowsAreTrue};

use tableau_graph::{tableau_covers, tableau_is_graph, tableau_root_covers};

/// In a structure that is unravelled from nodes, each formula of a node's row is true at the node's states.
pub fn rows_are_true()
    ensures { RowsAreTrue }
{
    tableau_is_graph();
}

/// A node that a state of some structure meets is supported, as long as all that is met lives.
pub fn met_are_supported()
    ensures { MetAreSupported }
{
    tableau_is_graph();
    tableau_covers();
}

/// The rank of a strong until at a node that a state meets is at most its depth, or its least path, at that state.
pub fn ranks_are_bounded()
    ensures { RanksAreBounded }
{
    tableau_is_graph();
    tableau_covers();
}

/// Nodes that are not supported may be deleted: what is met lives on.
pub fn removal_keeps_met()
    ensures { RemovalKeepsMet }
{
    tableau_is_graph();
    tableau_covers();
}

/// What is not supported under some living nodes is not so under fewer.
pub fn support_rises()
    ensures { SupportRises }
{}

/// Where the root is deleted, no structure over the roles makes its members true at the first state.
pub fn dead_is_unsatisfiable()
    ensures { DeadIsUnsatisfiable }
{
    tableau_is_graph();
    tableau_root_covers();
}

/// A structure that is unravelled from a tableau satisfies the conjuncts, if its state 0 is a child of the root.
pub fn unravelled_satisfies()
    ensures { UnravelledSatisfies }
{
    tableau_is_graph();
}

/// From nodes of which the rules delete none, with a child of the root among them, there is a structure that satisfies the conjuncts.
pub fn kept_is_satisfiable()
    ensures { KeptIsSatisfiable }
{
    tableau_is_graph();
}
