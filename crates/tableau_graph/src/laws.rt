//! Laws of tableaux, stated where the crates above can cite them; their bodies do nothing.

ghost use Rattle.tableau_graph.specs.Graph.{TableauIsGraph, TableauFollowsArcs, TableauStarts, TableauHasChildren, TableauCovers, TableauRootCovers};

use closure_sets::{expansion_covers, expansion_is_full, one_sided_is_full};

/// A tableau's rows are full, its seeds are what the next-times carry, and children hold them.
pub fn tableau_is_graph()
    ensures { TableauIsGraph }
{
    expansion_is_full();
    one_sided_is_full();
}

/// A successor's children stand at the ends of the arcs of its side.
pub fn tableau_follows_arcs()
    ensures { TableauFollowsArcs }
{}

/// The root's children stand where both roles start.
pub fn tableau_starts()
    ensures { TableauStarts }
{}

/// A successor of a whole tableau has a child for each arc and each row of the expansion there.
pub fn tableau_has_children()
    ensures { TableauHasChildren }
{}

/// In a whole tableau a successor's children cover the states that moves of its side lead to.
pub fn tableau_covers()
    ensures { TableauCovers }
{
    expansion_covers();
}

/// In a whole tableau the root's children cover where a structure begins.
pub fn tableau_root_covers()
    ensures { TableauRootCovers }
{
    expansion_covers();
}
