ghost use Rattle.deletion_rules.specs.inside.PositionOrder.{position_exact};

use tableau_graph::Node;

/// Where an unravelling stands: an AND node, and the place of the strong until that is pursued there among those that take turns.
#[derive(Clone, Copy, Debug, PartialEq, Eq, PartialOrd, Ord)]
pub struct Position {
    pub node: u64,
    pub place: u64,
}

impl Node for Position {
    ghost exact = { position_exact };
}
