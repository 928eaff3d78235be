ghost use Rattle.tableau_graph.specs.inside.NodeOrder.{and_exact, or_exact};

use crate::node_table::Node;
use crate::{AndNode, OrNode};

impl Node for AndNode {
    ghost exact = { and_exact };
}

impl Node for OrNode {
    ghost exact = { or_exact };
}
