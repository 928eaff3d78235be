//! The graph of AND and OR nodes from which pair structures are unravelled.
#![tactic(auto)]

mod breadth;
mod children;
mod growing;
mod laws;
mod node_order;
mod node_table;
mod nodes;
mod pushing;
mod some_next;
mod successors;
mod tableau;

pub use breadth::Breadth;
pub use laws::{
    tableau_covers, tableau_follows_arcs, tableau_has_children, tableau_is_graph,
    tableau_root_covers, tableau_starts,
};
pub use node_table::{Node, NodeTable};
pub use nodes::{AndNode, OrNode};
pub use pushing::push_some;
pub use some_next::is_some_next;
pub use tableau::Tableau;
