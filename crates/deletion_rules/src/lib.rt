//! Deletion of nodes of a tableau, with ranks, and the law of what is unravelled from those that are left.
#![tactic(auto)]

mod cursors;
mod deleting;
mod edges;
mod lasting;
mod laws;
mod marking;
mod position;
mod pruning;
mod ranks;
mod reaching;
mod table;
mod target;
mod thinning;
mod visiting;

pub use laws::{
    dead_is_unsatisfiable, kept_is_satisfiable, met_are_supported, ranks_are_bounded,
    removal_keeps_met, rows_are_true, support_rises, unravelled_satisfies,
};
pub use position::Position;
pub use pruning::{Pruned, prune};
pub use ranks::Ranks;
pub use target::{Target, targets_of};
