//! The graph of processes: which processes share a value, in the way of which kind, and who stands beside whom.
#![tactic(auto)]

mod adjacency;
mod choice;
mod copies;
mod edge_check;
mod edges;
mod fault;
mod labels;
mod laws;
mod limits;
mod neighbourhood;
mod network;
mod part_check;
mod parts;
mod processes;
mod shape;
mod shapes;

pub use edges::Edges;
pub use fault::NetworkFault;
pub use laws::{
    few_edges, few_locks, locks_stand_once, neighbours_are_mutual, next_shapes_are_all,
    shared_locks_join,
};
pub use limits::{MAX_KINDS, MAX_NEIGHBOURS, MAX_PROCESSES, MAX_ROLES};
pub use network::Network;
pub use parts::{Beside, Edge, Process};
pub use processes::Processes;
pub use shape::Shape;
