//! Roles and pair structures: the finite graphs that a pair of processes runs over.
#![tactic(auto)]

mod arc_table;
mod label_index;
mod label_lists;
mod limits;
mod lists;
mod memory;
mod move_check;
mod move_order;
mod moves_of;
mod name;
mod role;
mod role_fault;
mod side;
mod sides;
mod start_check;
mod starts;
mod structure;
mod structure_check;
mod structure_fault;

pub use limits::{MAX_ARCS, MAX_LOCALS};
pub use lists::Lists;
pub use memory::Memory;
pub use move_order::arrange;
pub use name::{Name, NameFault, is_name, push_name};
pub use role::Role;
pub use role_fault::RoleFault;
pub use side::{LocalArc, Move, Side};
pub use sides::{arcs_of, local_of, opposite, role_of, with_local};
pub use structure::PairStructure;
pub use structure_fault::StructureFault;
