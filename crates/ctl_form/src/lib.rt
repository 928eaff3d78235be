//! Formulas of CTL over the two processes of a pair: what they say of a structure, and what a kind of pairs asks.
#![tactic(auto)]

mod bit_row;
mod clauses;
mod code;
mod conjuncts;
mod cursors;
mod formula;
mod holds;
mod joint;
mod laws;
mod limits;
mod members;
mod next_row;
mod normal;
mod normal_fault;
mod noting;
mod operators;
mod pair_spec;
mod part;
mod predecessors;
mod solving;
mod until_row;
mod walking;

pub use bit_row::BitRow;
pub use clauses::Clauses;
pub use conjuncts::whole;
pub use formula::Formula;
pub use holds::holds_at;
pub use laws::{
    always_expands, always_goes_on, each_unless_expands, each_until_expands, normal_means,
    some_unless_expands, some_until_expands, sometime_expands, truth_is_decided, until_expands,
    walk_of_known_does_nothing,
};
pub use limits::MAX_MEMBERS;
pub use normal::Normal;
pub use normal_fault::NormalFault;
pub use pair_spec::PairSpec;
pub use part::Part;
pub use predecessors::Predecessors;
pub use solving::solves;
