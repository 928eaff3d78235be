//! Fully expanded rows of a closure's members: at each state with the label where the seed is true, some row is wholly true.
#![tactic(auto)]

mod closure;
mod expanding;
mod found;
mod laws;
mod marks;
mod row;
mod ways;

pub use closure::Closure;
pub use expanding::{full_rows, one_sided_rows};
pub use laws::{expansion_covers, expansion_is_full, one_sided_is_full};
pub use row::Row;
