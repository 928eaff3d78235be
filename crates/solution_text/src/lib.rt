//! The texts of solutions: read exactly, with the first bad line and its cause, and written in their one form; and whether a solution solves.
#![tactic(auto)]

mod failing;
mod item;
mod laws;
mod read;
mod reader;
mod solution;
mod take;
mod write;

pub use failing::first_failing;
pub use laws::{never_both, no_prefix, one_text, written_is_text};
pub use read::read_solution;
pub use solution::Solution;
pub use write::write_solution;
