//! A load that anyone can repeat: philosophers on a grid or a ring, fired by one caller, and a summary of the one report.
#![tactic(auto)]

mod big;
mod edges;
mod limits;
mod locals;
mod pairs;
mod philosopher;
mod processes;
mod structures;
mod summary;
mod system;

pub use big::write_big;
pub use limits::{MIN_PROCESSES, is_in_limits};
