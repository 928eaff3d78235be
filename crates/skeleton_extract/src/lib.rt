//! The commands of a pair structure: what each arc of a side may do, by where the other side is and by the value that the two share.
#![tactic(auto)]

mod arc_numbers;
mod arranging;
mod command;
mod extraction;
mod laws;
mod permission;
mod skeleton;
mod skeleton_text;

pub use command::Command;
pub use extraction::extract;
pub use laws::{command_moves, moves_back, one_pair_state};
pub use skeleton::Skeleton;
pub use skeleton_text::write_skeleton;
