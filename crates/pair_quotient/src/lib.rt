//! The quotient of a pair structure by bisimulation: one state for each class of states that no formula tells apart.
#![tactic(auto)]

mod blocks;
mod class_moves;
mod electing;
mod members;
mod moving;
mod naming;
mod numbering;
mod quotient;
mod refining;
mod rousing;
mod shrinking;

pub use shrinking::shrink;
