//! The text of certificates against deadlock, read exactly, with the first bad line and its cause.
#![tactic(auto)]

mod item;
mod key;
mod laws;
mod member;
mod read;
mod reader;
mod shape;
mod stars;
mod take;

pub use laws::{never_both, no_prefix, one_text, one_value};
pub use read::read_certificate;
