//! Why a text is refused, and what a text of lines stands for.
#![tactic(auto)]

mod cause;
mod line_fault;

pub use cause::{TextCause, TextFault, cause_word};
pub use line_fault::LineFault;
