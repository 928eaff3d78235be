//! Firing a system from many callers: the locks of a neighbourhood, what is read under them, the decision, and its reply.
#![tactic(auto)]

mod blank;
mod closing;
mod deciding;
mod firing;
mod gate;
mod gathering;
mod joining;
mod laws;
mod lists;
mod locking;
mod looking;
mod opening;
mod pass;
mod reading;
mod reply;

pub use closing::CloseFault;
pub use firing::Hall;
pub use gate::{Gate, OpenGate};
pub use laws::report_is_lawful;
pub use looking::{Looked, PairLooked};
pub use opening::HallFault;
pub use pass::Pass;
pub use reply::Reply;
