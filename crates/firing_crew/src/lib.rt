//! Callers that fire a composed system each from a thread of its own, by a rule that a seed and a stored policy decide.
#![tactic(auto)]

mod alone;
mod choice;
mod draw;
mod fault;
mod jobs;
mod laws;
mod limits;
mod numbers;
mod orders;
mod policy;
mod threads;
mod work;
mod worker;

pub use alone::solo;
pub use draw::{next as next_word, start as first_state};
pub use fault::CrewFault;
pub use laws::never_away;
pub use limits::{MAX_CALLERS, MAX_ROOM};
pub use orders::Orders;
pub use policy::{Chooser, Policy};
pub use threads::{crew, crew_at};
pub(crate) use worker::Worker;
