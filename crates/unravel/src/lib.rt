//! Pair structures unravelled from what the rules of deletion leave of a tableau, and synthesis.
#![tactic(auto)]

mod child;
mod growing;
mod joining;
mod keeper;
mod next_time;
mod pursuit;
mod step;
mod synthesis;
mod tableau;
mod turns;
mod unravelling;

pub use synthesis::{Outcome, synthesize};
pub use unravelling::unravelled;
