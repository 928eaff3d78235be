//! The composed system: processes on a graph, each edge with the commands of its kind's pair structure; whole states, and one firing.
#![tactic(auto)]

mod laws;
mod limits;
mod making;
mod next_pair;
mod peel;
mod peeling;
mod step;
mod system;
mod whole;
mod wish;

pub use laws::{
    equal_counts_equal_locals, firing_keeps_pairs, firing_keeps_peel_order, holds_longer,
    holds_within, look_shows_projection, near_decides, near_decides_answers, one_pair_state,
    order_stays, others_stay, peel_order_enables, projection_counts, projection_is_path,
    reachable_is_proper, run_grows, start_is_proper, told_stays,
};
pub use limits::MAX_CALLER;
pub use system::System;
pub use whole::Whole;
pub use wish::{PairMove, StepAnswer, Wish};
