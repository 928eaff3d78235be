//! Certificates against deadlock: stars, their steps, and whether a certificate is accepted.
#![tactic(auto)]

mod begins;
mod calm;
mod centre;
mod certificate;
mod closed;
mod fitting;
mod laws;
mod leaf;
mod leaves_go;
mod members;
mod numbers;
mod parts;
mod reached;
mod room;
mod shape_index;
mod star;
mod starts;
mod step_place;
mod verdict;
mod waits;
mod walk;

pub use certificate::Certificate;
pub use laws::{accepted_goes_on, one_verdict, steps_are};
pub use members::Members;
pub use star::Star;
pub use verdict::{Verdict, check_certificate};
