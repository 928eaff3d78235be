//! The commands of the program.
#![tactic(auto)]

mod answer;
mod call;
mod checking;
mod command;
mod failing;
mod laws;
mod migrating;
mod proving;
mod reading;
mod refusal;
mod replaying;
mod run_text;
mod running;
mod showing;
mod solving;
mod status;
mod stop;
mod synthesis;
mod taking;
mod third;
mod threaded;
mod verdict_text;

pub use call::plan;
pub use command::is_run;
pub use laws::{names_commands, one_answer, one_system};
pub use threaded::top;
