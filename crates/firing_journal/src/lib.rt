//! Journals of firings: their text, read and written; replayed from the start of a system; projected on an edge. Reports: a journal and
//! what each caller was told.
#![tactic(auto)]

mod asked;
mod item;
mod journal;
mod judge;
mod laws;
mod outcome;
mod projection;
mod read;
mod replaying;
mod report;
mod reporting;
mod write;

pub use asked::Asked;
pub use journal::{Entry, Journal};
pub use laws::{has_one_text, is_read_back};
pub use outcome::Replay;
pub use projection::project;
pub use read::read_journal;
pub use replaying::replay;
pub use report::Report;
pub use reporting::write_report;
pub use write::write_journal;
