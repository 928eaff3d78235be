//! The texts of specifications: read exactly, with the first bad line and its cause, and written in one canonical form.
#![tactic(auto)]

mod added;
mod clause;
mod ended;
mod format;
mod graph_cause;
mod grown;
mod item;
mod laws;
mod line;
mod names;
mod open_role;
mod pairs;
mod place;
mod process_cause;
mod read;
mod role_cause;
mod said;
mod set_cause;
mod sets;
mod spec;
mod spec_laws;
mod spec_writer;
mod take;

pub use format::{FIRST_NEIGHBOURS, FIRST_PROCESSES, Format, MAX_SETS};
pub use formula_text::{
    FormulaFault, Leaf, LocalSet, Mark, Prefix, Sign, canonical_is_formula, is_spelled_once,
};
pub use laws::never_both;
pub use read::read_spec;
pub use spec::Spec;
pub use spec_laws::canonical_is_spec_text;
pub use spec_writer::write_spec;
pub use text_cause::{TextCause, TextFault};
