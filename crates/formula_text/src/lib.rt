//! The texts of formulas: which tokens spell which formula, read exactly, and written in one canonical form.
#![tactic(auto)]

mod chain;
mod formula_fault;
mod formula_parser;
mod formula_reader;
mod formula_writer;
mod laws;
mod local_set;
mod long;
mod sign;
mod token;
mod token_sign;

pub use formula_fault::FormulaFault;
pub use formula_reader::read_formula;
pub use formula_writer::write_formula;
pub use laws::{canonical_is_formula, is_spelled_once};
pub use local_set::LocalSet;
pub use long::is_long;
pub use sign::{Leaf, Mark, Prefix, Sign};
pub use token::tokens_of;
