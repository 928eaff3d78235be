//! Samples for tests, spelled as short texts: roles, formulas, kinds and closures as the lines of a specification, structures by their
//! labels and moves, processes and edges by their numbers.
#![tactic(auto)]

mod graphs;
mod kinds;
mod structures;
mod systems;
mod table;
mod texts;
mod words;

pub use graphs::{edges, processes};
pub use kinds::{
    any_role, closure, conjuncts, first_kind, first_role, formula, normal, pair, role, spec,
};
pub use structures::{labels, moves, structure};
pub use systems::system;
pub use table::differing;
pub use texts::{
    BOUND, EITHER, EITHER_TURN, FAIR, FIRST, FOUR, LAMP, LAST, PHIL, PRIOR, TURN, UNBARRED,
    to_lines, to_slashes,
};
pub use words::{byte, cut, long, number};
