//! Laws of the expansion, stated where the crates above can cite them; their bodies do nothing.

ghost use Rattle.closure_sets.specs.Cover.{ExpansionIsFull, OneSidedIsFull, ExpansionCovers};

/// The rows of an expansion are fully expanded.
pub fn expansion_is_full()
    ensures { ExpansionIsFull }
{}

/// The rows of one side are fully expanded.
pub fn one_sided_is_full()
    ensures { OneSidedIsFull }
{}

/// The rows of an expansion cover.
pub fn expansion_covers()
    ensures { ExpansionCovers }
{}
