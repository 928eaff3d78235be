use closure_sets::Row;
use pair_structure::Side;

/// An AND node: a local pair, and a fully expanded row of members that are to be true there.
#[derive(Clone, Copy, Debug, PartialEq, Eq, PartialOrd, Ord)]
pub struct AndNode {
    pub a: u8,
    pub b: u8,
    pub row: Row,
}

/// An OR node: members that are to be true after a move of its side from the local pair; the root has no side, and stands for the start.
#[derive(Clone, Copy, Debug, PartialEq, Eq, PartialOrd, Ord)]
pub struct OrNode {
    pub side: Option<Side>,
    pub a: u8,
    pub b: u8,
    pub row: Row,
}
