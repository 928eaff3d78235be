/// One of the two processes of a pair.
#[derive(Clone, Copy, Debug, PartialEq, Eq, PartialOrd, Ord, Hash)]
pub enum Side {
    A,
    B,
}

/// An arc between two local states of a role, by their numbers; a free arc is one that no other process may bar.
#[derive(Clone, Copy, Debug, PartialEq, Eq)]
pub struct LocalArc {
    pub from: u8,
    pub to: u8,
    pub free: bool,
}

/// A move of a pair structure, from a state to a state, by one side. Moves are ordered by `from`, then a before b, then `to`.
#[derive(Clone, Copy, Debug, PartialEq, Eq, PartialOrd, Ord, Hash)]
pub struct Move {
    pub from: u64,
    pub side: Side,
    pub to: u64,
}
