use pair_structure::{Name, Side};

/// A process: its name, the number of its role, and the local state where it starts, which is one of the role's starts.
#[derive(Debug, Drop)]
pub struct Process {
    pub name: Name,
    pub role: u8,
    pub start: u8,
}

/// Two processes that share a value, in the way of a kind: the process on side a, that on side b, and the kind, by their numbers.
#[derive(Clone, Copy, Debug, PartialEq, Eq)]
pub struct Edge {
    pub a: u32,
    pub b: u32,
    pub kind: u8,
}

/// A neighbour of a process: its number, that of the edge between the two, and the side of the edge on which the asked process stands.
#[derive(Clone, Copy, Debug, PartialEq, Eq)]
pub struct Beside {
    pub process: u32,
    pub edge: u32,
    pub side: Side,
}
