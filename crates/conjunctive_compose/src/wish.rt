use pair_structure::Side;

/// What a process is asked to do: an arc of its role by its number, and which of the permitted commands it takes on each of its edges,
/// counted round.
#[derive(Clone, Copy, Debug, PartialEq, Eq)]
pub struct Wish {
    pub process: u32,
    pub arc: u32,
    pub pick: u64,
}

/// What a wish is answered.
#[derive(Clone, Copy, Debug, PartialEq, Eq)]
pub enum StepAnswer {
    /// The process took the arc, and its edges the values of the commands.
    Moved,
    /// The arc does not leave the process's local state, which is this.
    Away { local: u8 },
    /// The arc leaves it, and this is the first neighbour, by process number, that does not permit it.
    Blocked { neighbour: u32 },
}

/// A move of a pair: which side took it, and the pair state after it.
#[derive(Clone, Copy, Debug, PartialEq, Eq)]
pub struct PairMove {
    pub side: Side,
    pub state: u64,
}
