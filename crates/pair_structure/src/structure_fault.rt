use thiserror::Error;

/// Why states and moves are no structure over two roles. The order of the variants is the order of refusals: the first that stands is
/// answered, and of one kind the lowest number; want of memory may come in place of any.
#[derive(Clone, Copy, Debug, PartialEq, Eq, Error)]
pub enum StructureFault {
    /// There is no state.
    #[error("no state")]
    Empty,
    /// There are fewer states than start states, or a start state has another label.
    #[error("the first states are not labelled with the starts")]
    Start,
    /// The label of the state names no local state.
    #[error("the label of state {state} names no local state")]
    LocalRange { state: u64 },
    /// An end of the move is no state.
    #[error("move {move_no} has an end that is no state")]
    MoveRange { move_no: u64 },
    /// The move's side has no such arc.
    #[error("move {move_no} follows no arc")]
    NotAnArc { move_no: u64 },
    /// The local state of the other side changes.
    #[error("move {move_no} changes the other side")]
    OtherSideMoved { move_no: u64 },
    /// The move does not come after the one before it.
    #[error("move {move_no} is not above the one before")]
    NotRising { move_no: u64 },
    /// No move leaves the state.
    #[error("no move leaves state {state}")]
    NoMove { state: u64 },
    /// Memory ran out.
    #[error("out of memory")]
    Memory,
}
