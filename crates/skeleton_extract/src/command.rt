/// Where the other side is in the local state `other` and the shared value is `x`, the value may be set to `set`. Commands are ordered by
/// `other`, then `x`, then `set`.
#[derive(Clone, Copy, Debug, PartialEq, Eq, PartialOrd, Ord)]
pub struct Command {
    pub other: u8,
    pub x: u64,
    pub set: u64,
}
