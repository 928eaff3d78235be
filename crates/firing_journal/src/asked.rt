use conjunctive_compose::Wish;

/// What a caller keeps of its calls: a reply on a wish, or what a look showed. Places and numbers count entries of the journal.
#[derive(Clone, Copy, Debug, PartialEq, Eq)]
pub enum Asked {
    /// The wish was fired, as the entry of this number.
    Fired { wish: Wish, number: u64 },
    /// After the first `at` entries the wish's arc did not leave the local state of its process, which was this.
    Away { wish: Wish, local: u8, at: u64 },
    /// After the first `at` entries this was the first neighbour, by process number, that did not permit the wish's arc.
    Blocked { wish: Wish, neighbour: u32, at: u64 },
    /// After its first `moves` firings the process was in this local state.
    Seen { process: u32, moves: u64, local: u8 },
    /// After the first `moves` firings of its two processes the edge was in this pair state.
    SeenPair { edge: u32, moves: u64, state: u64 },
}
