/// The most callers of one system.
pub const MAX_CALLERS: u32 = 64;

/// The most entries that a caller may have room for.
pub const MAX_ROOM: u32 = 65536;

/// The most entries of a history, of all callers together, and so the most moves of a process or of an edge.
pub const MAX_ENTRIES: u64 = 4194304;

/// How many numbers half a word has. The upper half counts moves, the lower has the local state or the pair state.
pub const HALF_WORD: u64 = 4294967296;
