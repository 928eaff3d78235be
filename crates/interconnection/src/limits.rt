/// The most roles of a network.
pub const MAX_ROLES: usize = 16;

/// The most kinds of pairs.
pub const MAX_KINDS: usize = 16;

/// The most processes.
pub const MAX_PROCESSES: usize = 4096;

/// The most neighbours of a process.
pub const MAX_NEIGHBOURS: usize = 64;
