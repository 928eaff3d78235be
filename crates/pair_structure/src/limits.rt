/// The most local states of a role.
pub const MAX_LOCALS: usize = 32;

/// The most arcs of a role.
pub const MAX_ARCS: usize = 128;
