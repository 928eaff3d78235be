/// The most callers of a crew.
pub const MAX_CALLERS: u32 = 64;

/// The most replies of a caller.
pub const MAX_ROOM: u32 = 65536;
