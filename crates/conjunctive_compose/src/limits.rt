/// The greatest number of a caller; they are numbered from 0.
pub const MAX_CALLER: u32 = 63;
