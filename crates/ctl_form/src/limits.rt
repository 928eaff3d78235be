/// The most members of a closure.
pub const MAX_MEMBERS: usize = 512;
