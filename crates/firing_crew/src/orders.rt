/// What the callers of a crew are told: how many they are, how many replies each has, where their words begin, and the turn of their policy.
#[derive(Clone, Copy, Debug, PartialEq, Eq)]
pub struct Orders {
    pub callers: u32,
    pub room: u32,
    pub seed: u64,
    pub turn: u64,
}
