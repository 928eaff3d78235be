//! A caller's token.
use crate::cell::Reading;
use crate::words::Token;

/// Room for what is read under locks, and for what a firing makes of it.
#[derive(Drop)]
pub(crate) struct Space {
    pub(crate) known: Vec<Reading>,
    pub(crate) star: Vec<Reading>,
    pub(crate) owed: Vec<Reading>,
}

/// What a caller steps with: its number, what it read under its locks, and what it still has to store.
#[derive(Drop)]
pub struct Hand {
    pub(crate) seat: Token,
    pub(crate) caller: u32,
    pub(crate) most: usize,
    pub(crate) stored: usize,
    pub(crate) space: Space,
}
