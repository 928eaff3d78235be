//! A word of a process or of an edge: how often it moved, and its local state or pair state after that.
ghost use Rattle.std.specs.Prelude.{◌≡◌, ◌<◌};
ghost use Rattle.firing_words.specs.History.{packed};

use crate::HALF_WORD;

/// The word that shows these moves, in its upper half, and this content, in its lower.
pub fn pack(moves: u64, content: u64) -> u64
    requires { (moves < HALF_WORD) × (content < HALF_WORD) }
    ensures { result ≡ packed moves content }
{
    moves * HALF_WORD + content
}

/// The moves and the content that a word shows.
pub fn unpack(word: u64) -> (u64, u64)
    ensures word { word ≡ packed result.0 result.1 }
    ensures small { (result.0 < HALF_WORD) × (result.1 < HALF_WORD) }
{
    (word / HALF_WORD, word % HALF_WORD)
}
