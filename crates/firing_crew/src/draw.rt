//! The words that a worker draws.
ghost use Rattle.std.specs.Prelude.{◌≡◌, ◌<◌};
ghost use Rattle.firing_crew.specs.Draws.{first_state, next_word};

/// Each word is this number times the one before it ..
const FACTOR: u64 = 75;
/// .. and this number, ..
const SHIFT: u64 = 74;
/// .. modulo this one.
const MODULUS: u64 = 65537;

/// Where the words of a caller begin.
pub fn start(seed: u64, caller: u32) -> u64
    ensures start { result ≡ first_state seed caller }
    ensures small { result < MODULUS }
{
    (seed % MODULUS + caller as u64 % MODULUS) % MODULUS
}

/// The word after this one.
pub fn next(word: u64) -> u64
    requires { word < MODULUS }
    ensures next { result ≡ next_word word }
    ensures small { result < MODULUS }
{
    (FACTOR * word + SHIFT) % MODULUS
}
