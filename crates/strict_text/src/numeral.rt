ghost use Rattle.std.specs.Prelude.{◌≡◌, ◌<◌, ◌^◌, ℕ, true, IfSome, IfNone, decimal};
ghost use Rattle.strict_text.specs.inside.Number.{begins_plainly, is_leading};

/// The number whose decimal text the word is, if there is one below 2^64: `04` and `+4` are the text of none. Takes no memory.
pub fn number(word: &[u8]) -> Option<u64>
    ensures some { IfSome result (λ n. word.now ≡ decimal n) }
    ensures none { IfNone result ((n : ℕ) → n < 2 ^ 64 → word.now ≡ decimal n → ⊥) }
{
    if !begins_plainly(word) {
        return None;
    }
    value_of(word)
}

/// Whether the word is the digit 0, or begins with another digit.
fn begins_plainly(word: &[u8]) -> bool
    ensures { result ≡ begins_plainly word.now }
{
    match word {
        [] => false,
        [first] => *first == b'0' || is_leading(*first),
        [first, ..] => is_leading(*first),
    }
}

fn is_leading(b: u8) -> bool
    ensures { result ≡ is_leading b }
{
    b >= b'1' && b <= b'9'
}

/// The number that the digits write, if they are digits and it is below 2^64.
fn value_of(word: &[u8]) -> Option<u64>
    requires { begins_plainly word.now ≡ true }
    ensures some { IfSome result (λ n. word.now ≡ decimal n) }
    ensures none { IfNone result ((n : ℕ) → n < 2 ^ 64 → word.now ≡ decimal n → ⊥) }
{
    match std::str::from_utf8(word) {
        Ok(text) => match text.parse::<u64>() {
            Ok(n) => Some(n),
            Err(_) => None,
        },
        Err(_) => None,
    }
}
