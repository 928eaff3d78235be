ghost use Rattle.std.specs.Prelude.{◌↔◌, ◌≡◌, ◌<◌, ◌*◌, ◌-◌, ◌^◌, IsTrue, length, map};
ghost use Rattle.std.specs.List.{sum_by};
ghost use Rattle.formula_text.specs.Long.{IsLong, is_open, is_close, is_counted, open_after, most_open, weight_of};

use crate::local_set::{LocalSet, members_at};
use pair_structure::Name;

/// The most tokens that are not round parentheses, and the most round parentheses that are open at one place.
const MOST: usize = 256;

/// Whether the tokens of a formula are too many to be read, where its atoms may name these sets of the two sides. Linear in the tokens, and
/// of each in the names of sets.
pub fn is_long(a: &[LocalSet], b: &[LocalSet], tokens: &[&[u8]]) -> bool
    ensures { IsTrue result ↔ IsLong a.now b.now (map (λ t. t.now) tokens.now) }
{
    are_many(a, b, tokens) || most_open(tokens) > MOST
}

/// Whether they count as more than `MOST`.
fn are_many(a: &[LocalSet], b: &[LocalSet], tokens: &[&[u8]]) -> bool
    ensures { IsTrue result ↔ (256 < sum_by (weight_of a.now b.now) (map (λ t. t.now) tokens.now)) }
{
    let mut counted: usize = 0;
    for token in tokens {
        counted += weight_of(a, b, token);
        if counted > MOST {
            return true;
        }
    }
    false
}

/// As how many tokens this one counts.
fn weight_of(a: &[LocalSet], b: &[LocalSet], token: &[u8]) -> usize
    ensures weight { result ≡ weight_of a.now b.now token.now }
    ensures small { result < 2 ^ 62 }
{
    if let Some(members) = members_at(b'a', a, token) {
        return set_weight(members);
    }
    if let Some(members) = members_at(b'b', b, token) {
        return set_weight(members);
    }
    if is_counted(token) { 1 } else { 0 }
}

/// As how many tokens an atom of a set of these members counts.
fn set_weight(members: &[Name]) -> usize
    ensures weight { result ≡ 2 * length members.now - 1 }
    ensures small { result < 2 ^ 62 }
{
    (2 * members.len()).saturating_sub(1)
}

/// The most round parentheses that are open at one place.
fn most_open(tokens: &[&[u8]]) -> usize
    ensures { result ≡ most_open 0 (map (λ t. t.now) tokens.now) }
{
    let mut most: usize = 0;
    let mut opened: usize = 0;
    for token in tokens {
        most = most.max(opened);
        opened = open_after(opened, token);
    }
    most.max(opened)
}

fn open_after(opened: usize, token: &[u8]) -> usize
    requires { opened < usize.MAX }
    ensures { result ≡ open_after opened token.now }
{
    if is_open(token) {
        opened + 1
    } else if is_close(token) {
        opened.saturating_sub(1)
    } else {
        opened
    }
}

fn is_counted(token: &[u8]) -> bool
    ensures { result ≡ is_counted token.now }
{
    !(is_open(token) || is_close(token))
}

fn is_open(token: &[u8]) -> bool
    ensures { result ≡ is_open token.now }
{
    token == b"(".as_slice()
}

fn is_close(token: &[u8]) -> bool
    ensures { result ≡ is_close token.now }
{
    token == b")".as_slice()
}
