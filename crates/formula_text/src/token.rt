ghost use Rattle.std.specs.Prelude.{◌≡◌, ℕ, ◌+◌, ◌-◌, ◌<◌, ◌≤◌, ◌++◌, ◌∷◌, [], length, map, true, false, slice_index, IfOk, IfSome, IfNone, OnOk};
ghost use Rattle.std.specs.List.{flat_map};
ghost use Rattle.strict_text.specs.Pieces.{is_space};
ghost use Rattle.formula_text.specs.Token.{tokens_of, is_word_byte, are_joined};

use pair_structure::Memory;
use std::alloc::{AllocError, Global};
use strict_text::first_piece;

/// The tokens of these words, which are a line's, in their order. Linear in the bytes.
pub fn tokens_of<'a>(alloc: Global, words: &[&'a [u8]]) -> Result<Vec<&'a [u8]>, Memory>
    ensures { IfOk result (λ tokens. map (λ t. t.now) tokens.items ≡ flat_map tokens_of (map (λ w. w.now) words.now)) }
{
    let mut tokens = Vec::new(alloc);
    for word in words {
        push_tokens(word, &mut tokens)?;
    }
    Ok(tokens)
}

/// Appends the tokens of these bytes.
fn push_tokens<'a>(bytes: &'a [u8], tokens: &mut Vec<&'a [u8]>) -> Result<(), AllocError>
    ensures { OnOk result (map (λ t. t.now) tokens.new.items ≡ map (λ t. t.now) tokens.old.items ++ tokens_of bytes.now) }
{
    let mut rest = bytes;
    while let Some((token, behind)) = next_token(rest) {
        tokens.push(token)?;
        rest = behind;
    }
    Ok(())
}

/// The first token, and what stands behind it.
fn next_token(bytes: &[u8]) -> Option<(&[u8], &[u8])>
    ensures some { IfSome result (λ x. tokens_of bytes.now ≡ x.0.now ∷ tokens_of x.1.now) }
    ensures shorter { IfSome result (λ x. length x.1.now < length bytes.now) }
    ensures none { IfNone result (tokens_of bytes.now ≡ []) }
{
    match first_piece(bytes) {
        Some(from) => Some(cut_token(from)),
        None => None,
    }
}

/// The token that begins here, and what stands behind it.
fn cut_token(bytes: &[u8]) -> (&[u8], &[u8])
    requires some { 0 < length bytes.now }
    requires begins { is_space (slice_index bytes.now 0) ≡ false }
    ensures cut { tokens_of bytes.now ≡ result.0.now ∷ tokens_of result.1.now }
    ensures shorter { length result.1.now < length bytes.now }
{
    bytes.split_at(token_end(bytes))
}

/// How many bytes the token has that begins here.
fn token_end(bytes: &[u8]) -> usize
    requires { 0 < length bytes.now }
    ensures some { 0 < result }
    ensures within { result ≤ length bytes.now }
    ensures joined { (k : ℕ) → k + 1 < result → are_joined (slice_index bytes.now k) (slice_index bytes.now (k + 1)) ≡ true }
    ensures ends { result < length bytes.now → are_joined (slice_index bytes.now (result - 1)) (slice_index bytes.now result) ≡ false }
{
    for end in 1..bytes.len() {
        if !are_joined(bytes[end - 1], bytes[end]) {
            return end;
        }
    }
    bytes.len()
}

fn are_joined(b: u8, c: u8) -> bool
    ensures { result ≡ are_joined b c }
{
    is_word_byte(b) && is_word_byte(c) || b == b'-' && c == b'>'
}

fn is_word_byte(b: u8) -> bool
    ensures { result ≡ is_word_byte b }
{
    b.is_ascii_alphanumeric() || b == b'_' || b == b'.'
}
