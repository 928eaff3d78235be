ghost use Rattle.std.specs.Prelude.{◌≡◌, ◌<◌, ◌≤◌, ◌∷◌, [], ℕ, Bool, false, not, IfOk, IfSome, IfNone, length, map, position, slice_index};
ghost use Rattle.strict_text.specs.Pieces.{is_space, pieces_of, loose_words_of};

use std::alloc::{AllocError, Global};

/// The words of a loose line, which spaces and tabs part, however many. Linear in the line.
pub fn loose_words<'a>(alloc: Global, line: &'a [u8]) -> Result<Vec<&'a [u8]>, AllocError>
    ensures { IfOk result (λ words. map (λ w. w.now) words.items ≡ loose_words_of line.now) }
{
    let mut words = Vec::new(alloc);
    let mut rest = line;
    while let Some((word, behind)) = next_word(rest) {
        words.push(word)?;
        rest = behind;
    }
    Ok(words)
}

/// The first word, and what stands behind it.
fn next_word(bytes: &[u8]) -> Option<(&[u8], &[u8])>
    ensures some { IfSome result (λ x. loose_words_of bytes.now ≡ x.0.now ∷ loose_words_of x.1.now) }
    ensures shorter { IfSome result (λ x. length x.1.now < length bytes.now) }
    ensures none { IfNone result (loose_words_of bytes.now ≡ []) }
{
    match first_piece(bytes) {
        Some(from) => Some(cut_loose(from)),
        None => None,
    }
}

/// What stands from the first byte on that is no space and no tab; None where each is one. However bytes are joined, the pieces are the same.
pub fn first_piece(bytes: &[u8]) -> Option<&[u8]>
    ensures same { (joined : ℕ → ℕ → Bool) → IfSome result (λ from. pieces_of joined bytes.now ≡ pieces_of joined from.now) }
    ensures some { IfSome result (λ from. 0 < length from.now) }
    ensures within { IfSome result (λ from. length from.now ≤ length bytes.now) }
    ensures begins { IfSome result (λ from. is_space (slice_index from.now 0) ≡ false) }
    ensures none { (joined : ℕ → ℕ → Bool) → IfNone result (pieces_of joined bytes.now ≡ []) }
{
    match piece_start(bytes) {
        Some(start) => Some(bytes.split_at(start).1),
        None => None,
    }
}

fn piece_start(bytes: &[u8]) -> Option<usize>
    ensures start { result ≡ position (λ b. not (is_space b)) bytes.now }
    ensures within { IfSome result (λ n. n < length bytes.now) }
{
    bytes.iter().position(|b| !is_space(*b))
}

/// The word that begins here, and what stands behind it.
fn cut_loose(bytes: &[u8]) -> (&[u8], &[u8])
    requires some { 0 < length bytes.now }
    requires begins { is_space (slice_index bytes.now 0) ≡ false }
    ensures cut { loose_words_of bytes.now ≡ result.0.now ∷ loose_words_of result.1.now }
    ensures shorter { length result.1.now < length bytes.now }
{
    match loose_end(bytes) {
        Some(end) => bytes.split_at(end),
        None => bytes.split_at(bytes.len()),
    }
}

fn loose_end(bytes: &[u8]) -> Option<usize>
    ensures end { result ≡ position is_space bytes.now }
    ensures within { IfSome result (λ n. n < length bytes.now) }
{
    bytes.iter().position(|b| is_space(*b))
}

/// Whether the byte is a space or a tab.
fn is_space(b: u8) -> bool
    ensures { result ≡ is_space b }
{
    b == b' ' || b == b'\t'
}
