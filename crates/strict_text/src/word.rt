ghost use Rattle.std.specs.Prelude.{◌≡◌, ◌<◌, ◌==◌, ◌∷◌, IfSome, length, position};
ghost use Rattle.std.specs.Option.{option_copied};
ghost use Rattle.strict_text.specs.Words.{words_of, words_behind};

/// The first word of a line, and what stands behind the space at its end, if there is one. Takes no memory; linear in the word.
pub fn cut_word(line: &[u8]) -> (&[u8], Option<&[u8]>)
    ensures cut { words_of line.now ≡ result.0.now ∷ words_behind (option_copied result.1) }
    ensures shorter { IfSome result.1 (λ rest. length rest.now < length line.now) }
{
    match word_end(line) {
        Some(end) => (line.split_at(end).0, Some(line.split_at(end + 1).1)),
        None => (line, None),
    }
}

fn word_end(line: &[u8]) -> Option<usize>
    ensures end { result ≡ position (λ b. b == 32) line.now }
    ensures within { IfSome result (λ n. n < length line.now) }
{
    line.iter().position(|b| *b == b' ')
}
