ghost use Rattle.std.specs.Prelude.{◌≡◌, ◌↔◌, IsTrue, All, map, true};
ghost use Rattle.ctl_text.specs.Lines.{is_text_byte, IsText, IsComment, ArePassed};

/// Whether each byte of the line is allowed.
pub(crate) fn is_text(line: &[u8]) -> bool
    ensures { IsTrue result ↔ IsText line.now }
{
    line.iter().all(|b| is_text_byte(*b))
}

fn is_text_byte(b: u8) -> bool
    ensures { result ≡ is_text_byte b }
{
    b == b'\t' || b >= 32 && b <= 126
}

/// Whether a line of these words is blank or a comment.
pub(crate) fn are_passed(words: &[&[u8]]) -> bool
    ensures { IsTrue result ↔ ArePassed (map (λ w. w.now) words.now) }
{
    match words {
        [] => true,
        [word, ..] => begins_comment(word),
    }
}

fn begins_comment(word: &[u8]) -> bool
    ensures { IsTrue result ↔ IsComment word.now }
{
    match word {
        [] => false,
        [first, ..] => *first == b'#',
    }
}
