ghost use Rattle.std.specs.Prelude.{◌≡◌, ◌↔◌, ◌<◌, ◌==◌, ◌∷◌, IsTrue, IfSome, length, position};
ghost use Rattle.strict_text.specs.Lines.{lines_of, is_strict_byte, IsStrict};
ghost use Rattle.strict_text.specs.View.{line_of};

/// A line of a text without its line feed, and whether that follows: only the last line may lack it.
#[derive(Clone, Copy, Debug)]
pub struct Line<'a> {
    pub bytes: &'a [u8],
    pub is_ended: bool,
}

/// The first line, and what stands behind it. Takes no memory; linear in the line.
pub fn cut_line(bytes: &[u8]) -> (Line<'_>, &[u8])
    requires { 0 < length bytes.now }
    ensures cut { lines_of bytes.now ≡ line_of result.0 ∷ lines_of result.1.now }
    ensures shorter { length result.1.now < length bytes.now }
{
    match line_end(bytes) {
        Some(end) => {
            let line = bytes.split_at(end).0;
            (
                Line {
                    bytes: line,
                    is_ended: true,
                },
                bytes.split_at(end + 1).1,
            )
        }
        None => {
            let (line, behind) = bytes.split_at(bytes.len());
            (
                Line {
                    bytes: line,
                    is_ended: false,
                },
                behind,
            )
        }
    }
}

fn line_end(bytes: &[u8]) -> Option<usize>
    ensures end { result ≡ position (λ b. b == 10) bytes.now }
    ensures within { IfSome result (λ n. n < length bytes.now) }
{
    bytes.iter().position(|b| *b == b'\n')
}

/// Whether each byte may stand in a line.
pub fn is_strict(bytes: &[u8]) -> bool
    ensures { IsTrue result ↔ IsStrict bytes.now }
{
    bytes.iter().all(|b| is_strict_byte(*b))
}

fn is_strict_byte(b: u8) -> bool
    ensures { result ≡ is_strict_byte b }
{
    b >= 32 && b <= 126
}
