//! The lines of the file `rows`.

/// `WORDS ; STATUS ; ANSWER`: words of a call, the status that it ends with, and what it writes.
#[derive(Clone, Copy)]
pub struct Row<'a> {
    pub words: &'a str,
    pub status: u8,
    pub answer: &'a str,
}

/// What a line is.
#[derive(Clone, Copy)]
pub enum Line<'a> {
    /// Blank, or a comment.
    Nothing,
    /// `let NAME = TEXT`
    Piece { name: &'a str, text: &'a str },
    /// A row.
    Call(Row<'a>),
    /// None of these.
    Unread,
}

/// What this line is.
pub fn line_of(line: &str) -> Line<'_> {
    if line.is_empty() || line.starts_with('#') {
        return Line::Nothing;
    }
    if let Some(piece) = line.strip_prefix("let ") {
        return piece_of(piece);
    }
    match row_of(line) {
        Some(row) => Line::Call(row),
        None => Line::Unread,
    }
}

fn piece_of(piece: &str) -> Line<'_> {
    match piece.split_once(" = ") {
        Some((name, text)) => Line::Piece { name, text },
        None => Line::Unread,
    }
}

/// The row that a line is. The answer and the status stand behind the last two ` ; `.
fn row_of(line: &str) -> Option<Row<'_>> {
    let (front, answer) = line.rsplit_once(" ; ")?;
    let (words, status) = front.rsplit_once(" ; ")?;
    let status = status.parse::<u8>().ok()?;
    Some(Row {
        words,
        status,
        answer,
    })
}
