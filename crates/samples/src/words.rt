//! Parts of spelled texts. Nothing is refused: what is misspelt is read as nothing or as 0, and a test then sees another answer.

/// What stands before the mark and behind it; all and nothing, where there is none.
pub fn cut<'a>(text: &'a str, mark: &str) -> (&'a str, &'a str) {
    text.split_once(mark).unwrap_or((text, ""))
}

/// The number of 8 bits that the text is.
pub fn byte(text: &str) -> u8 {
    text.trim().parse::<u8>().unwrap_or(0)
}

/// The number of 32 bits that the text is.
pub fn number(text: &str) -> u32 {
    text.trim().parse::<u32>().unwrap_or(0)
}

/// The number of 64 bits that the text is.
pub fn long(text: &str) -> u64 {
    text.trim().parse::<u64>().unwrap_or(0)
}
