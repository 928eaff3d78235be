//! Bytes as they stand in a row, cut where they are long.

use percent_encoding::{CONTROLS, percent_encode};
use std::alloc::{AllocError, Global};

/// How many bytes are shown.
const MOST: usize = 400;

/// The bytes as a text of a row: a `/` for each line feed, `%HH` for another control; two dots where more follow.
pub fn shown(alloc: Global, bytes: &[u8]) -> Result<String, AllocError> {
    let front = bytes.get(..MOST).unwrap_or(bytes);
    let mut text = String::new(alloc);
    percent_encode(front, CONTROLS).append_to(&mut text)?;
    let mut text = text.replace(alloc, "%0A", "/")?;
    if front.len() < bytes.len() {
        text.push_str("..")?;
    }
    Ok(text)
}
