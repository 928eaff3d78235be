//! The words of a row. An inline text becomes a file, and its word that file's name.

use crate::text::{Pieces, bytes_of};
use anyhow::{Context, Result};
use std::alloc::Global;
use std::fs;
use std::rt::Files;

/// The words: names parted by spaces, and texts in braces.
pub fn words_of<R: Files>(
    rt: &R,
    alloc: Global,
    pieces: &Pieces,
    text: &str,
) -> Result<Vec<String>> {
    let mut words = Vec::new(alloc);
    for (place, part) in text.split('{').enumerate() {
        if place == 0 {
            push_names(alloc, part, &mut words)?;
            continue;
        }
        let (inline, names) = part.split_once('}').context("a { without }")?;
        let file = format!(in alloc; "inline_{place}")?;
        fs::write(
            rt,
            file.as_str(),
            bytes_of(alloc, pieces, inline)?.as_slice(),
        )?;
        words.push(file)?;
        push_names(alloc, names, &mut words)?;
    }
    Ok(words)
}

fn push_names(alloc: Global, text: &str, words: &mut Vec<String>) -> Result<()> {
    for name in text.split_whitespace() {
        words.push(String::from_str(alloc, name)?)?;
    }
    Ok(())
}
