//! Texts of a row: named pieces, edits, repetitions, and escapes of bytes.

use anyhow::{Context, Result};
use percent_encoding::percent_decode;
use std::alloc::Global;
use std::collections::BTreeMap;

/// Written-out texts by their names.
pub type Pieces = BTreeMap<String, String>;

/// The bytes of a text: a `/` is a line feed, `%HH` a byte.
pub fn bytes_of(alloc: Global, pieces: &Pieces, text: &str) -> Result<Vec<u8>> {
    let plain = written_out(alloc, pieces, text)?.replace(alloc, '/', "\n")?;
    let mut bytes = Vec::new(alloc);
    percent_decode(plain.as_bytes()).append_to(&mut bytes)?;
    Ok(bytes)
}

/// The text with its repetitions `<A..B*PIECE>` and its named pieces `$NAME$` written out.
pub fn written_out(alloc: Global, pieces: &Pieces, text: &str) -> Result<String> {
    let mut whole = String::new(alloc);
    for (place, part) in text.split('<').enumerate() {
        if place == 0 {
            push_named(alloc, pieces, part, &mut whole)?;
        } else {
            push_repeated(alloc, pieces, part, &mut whole)?;
        }
    }
    Ok(whole)
}

/// Appends a repetition, of which the `<` is gone, and the text behind its `>`.
fn push_repeated(alloc: Global, pieces: &Pieces, part: &str, into: &mut String) -> Result<()> {
    let (repetition, behind) = part.split_once('>').context("a < without >")?;
    let (range, piece) = repetition.split_once('*').context("a < without *")?;
    let (first, end) = range.split_once("..").context("a < without ..")?;
    for number in first.parse::<u32>()?..end.parse::<u32>()? {
        let number = format!(in alloc; "{number}")?;
        let copy = piece.replace(alloc, '#', number.as_str())?;
        push_named(alloc, pieces, copy.as_str(), into)?;
    }
    push_named(alloc, pieces, behind, into)
}

/// Appends a text that has no repetitions.
fn push_named(alloc: Global, pieces: &Pieces, text: &str, into: &mut String) -> Result<()> {
    let mut is_name = false;
    for part in text.split('$') {
        if is_name {
            into.push_str(edited(alloc, pieces, part)?.as_str())?;
        } else {
            into.push_str(part)?;
        }
        is_name = !is_name;
    }
    // The part behind the last `$` is no name.
    anyhow::ensure!(is_name, "a $ without its second");
    Ok(())
}

/// The piece `NAME~OLD~NEW~OLD~NEW`: at the first place of each OLD stands NEW.
fn edited(alloc: Global, pieces: &Pieces, part: &str) -> Result<String> {
    let (name, edits) = part.split_once('~').unwrap_or((part, ""));
    let mut text = pieces.get(name).context("no such piece")?.clone()?;
    if name.len() == part.len() {
        return Ok(text);
    }
    let mut old = None;
    for word in edits.split('~') {
        old = match old {
            None => Some(word),
            Some(old) => {
                text = with_edit(alloc, text.as_str(), old, word)?;
                None
            }
        };
    }
    anyhow::ensure!(old.is_none(), "an edit without its new text");
    Ok(text)
}

fn with_edit(alloc: Global, text: &str, old: &str, new: &str) -> Result<String> {
    let (before, behind) = text.split_once(old).context("what is edited is not there")?;
    Ok(format!(in alloc; "{before}{new}{behind}")?)
}
