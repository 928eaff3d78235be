//! Runs a row, and compares.

use crate::row::Row;
use crate::shown::shown;
use crate::text::{Pieces, bytes_of};
use crate::trial::{Told, answered};
use crate::words::words_of;
use anyhow::Result;
use std::fs;
use std::rt::Files;
use std::sync::Wait;
use std::thread::Threads;

/// What was wanted and what came, where that differs.
pub fn difference_of<R: Files + AllocGlobal + Threads + Wait + Sync>(
    rt: &R,
    pieces: &Pieces,
    row: Row<'_>,
) -> Result<Option<String>> {
    let alloc = rt.alloc();
    let words = words_of(rt, alloc, pieces, row.words)?;
    let told = answered(rt, alloc, &words)?;
    let wanted = wanted(rt, pieces, row.answer, &told)?;
    if told.status == row.status && told.written.as_slice() == wanted.as_slice() {
        return Ok(None);
    }
    Ok(Some(format!(in alloc;
        "  wanted {} {}\n  got    {} {}",
        row.status,
        shown(alloc, &wanted)?,
        told.status,
        shown(alloc, &told.written)?
    )?))
}

/// What an answer asks to be written: a TEXT, or `< FILE`, the content of this file. With `> FILE` what was written is kept as this file,
/// and is what is wanted.
fn wanted<R: Files + AllocGlobal>(
    rt: &R,
    pieces: &Pieces,
    answer: &str,
    told: &Told,
) -> Result<Vec<u8>> {
    if let Some(file) = answer.strip_prefix("> ") {
        fs::write(rt, file, told.written.as_slice())?;
        return Ok(Vec::from_slice(rt.alloc(), &told.written)?);
    }
    if let Some(file) = answer.strip_prefix("< ") {
        return Ok(fs::read(rt, file)?);
    }
    bytes_of(rt.alloc(), pieces, answer)
}
