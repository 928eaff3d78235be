//! Takes the lines one by one: names pieces, judges rows, prints what differs, and counts.

use crate::compare::difference_of;
use crate::row::{Line, line_of};
use crate::text::{Pieces, written_out};
use anyhow::{Result, bail};
use std::alloc::Global;
use std::rt::Files;
use std::sync::Wait;
use std::thread::Threads;

/// The pieces that are named so far, and how many rows there were.
#[derive(Drop)]
pub struct Tally {
    pieces: Pieces,
    rows: u64,
    differing: u64,
}

impl Tally {
    pub fn new(alloc: Global) -> Tally {
        Tally {
            pieces: Pieces::new(alloc),
            rows: 0,
            differing: 0,
        }
    }

    /// How many rows there were, and how many of them were not answered as they say.
    pub fn counts(&self) -> (u64, u64) {
        (self.rows, self.differing)
    }

    /// Takes the line with this number. One that cannot be read counts as a row that differs.
    pub fn take<R: Files + AllocGlobal + Print + Threads + Wait + Sync>(
        &mut self,
        rt: &R,
        number: u64,
        line: &str,
    ) -> Result<()> {
        match self.difference(rt, line) {
            Ok(None) => Ok(()),
            Ok(Some(difference)) => self.print(rt, number, line, difference.as_str()),
            Err(fault) => {
                self.rows = self.rows.saturating_add(1);
                let fault = format!(in rt.alloc(); "{fault:#}")?;
                self.print(rt, number, line, fault.as_str())
            }
        }
    }

    /// What differs in this line, if anything.
    fn difference<R: Files + AllocGlobal + Threads + Wait + Sync>(
        &mut self,
        rt: &R,
        line: &str,
    ) -> Result<Option<String>> {
        match line_of(line) {
            Line::Nothing => Ok(None),
            Line::Piece { name, text } => {
                self.name(rt.alloc(), name, text)?;
                Ok(None)
            }
            Line::Call(row) => {
                let difference = difference_of(rt, &self.pieces, row)?;
                self.rows = self.rows.saturating_add(1);
                Ok(difference)
            }
            Line::Unread => bail!("no row"),
        }
    }

    fn name(&mut self, alloc: Global, name: &str, text: &str) -> Result<()> {
        let text = written_out(alloc, &self.pieces, text)?;
        self.pieces.insert(String::from_str(alloc, name)?, text)?;
        Ok(())
    }

    fn print<R: Print>(&mut self, rt: &R, number: u64, line: &str, difference: &str) -> Result<()> {
        self.differing = self.differing.saturating_add(1);
        println!(rt; "{number}: {line}\n{difference}")?;
        Ok(())
    }
}
