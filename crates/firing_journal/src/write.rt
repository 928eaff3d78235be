ghost use Rattle.std.specs.Prelude.{◌≡◌, ◌∷◌, ◌++◌, OnErr, OnOk, decimal};
ghost use Rattle.std.specs.List.{flat_map};
ghost use Rattle.firing_journal.specs.JournalText.{entry_text, journal_text};

use crate::{Entry, Journal};
use itoa::Buffer;
use pair_structure::Memory;
use std::alloc::{AllocError, Global};

/// Appends the text of the journal, or nothing. Linear in the text, which is written beside `into` first.
pub fn write_journal(alloc: Global, j: &Journal, into: &mut Vec<u8>) -> Result<(), Memory>
    ensures text { OnOk result (into.new.items ≡ into.old.items ++ journal_text j.now) }
    ensures unchanged { OnErr result (into.new.items ≡ into.old.items) }
{
    let mut text = Vec::new(alloc);
    write_text(j.entries(), &mut text)?;
    into.extend_from_slice(&text)?;
    Ok(())
}

pub(crate) fn write_text(entries: &[Entry], into: &mut Vec<u8>) -> Result<(), AllocError>
    ensures { OnOk result (into.new.items ≡ into.old.items ++ journal_text entries.now) }
{
    into.extend_from_slice(b"journal 1\n")?;
    write_entries(entries, into)?;
    into.extend_from_slice(b"done\n")?;
    Ok(())
}

fn write_entries(entries: &[Entry], into: &mut Vec<u8>) -> Result<(), AllocError>
    ensures { OnOk result (into.new.items ≡ into.old.items ++ flat_map entry_text entries.now) }
{
    for entry in entries {
        write_entry(entry, into)?;
    }
    Ok(())
}

fn write_entry(entry: &Entry, into: &mut Vec<u8>) -> Result<(), AllocError>
    ensures { OnOk result (into.new.items ≡ into.old.items ++ entry_text entry.now) }
{
    into.extend_from_slice(b"entry")?;
    write_number(entry.number, into)?;
    write_number(entry.caller as u64, into)?;
    write_number(entry.wish.process as u64, into)?;
    write_number(entry.wish.arc as u64, into)?;
    write_number(entry.wish.pick, into)?;
    into.extend_from_slice(b"\n")?;
    Ok(())
}

/// A space and the number.
pub(crate) fn write_number(n: u64, into: &mut Vec<u8>) -> Result<(), AllocError>
    ensures { OnOk result (into.new.items ≡ into.old.items ++ 32 ∷ decimal n) }
{
    let mut buffer = Buffer::new();
    into.extend_from_slice(b" ")?;
    into.extend_from_slice(buffer.format(n).as_bytes())?;
    Ok(())
}
