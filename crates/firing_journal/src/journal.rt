ghost use Rattle.std.specs.Prelude.{◌≡◌, ◌↔◌, ◌∷◌, ◌++◌, [], length, All, IsTrue, OnErr, OnOk};
ghost use Rattle.conjunctive_compose.specs.Firing.{WishFits};
ghost use Rattle.firing_journal.specs.Journal.{AreNumbered, EntryFits, JournalFits};
ghost use Rattle.firing_journal.specs.Said.{HasSmallNumbers};

use conjunctive_compose::{MAX_CALLER, System, Wish};
use pair_structure::Memory;
use std::alloc::Global;
use std::marker::Model;

/// One firing: its number in the run, the caller that made it, and its wish.
#[derive(Clone, Copy, Debug, PartialEq, Eq)]
pub struct Entry {
    pub number: u64,
    pub caller: u32,
    pub wish: Wish,
}

/// The firings of a run in their order; the entry at place i has number i.
#[derive(Debug, Drop)]
pub struct Journal {
    entries: Vec<Entry>,
}

impl Model for Journal {
    ghost use Rattle.std.specs.Prelude.{List};
    ghost use Rattle.firing_journal.specs.declared.journal.Entry.{Entry};
    ghost use Rattle.firing_journal.specs.Journal.{IsJournal};

    ghost Value = { List Entry };

    ghost view = { λ j. j.entries.items };

    ghost invariant = { λ j. IsJournal j.entries.items };
}

impl Journal {
    /// A journal without entries. Takes no memory.
    pub fn new(alloc: Global) -> Journal
        ensures { result ≡ [] }
    {
        Journal {
            entries: Vec::new(alloc),
        }
    }

    /// The journal of these entries. Takes no memory; linear in the entries.
    pub fn of_entries(entries: Vec<Entry>) -> Journal
        requires numbered { AreNumbered entries.items }
        ensures { result ≡ entries.items }
    {
        know_small(entries.as_slice());
        Journal { entries }
    }

    /// The entries in their order. Each number of them may stand in a text.
    pub fn entries(&self) -> &[Entry]
        ensures entries { result.now ≡ self.now }
        ensures numbered { AreNumbered self.now }
        ensures small { All HasSmallNumbers self.now }
    {
        &self.entries
    }

    /// Appends the caller's firing under the next number.
    pub fn push(&mut self, caller: u32, wish: Wish) -> Result<(), Memory>
        ensures pushed { OnOk result (self.new ≡ self.old ++ record { number = length self.old; caller = caller; wish = wish } ∷ []) }
        ensures unchanged { OnErr result (self.new ≡ self.old) }
    {
        let number = self.entries.len() as u64;
        let entry = entry_of(number, caller, wish.process, wish.arc, wish.pick);
        self.entries.push(entry)?;
        Ok(())
    }

    /// Whether each wish fits the system and each caller is at most `MAX_CALLER`. Linear in the entries.
    pub fn fits(&self, system: &System) -> bool
        ensures { IsTrue result ↔ JournalFits system.now self.now }
    {
        self.entries().iter().all(|entry| entry_fits(system, entry))
    }
}

/// Does nothing, and tells the proof that each number of an entry may stand in a text.
fn know_small(entries: &[Entry])
    ensures { All HasSmallNumbers entries.now }
{
    for entry in entries {
        let wish = entry.wish;
        entry_of(
            entry.number,
            entry.caller,
            wish.process,
            wish.arc,
            wish.pick,
        );
    }
}

/// The entry of these numbers.
fn entry_of(number: u64, caller: u32, process: u32, arc: u32, pick: u64) -> Entry
    ensures entry { result ≡ record { number = number; caller = caller; wish = record { process = process; arc = arc; pick = pick } } }
    ensures small { HasSmallNumbers result }
{
    Entry {
        number,
        caller,
        wish: Wish { process, arc, pick },
    }
}

fn entry_fits(system: &System, entry: &Entry) -> bool
    ensures { IsTrue result ↔ EntryFits system.now entry.now }
{
    entry.caller <= MAX_CALLER && system.fits(entry.wish)
}
