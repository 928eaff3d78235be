ghost use Rattle.std.specs.Prelude.{◌≡◌, ◌≤◌, ◌↔◌, [], length, Some, OnOk, OnErr, IsErrOf};
ghost use Rattle.std.specs.Option.{option_copied};
ghost use Rattle.edge_io.specs.Counts.{no_counts};
ghost use Rattle.edge_io.specs.MemoryShelf.{files_of, Fails, FindsLong, after_take};
ghost use Rattle.edge_io.specs.Told.{file_named};

use crate::counts::ShelfCounts;
use crate::{Shelf, ShelfFault};
use std::marker::Model;

/// Files in memory, for tests. The calls whose numbers are `failing`, counted from 0, answer Failed,
/// and so does each call with an unknown name.
#[derive(Drop)]
pub struct MemoryShelf {
    files: Vec<(String, Vec<u8>)>,
    failing: Vec<u64>,
    calls: u64,
    counts: ShelfCounts,
}

impl Model for MemoryShelf {
    ghost use Rattle.edge_io.specs.MemoryShelf.{ShelfState, files_of};

    ghost Value = { ShelfState };

    ghost view = { λ s. record {
      files = files_of s.files.items;
      failing = s.failing.items;
      calls = s.calls;
      counts = s.counts;
    } };
}

impl MemoryShelf {
    pub fn new(files: Vec<(String, Vec<u8>)>, failing: Vec<u64>) -> MemoryShelf
        ensures { result ≡ record {
          files = files_of files.items;
          failing = failing.items;
          calls = 0;
          counts = no_counts;
        } }
    {
        MemoryShelf {
            files,
            failing,
            calls: 0,
            counts: ShelfCounts::new(),
        }
    }

    fn answer(&self, name: &str, max: u64, into: &mut Vec<u8>) -> Result<(), ShelfFault>
        requires { into.old.items ≡ [] }

        ensures told { OnOk result (file_named self.now.files name.now ≡ Some into.new.items) }
        ensures within { OnOk result (length into.new.items ≤ max) }
        ensures nothing { OnErr result (into.new.items ≡ []) }
        ensures failed { IsErrOf result ShelfFault.Failed ↔ Fails self.now name.now }
        ensures long { IsErrOf result ShelfFault.Long ↔ FindsLong self.now name.now max }
    {
        if self.failing.contains(&self.calls) {
            return Err(ShelfFault::Failed);
        }
        let Some(bytes) = first_named(&self.files, name) else {
            return Err(ShelfFault::Failed);
        };
        if bytes.len() as u64 > max {
            return Err(ShelfFault::Long);
        }
        match into.extend_from_slice(bytes) {
            Ok(()) => Ok(()),
            Err(_) => Err(ShelfFault::Memory),
        }
    }
}

impl Shelf for MemoryShelf {
    ghost files = { λ s. Some s.files };

    ghost may_ask = { λ s n k. Unit {0} };

    ghost faults = { λ s. s.counts.faults };

    ghost longs = { λ s. s.counts.longs };

    fn take(&mut self, name: &str, max: u64, into: &mut Vec<u8>) -> Result<(), ShelfFault>
        requires { into.old.items ≡ [] }

        ensures told { OnOk result (file_named self.old.files name.now ≡ Some into.new.items) }
        ensures within { OnOk result (length into.new.items ≤ max) }
        ensures nothing { OnErr result (into.new.items ≡ []) }

        // Failed comes before Long.
        ensures failed { IsErrOf result ShelfFault.Failed ↔ Fails self.old name.now }
        ensures long { IsErrOf result ShelfFault.Long ↔ FindsLong self.old name.now max }

        ensures after { self.new ≡ after_take self.old result }
        ensures faults_stay { self.old.counts.faults ≤ self.new.counts.faults }
        ensures longs_stay { self.old.counts.longs ≤ self.new.counts.longs }
    {
        let answer = self.answer(name, max, into);
        self.calls = self.calls.saturating_add(1);
        self.counts.count(answer);
        answer
    }
}

fn first_named<'a>(files: &'a [(String, Vec<u8>)], name: &str) -> Option<&'a [u8]>
    ensures { option_copied result ≡ file_named (files_of files.now) name.now }
{
    for (known, bytes) in files {
        if known.as_str() == name {
            return Some(bytes);
        }
    }
    None
}
