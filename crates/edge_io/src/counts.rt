ghost use Rattle.std.specs.Prelude.{◌≡◌, ◌≤◌};
ghost use Rattle.edge_io.specs.Counts.{no_counts, counts_after};

use crate::ShelfFault;

/// How often a shelf failed, and how often a file was too long. At its end a count stands still.
#[derive(Clone, Copy)]
pub(crate) struct ShelfCounts {
    pub faults: u64,
    pub longs: u64,
}

impl ShelfCounts {
    pub(crate) const fn new() -> ShelfCounts
        ensures { result ≡ no_counts }
    {
        ShelfCounts {
            faults: 0,
            longs: 0,
        }
    }

    /// Counts the answer of one call.
    pub(crate) fn count(&mut self, answer: Result<(), ShelfFault>)
        ensures counted { self.new ≡ counts_after self.old answer }
        ensures faults_stay { self.old.faults ≤ self.new.faults }
        ensures longs_stay { self.old.longs ≤ self.new.longs }
    {
        match answer {
            Err(ShelfFault::Failed) => self.faults = self.faults.saturating_add(1),
            Err(ShelfFault::Long) => self.longs = self.longs.saturating_add(1),
            Err(ShelfFault::Memory) | Ok(()) => {}
        }
    }
}
