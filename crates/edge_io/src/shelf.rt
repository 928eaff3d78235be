ghost use Rattle.std.specs.Prelude.{◌≡◌, ◌≤◌, ℕ, List, [], Option, length, Some, OnOk, OnErr, IfSome, IsErr, IsErrOf};
ghost use Rattle.edge_io.specs.Counts.{Rose};
ghost use Rattle.edge_io.specs.Told.{file_named, HasLonger};

use thiserror::Error;

/// Why a file was not handed out.
#[derive(Clone, Copy, Debug, PartialEq, Eq, Error)]
pub enum ShelfFault {
    /// The shelf failed: the file could not be opened, or not be read to its end.
    #[error("the file cannot be read")]
    Failed,
    /// The file has more than `max` bytes.
    #[error("the file is too long")]
    Long,
    /// There was no memory for its bytes.
    #[error("out of memory")]
    Memory,
}

/// Hands out files by their names.
pub trait Shelf {
    /// The files as names and bytes, where they are told. Of two with one name the first counts.
    ghost files: { Self → Option (List (List ℕ × List ℕ)) };

    /// Which name may be asked for with which `max`.
    ghost may_ask: { Self → List ℕ → ℕ → Type 0 };

    /// How often the shelf has failed.
    ghost faults: { Self → ℕ };

    /// How often a file was too long.
    ghost longs: { Self → ℕ };

    /// Puts the bytes of a file into the empty `into`, if there are at most `max` of them.
    fn take(&mut self, name: &str, max: u64, into: &mut Vec<u8>) -> Result<(), ShelfFault>
        requires empty { into.old.items ≡ [] }
        requires allowed { may_ask self.old name.now max }

        ensures told { IfSome (files self.old)
            (λ all. OnOk result (file_named all name.now ≡ Some into.new.items)) }
        ensures within { OnOk result (length into.new.items ≤ max) }
        ensures nothing { OnErr result (into.new.items ≡ []) }

        // Each fault is one that the shelf counted.
        ensures failed { IsErrOf result ShelfFault.Failed → Rose (faults self.old) (faults self.new) }
        ensures long { IsErrOf result ShelfFault.Long → Rose (longs self.old) (longs self.new) }

        // A told file is called too long only where it is, and then it is never handed out.
        ensures long_only { IfSome (files self.old)
            (λ all. IsErrOf result ShelfFault.Long → HasLonger all name.now max) }
        ensures long_never { IfSome (files self.old)
            (λ all. HasLonger all name.now max → IsErr result) }

        // No call changes what is told or what may be asked, and no count falls.
        ensures same_files { files self.new ≡ files self.old }
        ensures still_allowed { (n : List ℕ) (k : ℕ) → may_ask self.old n k → may_ask self.new n k }
        ensures not_more_allowed { (n : List ℕ) (k : ℕ) → may_ask self.new n k → may_ask self.old n k }
        ensures faults_stay { faults self.old ≤ faults self.new }
        ensures longs_stay { longs self.old ≤ longs self.new };
}
