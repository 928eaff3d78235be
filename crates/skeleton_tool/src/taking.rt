ghost use Rattle.std.specs.Prelude.{◌≡◌, [], ◌++◌, IfOk, IfErr, OnOk};
ghost use Rattle.skeleton_tool.specs.Taking.{shelf_seen, read_fault_text, too_long_text, IsGiven, IsUntaken, KeepsShelf, StopsAs};

use crate::status::Status;
use crate::stop::Stop;
use edge_io::{Shelf, ShelfFault};
use std::alloc::{AllocError, Global};

/// Takes a file of at most `max` bytes, which answers name by this word.
pub(crate) fn take_file<S: Shelf>(
    alloc: Global,
    file: &str,
    max: u64,
    word: &str,
    shelf: &mut S,
    text: &mut Vec<u8>,
) -> Result<Vec<u8>, Stop>
    requires allowed { S.may_ask shelf.old file.now max }
    requires empty { text.old.items ≡ [] }
    ensures given { IfOk result (λ bytes. IsGiven (S.files shelf.old) file.now max bytes.items) }
    ensures nothing { OnOk result (text.new.items ≡ []) }
    ensures stopped { IfErr result (StopsAs (IsUntaken (shelf_seen S.files S.faults S.longs shelf.old shelf.new) word.now file.now max) text.new.items) }
    ensures kept { KeepsShelf S.files S.faults S.longs S.may_ask shelf.old shelf.new }
{
    let mut bytes = Vec::new(alloc);
    match shelf.take(file, max, &mut bytes) {
        Ok(()) => Ok(bytes),
        Err(ShelfFault::Failed) => {
            write_read_fault(word, text)?;
            Err(Stop::Answered(Status::ReadFault))
        }
        Err(ShelfFault::Long) => {
            write_too_long(word, text)?;
            Err(Stop::Answered(Status::Refused))
        }
        Err(ShelfFault::Memory) => Err(Stop::Memory),
    }
}

fn write_read_fault(word: &str, into: &mut Vec<u8>) -> Result<(), AllocError>
    ensures { OnOk result (into.new.items ≡ into.old.items ++ read_fault_text word.now) }
{
    into.extend_from_slice(b"read fault ")?;
    into.extend_from_slice(word.as_bytes())?;
    into.extend_from_slice(b"\n")?;
    Ok(())
}

fn write_too_long(word: &str, into: &mut Vec<u8>) -> Result<(), AllocError>
    ensures { OnOk result (into.new.items ≡ into.old.items ++ too_long_text word.now) }
{
    into.extend_from_slice(b"refused ")?;
    into.extend_from_slice(word.as_bytes())?;
    into.extend_from_slice(b" 0 TooLong\n")?;
    Ok(())
}
