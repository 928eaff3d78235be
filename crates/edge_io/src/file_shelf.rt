ghost use Rattle.std.specs.Prelude.{◌≡◌, ◌≤◌, ◌<◌, [], None, length, OnOk, OnErr, IfSome, IsErrOf};
ghost use Rattle.edge_io.specs.Counts.{no_counts, counts_after};

use crate::counts::ShelfCounts;
use crate::{Shelf, ShelfFault};
use std::fs;
use std::io::Read;
use std::marker::Model;
use std::rt::Files;

/// How many bytes one read may bring. They lie on the stack.
const PIECE: usize = 16_384;

/// The real files, by their paths. It tells no content, and takes no memory beside what it fills.
/// A folder, or a file that is not there, is Failed.
#[derive(Drop)]
pub struct FileShelf<'a, R: Files> {
    rt: &'a R,
    counts: ShelfCounts,
}

impl<'a, R: Files> Model for FileShelf<'a, R> {
    ghost use Rattle.edge_io.specs.declared.counts.ShelfCounts.{ShelfCounts};

    ghost Value = { ShelfCounts };

    ghost view = { λ s. s.counts };
}

impl<'a, R: Files> FileShelf<'a, R> {
    pub fn new(rt: &'a R) -> FileShelf<'a, R>
        ensures { result ≡ no_counts }
    {
        FileShelf {
            rt,
            counts: ShelfCounts::new(),
        }
    }

    fn answer(&self, name: &str, max: u64, into: &mut Vec<u8>) -> Result<(), ShelfFault>
        requires { into.old.items ≡ [] }

        ensures within { OnOk result (length into.new.items ≤ max) }
        ensures nothing { OnErr result (into.new.items ≡ []) }
    {
        let Ok(mut file) = fs::open(self.rt, name) else {
            return Err(ShelfFault::Failed);
        };
        let answer = read_whole(&mut file, max, into);
        if answer.is_err() {
            into.clear();
        }
        answer
    }
}

impl<R: Files> Shelf for FileShelf<'_, R> {
    ghost files = { λ s. None };

    ghost may_ask = { λ s n k. Unit {0} };

    ghost faults = { λ s. s.faults };

    ghost longs = { λ s. s.longs };

    fn take(&mut self, name: &str, max: u64, into: &mut Vec<u8>) -> Result<(), ShelfFault>
        requires { into.old.items ≡ [] }

        ensures within { OnOk result (length into.new.items ≤ max) }
        ensures nothing { OnErr result (into.new.items ≡ []) }
        ensures after { self.new ≡ counts_after self.old result }
        ensures faults_stay { self.old.faults ≤ self.new.faults }
        ensures longs_stay { self.old.longs ≤ self.new.longs }
    {
        let answer = self.answer(name, max, into);
        self.counts.count(answer);
        answer
    }
}

/// Reads to the end, or until more than `max` bytes have come. After a fault `into` has some of them.
fn read_whole<F: Read>(file: &mut F, max: u64, into: &mut Vec<u8>) -> Result<(), ShelfFault>
    requires { into.old.items ≡ [] }

    ensures whole { OnOk result (IfSome (F.remaining file.old) (λ bytes. into.new.items ≡ bytes)) }
    ensures within { OnOk result (length into.new.items ≤ max) }
    ensures long { IsErrOf result ShelfFault.Long →
        IfSome (F.remaining file.old) (λ bytes. max < length bytes) }
{
    let mut piece = [0u8; PIECE];
    loop {
        let Ok(count) = file.read(&mut piece) else {
            return Err(ShelfFault::Failed);
        };
        if count == 0 {
            return Ok(());
        }
        if count as u64 > max - into.len() as u64 {
            return Err(ShelfFault::Long);
        }
        if into.extend_from_slice(&piece[..count]).is_err() {
            return Err(ShelfFault::Memory);
        }
    }
}

#[cfg(test)]
mod tests {
    use super::*;
    use std::io;

    /// Gives so many single bytes, and then fails.
    #[derive(Drop)]
    struct Breaking(u8);

    impl Read for Breaking {
        fn read(&mut self, buf: &mut [u8]) -> io::Result<usize> {
            if self.0 == 0 || buf.is_empty() {
                return Err(io::Error::from(io::ErrorKind::Other));
            }
            self.0 -= 1;
            buf[0] = b'x';
            Ok(1)
        }
    }

    #[test]
    fn a_read_that_fails_on_the_way_is_no_end(rt: HostRuntime) {
        let mut into = Vec::new(rt.alloc());
        let answer = read_whole(&mut Breaking(3), 9, &mut into);
        assert_eq!(rt; answer, Err(ShelfFault::Failed));
    }
}
