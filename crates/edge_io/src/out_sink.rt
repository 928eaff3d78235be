ghost use Rattle.std.specs.Prelude.{◌≡◌, ◌≤◌, ◌<◌, ℕ, None, length, take, min, OnOk, OnErr};
ghost use Rattle.std.specs.Io.KnownBytes.{Appends};
ghost use Rattle.edge_io.specs.Counts.{next_count};

use crate::{Sink, SinkFault};
use std::io;
use std::io::Write;
use std::marker::Model;

/// The standard output. It tells no content, keeps no bytes back, and takes no memory.
#[derive(Drop)]
pub struct OutSink<'a, R: Print> {
    rt: &'a R,
    faults: u64,
}

impl<'a, R: Print> Model for OutSink<'a, R> {
    ghost use Rattle.std.specs.Prelude.{ℕ};

    ghost Value = { ℕ };

    ghost view = { λ s. s.faults };
}

impl<'a, R: Print> OutSink<'a, R> {
    pub fn new(rt: &'a R) -> OutSink<'a, R>
        ensures { result ≡ 0 }
    {
        OutSink { rt, faults: 0 }
    }
}

impl<R: Print> Sink for OutSink<'_, R> {
    ghost written = { λ s. None };

    ghost faults = { λ s. s };

    fn put(&mut self, bytes: &[u8]) -> Result<(), SinkFault>
        requires { 0 < length bytes.now }

        ensures taken { OnOk result (self.new ≡ self.old) }
        ensures failed { OnErr result (self.new ≡ next_count self.old) }
        ensures faults_stay { self.old ≤ self.new }
    {
        // This writer hands each byte on at once, so there is nothing to flush.
        let answer = write_whole(&mut io::writer(self.rt), bytes);
        if answer.is_err() {
            self.faults = self.faults.saturating_add(1);
        }
        answer
    }
}

/// Writes all bytes, or some of the first and fails. A write that takes none is a fault.
fn write_whole<W: Write>(out: &mut W, bytes: &[u8]) -> Result<(), SinkFault>
    ensures whole { OnOk result (Appends (W.contents out.old) (W.contents out.new) bytes.now) }
    ensures part { OnErr result
        ((n : ℕ) × Appends (W.contents out.old) (W.contents out.new) (take n bytes.now)) }
{
    let mut left = bytes;
    while !left.is_empty() {
        match out.write(left) {
            Ok(count) if count > 0 => left = &left[count..],
            _ => return Err(SinkFault::Failed),
        }
    }
    Ok(())
}

#[cfg(test)]
mod tests {
    use super::*;
    use std::test::Fail;

    /// Takes two bytes a write up to its room, and then none.
    #[derive(Drop)]
    struct Narrow {
        taken: Vec<u8>,
        room: usize,
    }

    impl Write for Narrow {
        fn write(&mut self, buf: &[u8]) -> io::Result<usize> {
            let count = buf.len().min(2).min(self.room);
            self.taken.extend_from_slice(&buf[..count])?;
            self.room -= count;
            Ok(count)
        }

        fn flush(&mut self) -> io::Result<()> {
            Ok(())
        }
    }

    #[test]
    fn writes_to_the_end_or_fails(rt: HostRuntime) -> Result<(), Fail> {
        for (room, answer, taken) in [
            (5, Ok(()), "whole"),
            (4, Err(SinkFault::Failed), "whol"),
            (0, Err(SinkFault::Failed), ""),
        ] {
            let mut out = Narrow {
                taken: Vec::new(rt.alloc()),
                room,
            };
            assert_eq!(rt; write_whole(&mut out, b"whole"), answer, "{room}");
            assert_eq!(rt; out.taken.as_slice(), taken.as_bytes(), "{room}");
        }
        Ok(())
    }
}
