ghost use Rattle.std.specs.Prelude.{◌≡◌, ◌≤◌, ◌<◌, ◌↔◌, [], Some, length, IfOk, OnOk, OnErr, IsErr};
ghost use Rattle.edge_io.specs.MemorySink.{Refuses, after_taken, after_refused};

use crate::{Sink, SinkFault};
use std::alloc::{AllocError, Global};
use std::marker::Model;

/// A sink in memory, for tests. The puts whose numbers are `failing`, counted from 0, fail,
/// and so does each whose piece would go past `room` bytes. A put that fails appends nothing.
#[derive(Drop)]
pub struct MemorySink {
    bytes: Vec<u8>,
    room: usize,
    failing: Vec<u64>,
    puts: u64,
    faults: u64,
}

impl Model for MemorySink {
    ghost use Rattle.std.specs.Prelude.{◌≤◌, vec_len, vec_capacity};
    ghost use Rattle.edge_io.specs.MemorySink.{SinkState};

    ghost Value = { SinkState };

    ghost view = { λ s. record {
      bytes = s.bytes.items;
      room = s.room;
      failing = s.failing.items;
      puts = s.puts;
      faults = s.faults;
    } };

    ghost invariant = { λ s. (vec_len s.bytes ≤ s.room) × (s.room ≤ vec_capacity s.bytes) };
}

impl MemorySink {
    /// Takes the memory for `room` bytes, so that no put takes any.
    pub fn new(alloc: Global, room: usize, failing: Vec<u64>) -> Result<MemorySink, AllocError>
        ensures { IfOk result (λ sink. sink ≡ record {
          bytes = [];
          room = room;
          failing = failing.items;
          puts = 0;
          faults = 0;
        }) }
    {
        Ok(MemorySink {
            bytes: Vec::with_capacity(alloc, room)?,
            room,
            failing,
            puts: 0,
            faults: 0,
        })
    }

    pub fn bytes(&self) -> &[u8]
        ensures written { result.now ≡ self.now.bytes }
        ensures within { length result.now ≤ self.now.room }
    {
        &self.bytes
    }
}

impl Sink for MemorySink {
    ghost written = { λ s. Some s.bytes };

    ghost faults = { λ s. s.faults };

    fn put(&mut self, bytes: &[u8]) -> Result<(), SinkFault>
        requires { 0 < length bytes.now }

        ensures taken { OnOk result (self.new ≡ after_taken self.old bytes.now) }
        ensures refused { OnErr result (self.new ≡ after_refused self.old) }
        ensures fails { IsErr result ↔ Refuses self.old bytes.now }
        ensures faults_stay { self.old.faults ≤ self.new.faults }
    {
        let number = self.puts;
        self.puts = self.puts.saturating_add(1);
        if self.failing.contains(&number) || bytes.len() > self.room - self.bytes.len() {
            self.faults = self.faults.saturating_add(1);
            return Err(SinkFault::Failed);
        }
        self.bytes.extend_from_slice(bytes).unwrap();
        Ok(())
    }
}
