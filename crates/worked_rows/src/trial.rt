//! One call of the program's commands over the files in the folder.

ghost use Rattle.std.specs.Prelude.{◌≡◌, ◌<◌};
ghost use Rattle.firing_crew.specs.Policies.{chosen};

use edge_io::{FileShelf, MemorySink};
use firing_crew::{Chooser, Policy};
use skeleton_tool::top;
use std::alloc::{AllocError, Global};
use std::rt::Files;
use std::sync::Wait;
use std::thread::Threads;

/// Room for each answer.
const ROOM: usize = 4_194_304;

/// How a call ended, and what it wrote.
#[derive(Drop)]
pub struct Told {
    pub status: u8,
    pub written: Vec<u8>,
}

/// What `top` answers to these words, with the policy of the program.
pub fn answered<R: Files + Threads + Wait + Sync>(
    rt: &R,
    alloc: Global,
    words: &[String],
) -> Result<Told, AllocError> {
    let chooser: Chooser = Box::new(
        alloc,
        |count: u64, word: u64| -> u64
            requires { 0 < count }
            ensures { result ≡ chosen 0 count word }
        { word % count },
    )?;
    let policy = Policy::new(chooser, 0);
    let mut shelf = FileShelf::new(rt);
    let mut sink = MemorySink::new(alloc, ROOM, Vec::new(alloc))?;
    let status = top(rt, alloc, words, &mut shelf, &mut sink, &policy);
    let written = Vec::from_slice(alloc, sink.bytes())?;
    Ok(Told { status, written })
}
