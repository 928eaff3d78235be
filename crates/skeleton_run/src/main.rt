//! The program: its words, the real files, threads and output, the policy of a run's callers, and the status of `top`.
#![tactic(auto)]

ghost use Rattle.std.specs.Prelude.{◌≡◌, ◌<◌};
ghost use Rattle.firing_crew.specs.Policies.{chosen};

use edge_io::{FileShelf, OutSink};
use firing_crew::{Chooser, Policy};
use skeleton_tool::top;
use std::process::ExitCode;
use std::{env, io};

fn main(rt: HostRuntime) -> io::Result<ExitCode> {
    let alloc = rt.alloc();
    let mut words = Vec::new(alloc);
    for word in env::args(&rt)?.skip(1) {
        words.push(word)?;
    }
    let chooser: Chooser = Box::new(
        alloc,
        |count: u64, word: u64| -> u64
            requires { 0 < count }
            ensures { result ≡ chosen 0 count word }
        { word % count },
    )?;
    let policy = Policy::new(chooser, 0);
    let mut shelf = FileShelf::new(&rt);
    let mut sink = OutSink::new(&rt);
    let status = top(&rt, alloc, &words, &mut shelf, &mut sink, &policy);
    Ok(ExitCode::from(status))
}
