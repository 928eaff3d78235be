//! `plan` and `top` over files and an output in memory, of which a call may fail.

ghost use Rattle.std.specs.Prelude.{◌≡◌, ◌<◌, All};
ghost use Rattle.firing_crew.specs.Policies.{chosen};
ghost use Rattle.skeleton_tool.specs.Command.{AsksRun, asked_files, command_of, words_of};

use edge_io::{MemoryShelf, MemorySink, Shelf, Sink};
use firing_crew::{Chooser, Policy};
use samples::{PHIL, cut, differing, long, to_lines, to_slashes};
use skeleton_tool::{is_run, plan, top};
use std::alloc::Global;
use std::test::Fail;

/// The specification: a kind of philosophers, and one process.
const KIND: &str = "kind k phil phil/require AG !(a.C & b.C)/end/process p phil/";

/// A solution of it: of two that wait, side a goes.
const SOLUTION: &str =
    "solution 1/kind k/state N N/state T N/state N T/state C N/state T T/state N C/state C T/state T C/move 0 a 1/move 0 b 2/move 1 a 3/move 1 b 4/move 2 a 4/move 2 b 5/move 3 a 0/move 3 b 6/move 4 a 6/move 5 a 7/move 5 b 0/move 6 a 2/move 7 b 1/end/done/";

/// A certificate for one process: it has no neighbour, so no star is asked for.
const CERTIFICATE: &str = "certificate 1/done/";

const JOURNAL: &str = "journal 1/entry 0 0 0 0 0/done/";

/// The number of the call of the shelf that fails and that of the put that fails, and the words; then the status and
/// what is written.
const CALLS: &str = "9 9 prove spec sol = 0 solves/
9 9 check spec sol cert = 0 accepted/
9 9 replay spec sol journal = 0 run 1/process p T 1/done/
9 9 synth other = 5 read fault spec/
9 9 check spec sol other = 5 read fault certificate/
9 9 replay spec sol other = 5 read fault journal/
0 9 synth spec = 5 read fault spec/
0 9 prove spec sol = 5 read fault spec/
1 9 prove spec sol = 5 read fault solution/
1 9 skel spec sol = 5 read fault solution/
2 9 check spec sol cert = 5 read fault certificate/
2 9 replay spec sol journal = 5 read fault journal/
0 9 migrate spec = 5 read fault spec/
9 0 synth spec = 6
9 0 prove spec sol = 6
9 0 skel spec sol = 6
9 0 check spec sol cert = 6
9 0 replay spec sol journal = 6
9 0 migrate spec = 6
9 0 synth other = 6
9 0 synth = 6
9 9 synth - = 1 usage:/  synth SPEC/  prove SPEC SOL/  skel SPEC SOL/  check SPEC SOL CERT/  replay SPEC SOL JOURNAL/  run SPEC SOL CALLERS ROOM SEED/  migrate SPEC/";

/// The same of runs, which `top` answers, and of other words that it does.
const RUNS: &str =
    "9 9 run spec sol 1 2 0 = 0 journal 1/entry 0 0 0 0 5624/entry 1 0 0 1 51790/done/report 1/caller 0/fired 0 0 5624 0/fired 0 1 51790 1/end/
9 9 run spec sol 2 2 0 = 7 out of limits/
9 9 run spec sol 1 0 0 = 7 out of limits/
0 9 run spec sol 1 2 0 = 5 read fault spec/
1 9 run spec sol 1 2 0 = 5 read fault solution/
9 9 run other sol 1 2 0 = 5 read fault spec/
9 0 run spec sol 1 2 0 = 6
9 0 run spec sol 2 2 0 = 6
9 0 run spec sol 1 2 = 6
9 9 prove spec sol = 0 solves/
1 9 prove spec sol = 5 read fault solution/
9 0 prove spec sol = 6";

fn files(alloc: Global) -> Result<Vec<(String, Vec<u8>)>, Fail> {
    let spec = format!(in alloc; "pairs 1/{PHIL}{KIND}done/")?;
    let mut files = Vec::new(alloc);
    for (name, text) in [
        ("spec", spec.as_str()),
        ("sol", SOLUTION),
        ("cert", CERTIFICATE),
        ("journal", JOURNAL),
    ] {
        let text = to_lines(alloc, text)?;
        let bytes = Vec::from_slice(alloc, text.as_str().as_bytes())?;
        files.push((String::from_str(alloc, name)?, bytes))?;
    }
    Ok(files)
}

/// The status of `plan`, and what it writes.
fn planned(alloc: Global, words: &str, shelf: u64, sink: u64) -> Result<String, Fail> {
    let owned = owned(alloc, words)?;
    if is_run(&owned) {
        return Err(Fail::from("words that do not begin with `run`"));
    }
    let mut shelf = MemoryShelf::new(files(alloc)?, vec![in alloc; shelf]?);
    let mut sink = MemorySink::new(alloc, 4_096, vec![in alloc; sink]?)?;
    let status = plan(alloc, &owned, &mut shelf, &mut sink);
    let text = to_slashes(alloc, sink.bytes())?;
    Ok(format!(in alloc; "{status} {text}")?)
}

fn owned(alloc: Global, words: &str) -> Result<Vec<String>, Fail> {
    let mut owned = Vec::new(alloc);
    for word in words.split(' ') {
        owned.push(String::from_str(alloc, word)?)?;
    }
    Ok(owned)
}

fn told(alloc: Global, asked: &str) -> Result<String, Fail> {
    let (shelf, rest) = cut(asked, " ");
    let (sink, words) = cut(rest, " ");
    planned(alloc, words, long(shelf), long(sink))
}

#[test]
fn answers_each_command(rt: HostRuntime) -> Result<(), Fail> {
    assert_eq!(rt; differing(rt.alloc(), CALLS, told)?.as_str(), "");
    Ok(())
}

#[test]
fn answers_runs(rt: HostRuntime) -> Result<(), Fail> {
    let alloc = rt.alloc();
    let chooser: Chooser = Box::new(
        alloc,
        |count: u64, word: u64| -> u64
            requires { 0 < count }
            ensures { result ≡ chosen 0 count word }
        { word % count },
    )?;
    let policy = Policy::new(chooser, 0);
    let mut told = String::new(alloc);
    for row in RUNS.lines() {
        let (asked, answer) = cut(row, " =");
        let (shelf, rest) = cut(asked, " ");
        let (sink, words) = cut(rest, " ");
        let mut shelf = MemoryShelf::new(files(alloc)?, vec![in alloc; long(shelf)]?);
        let mut sink = MemorySink::new(alloc, 4_096, vec![in alloc; long(sink)]?)?;
        let status = top(
            &rt,
            alloc,
            &owned(alloc, words)?,
            &mut shelf,
            &mut sink,
            &policy,
        );
        let text = to_slashes(alloc, sink.bytes())?;
        let text = format!(in alloc; "{status} {text}")?;
        if text.as_str().trim() != answer.trim() {
            told.push_str(&format!(in alloc; "{row}, told: {text}\n")?)?;
        }
    }
    assert_eq!(rt; told.as_str(), "");
    Ok(())
}

/// The statuses of two calls on one shelf, one after the other, by a caller that knows the shelf by its trait alone.
fn planned_twice<S: Shelf, K: Sink>(
    alloc: Global,
    first: &[String],
    second: &[String],
    shelf: &mut S,
    sink: &mut K,
) -> (u8, u8)
    requires first { All (λ file. S.may_ask shelf.old file.0 file.1) (asked_files (command_of (words_of first.now))) }
    requires second { All (λ file. S.may_ask shelf.old file.0 file.1) (asked_files (command_of (words_of second.now))) }
    requires first_plain { AsksRun (words_of first.now) → ⊥ }
    requires second_plain { AsksRun (words_of second.now) → ⊥ }
{
    let one = plan(alloc, first, shelf, sink);
    let other = plan(alloc, second, shelf, sink);
    (one, other)
}

/// `synth` and then `prove` of the same specification, on one shelf in memory.
fn twice_told(alloc: Global) -> Result<String, Fail> {
    let first = owned(alloc, "synth spec")?;
    let second = owned(alloc, "prove spec sol")?;
    if is_run(&first) || is_run(&second) {
        return Err(Fail::from("words that do not begin with `run`"));
    }
    let mut shelf = MemoryShelf::new(files(alloc)?, Vec::new(alloc));
    let mut sink = MemorySink::new(alloc, 4_096, Vec::new(alloc))?;
    let (one, other) = planned_twice(alloc, &first, &second, &mut shelf, &mut sink);
    Ok(format!(in alloc; "{one} {other}")?)
}

#[test]
fn answers_twice_on_one_shelf(rt: HostRuntime) -> Result<(), Fail> {
    assert_eq!(rt; twice_told(rt.alloc())?.as_str(), "0 0");
    Ok(())
}
