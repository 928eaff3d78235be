//! Shelves and sinks, in memory and over the real files and output; and callers that know them by their traits alone.

ghost use Rattle.std.specs.Prelude.{◌≡◌, []};

use crate::table::agree;
use edge_io::{FileShelf, MemoryShelf, MemorySink, OutSink, Shelf, ShelfFault, Sink};
use samples::{cut, long};
use std::alloc::Global;
use std::rt::Files;
use std::test::Fail;
use std::{fs, process};

/// Takes a file into the empty `into`.
fn take<S: Shelf>(shelf: &mut S, name: &str, max: u64, into: &mut Vec<u8>) -> Result<(), ShelfFault>
    requires empty { into.old.items ≡ [] }
    requires allowed { S.may_ask shelf.old name.now max }
{
    shelf.take(name, max, into)
}

/// What the shelf answers, and the bytes.
fn taken<S: Shelf>(alloc: Global, shelf: &mut S, name: &str, max: u64) -> Result<String, Fail>
    requires { S.may_ask shelf.old name.now max }
{
    let mut into = Vec::new(alloc);
    let answer = take(shelf, name, max, &mut into);
    let text = String::from_utf8_lossy(alloc, &into)?;
    Ok(format!(in alloc; "{answer:?} {text}")?)
}

/// Calls 2 and 4 of this shelf fail. A name, the most bytes, and what is answered.
const TAKEN: &str = "spec 5 = Ok(()) three
spec 4 = Err(Long)
spec 5 = Err(Failed)
other 5 = Err(Failed)
spec 5 = Err(Failed)
spec 18446744073709551615 = Ok(()) three
empty 0 = Ok(())
";

fn memory_shelf(alloc: Global) -> Result<MemoryShelf, Fail> {
    let mut files = Vec::new(alloc);
    for word in "spec:three empty: spec:other".split(' ') {
        let (name, bytes) = cut(word, ":");
        let bytes = Vec::from_slice(alloc, bytes.as_bytes())?;
        files.push((String::from_str(alloc, name)?, bytes))?;
    }
    Ok(MemoryShelf::new(files, vec![in alloc; 2, 4, 9]?))
}

/// What the shelf answers to each question of the table.
fn shelf_told(alloc: Global) -> Result<String, Fail> {
    let mut shelf = memory_shelf(alloc)?;
    let mut text = String::new(alloc);
    for row in TAKEN.lines() {
        let (asked, _) = cut(row, " =");
        let (name, max) = cut(asked, " ");
        let answer = taken(alloc, &mut shelf, name, long(max))?;
        text.push_str(&format!(in alloc; "{asked} = {}\n", answer.trim())?)?;
    }
    Ok(text)
}

#[test]
fn shelves_in_memory_answer_as_told(rt: HostRuntime) -> Result<(), Fail> {
    agree(&rt, shelf_told(rt.alloc()), TAKEN)
}

/// Puts a piece, and gives whether it was taken.
fn put<K: Sink>(sink: &mut K, piece: &str) -> bool {
    !piece.as_bytes().is_empty() && sink.put(piece.as_bytes()).is_ok()
}

/// Puts 1 and 5 of this sink fail, and there is room for six bytes. Pieces, whether they are taken, and what the sink has then.
const PUTS: &str = "one true one
two false one
four false one
two true onetwo
x false onetwo
x false onetwo
";

fn sink_told(alloc: Global) -> Result<String, Fail> {
    let mut sink = MemorySink::new(alloc, 6, vec![in alloc; 1, 5]?)?;
    let mut text = String::new(alloc);
    for piece in "one two four two x x".split(' ') {
        let is_taken = put(&mut sink, piece);
        let bytes = String::from_utf8_lossy(alloc, sink.bytes())?;
        text.push_str(&format!(in alloc; "{piece} {is_taken} {bytes}\n")?)?;
    }
    Ok(text)
}

#[test]
fn sinks_in_memory_answer_as_told(rt: HostRuntime) -> Result<(), Fail> {
    agree(&rt, sink_told(rt.alloc()), PUTS)
}

#[test]
fn puts_to_the_real_output(rt: HostRuntime) {
    assert!(rt; put(&mut OutSink::new(&rt), "a short text\n"));
}

/// The length of the answer to a real file of 40,000 bytes, and what is answered to it with one byte too many, to one that is not there, and to a folder.
const REAL: &str = "40007, Err(Long), Err(Failed), Err(Failed)";

fn real_told<R: Files>(rt: &R, alloc: Global, name: &str) -> Result<String, Fail> {
    let mut shelf = FileShelf::new(rt);
    let whole = taken(alloc, &mut shelf, name, 40_000)?.len();
    let long = taken(alloc, &mut shelf, name, 39_999)?;
    fs::remove_file(rt, name)?;
    let missing = taken(alloc, &mut shelf, name, 40_000)?;
    let folder = taken(alloc, &mut shelf, "/tmp", 40_000)?;
    Ok(format!(in alloc;
        "{whole}, {}, {}, {}",
        long.trim(),
        missing.trim(),
        folder.trim()
    )?)
}

#[test]
fn takes_real_files(rt: HostRuntime) -> Result<(), Fail> {
    let name = format!(in rt.alloc(); "/tmp/call_tests_shelf_{}", process::id(rt.process()))?;
    let bytes = vec![in rt.alloc(); b'x'; 40_000]?;
    fs::write(&rt, name.as_str(), bytes.as_slice())?;
    agree(&rt, real_told(&rt, rt.alloc(), name.as_str()), REAL)
}
