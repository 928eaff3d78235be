ghost use Rattle.std.specs.Prelude.{◌<◌, ◌≤◌, All, length};
ghost use Rattle.skeleton_tool.specs.Answer.{AnswersWords, sink_seen, IsOutcome, IsPlanned, IsSaid};
ghost use Rattle.skeleton_tool.specs.Command.{AsksRun, command_of, asked_files, words_of};
ghost use Rattle.skeleton_tool.specs.Complete.{Decides};
ghost use Rattle.skeleton_tool.specs.Headline.{Promises};
ghost use Rattle.skeleton_tool.specs.Taking.{shelf_seen, KeepsShelf};
ghost use Rattle.skeleton_tool.specs.inside.View.{IsPlain};

use crate::answer::answer;
use crate::status::Status;
use edge_io::{Shelf, Sink};
use pair_structure::Memory;
use std::alloc::Global;

/// Does what the words say, and gives the status that the program ends with: every command but `run`, which `top` does. The
/// shelf is asked for the files of the command alone, with their limits. The whole text of the answer is made before it is
/// written, in one put.
pub fn plan<S: Shelf, K: Sink>(alloc: Global, words: &[String], shelf: &mut S, sink: &mut K) -> u8
    requires allowed { All (λ file. S.may_ask shelf.old file.0 file.1) (asked_files (command_of (words_of words.now))) }
    requires not_run { AsksRun (words_of words.now) → ⊥ }
    ensures planned { IsPlanned (words_of words.now) (shelf_seen S.files S.faults S.longs shelf.old shelf.new) (sink_seen K.written K.faults sink.old sink.new) result }
    ensures promises { Promises (words_of words.now) (shelf_seen S.files S.faults S.longs shelf.old shelf.new) (sink_seen K.written K.faults sink.old sink.new) result }
    ensures decides { Decides (words_of words.now) (shelf_seen S.files S.faults S.longs shelf.old shelf.new) (sink_seen K.written K.faults sink.old sink.new) result }
    ensures kept { KeepsShelf S.files S.faults S.longs S.may_ask shelf.old shelf.new }
    ensures faults_stay { K.faults sink.old ≤ K.faults sink.new }
{
    let status = perform(alloc, words, shelf, sink);
    status.code()
}

/// Answers the words, which are no run, and says the answer.
pub(crate) fn perform<S: Shelf, K: Sink>(
    alloc: Global,
    words: &[String],
    shelf: &mut S,
    sink: &mut K,
) -> Status
    requires allowed { All (λ file. S.may_ask shelf.old file.0 file.1) (asked_files (command_of (words_of words.now))) }
    requires plain { IsPlain (command_of (words_of words.now)) }
    ensures outcome { IsOutcome (AnswersWords (words_of words.now) (shelf_seen S.files S.faults S.longs shelf.old shelf.new)) (sink_seen K.written K.faults sink.old sink.new) result }
    ensures kept { KeepsShelf S.files S.faults S.longs S.may_ask shelf.old shelf.new }
    ensures faults_stay { K.faults sink.old ≤ K.faults sink.new }
{
    let mut text = Vec::new(alloc);
    match answer(alloc, words, shelf, &mut text) {
        Ok(status) => say(&text, status, sink),
        Err(Memory) => Status::OutOfMemory,
    }
}

/// Puts a text, and gives this status, or that of a write fault.
pub(crate) fn say<K: Sink>(text: &[u8], status: Status, sink: &mut K) -> Status
    requires { 0 < length text.now }
    ensures said { IsSaid status text.now (sink_seen K.written K.faults sink.old sink.new) result }
    ensures faults_stay { K.faults sink.old ≤ K.faults sink.new }
{
    match sink.put(text) {
        Ok(()) => status,
        Err(_) => Status::WriteFault,
    }
}
