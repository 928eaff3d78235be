ghost use Rattle.std.specs.Prelude.{◌≤◌, All};
ghost use Rattle.skeleton_tool.specs.Answer.{AnswersBoth, sink_seen, IsOutcome};
ghost use Rattle.skeleton_tool.specs.Command.{asked_files, command_of, solution_limit, spec_limit, words_of};
ghost use Rattle.skeleton_tool.specs.Complete.{Decides, DecidesFiring};
ghost use Rattle.skeleton_tool.specs.Headline.{Promises, RunReports};
ghost use Rattle.skeleton_tool.specs.Run.{Runs};
ghost use Rattle.skeleton_tool.specs.Taking.{shelf_seen, KeepsShelf};
ghost use Rattle.skeleton_tool.specs.Top.{AnswersTop, IsTopped};

use crate::call::{perform, say};
use crate::command::{RunCall, run_in};
use crate::running::run;
use crate::status::Status;
use crate::stop::Stop;
use edge_io::{Shelf, Sink};
use firing_crew::Policy;
use std::alloc::Global;
use std::sync::Wait;
use std::thread::Threads;

/// Does what the words say, `run` too, and gives the status that the program ends with. Whether and when a run returns is not
/// said: it waits for its threads. All else is as `plan` has it.
pub fn top<R: Threads + Wait + Sync, S: Shelf, K: Sink>(
    rt: &R,
    alloc: Global,
    words: &[String],
    shelf: &mut S,
    sink: &mut K,
    policy: &Policy,
) -> u8
    requires allowed { All (λ file. S.may_ask shelf.old file.0 file.1) (asked_files (command_of (words_of words.now))) }
    ensures topped { IsTopped policy.now.turn (words_of words.now) (shelf_seen S.files S.faults S.longs shelf.old shelf.new) (sink_seen K.written K.faults sink.old sink.new) result }
    ensures promises { Promises (words_of words.now) (shelf_seen S.files S.faults S.longs shelf.old shelf.new) (sink_seen K.written K.faults sink.old sink.new) result }
    ensures reports { RunReports policy.now.turn (words_of words.now) (shelf_seen S.files S.faults S.longs shelf.old shelf.new) (sink_seen K.written K.faults sink.old sink.new) result }
    ensures decides { Decides (words_of words.now) (shelf_seen S.files S.faults S.longs shelf.old shelf.new) (sink_seen K.written K.faults sink.old sink.new) result }
    ensures decides_firing { DecidesFiring (words_of words.now) (shelf_seen S.files S.faults S.longs shelf.old shelf.new) (sink_seen K.written K.faults sink.old sink.new) result }
    ensures kept { KeepsShelf S.files S.faults S.longs S.may_ask shelf.old shelf.new }
    ensures faults_stay { K.faults sink.old ≤ K.faults sink.new }
{
    let status = perform_top(rt, alloc, words, shelf, sink, policy);
    status.code()
}

/// Answers the words, a run or not, and says the answer.
fn perform_top<R: Threads + Wait + Sync, S: Shelf, K: Sink>(
    rt: &R,
    alloc: Global,
    words: &[String],
    shelf: &mut S,
    sink: &mut K,
    policy: &Policy,
) -> Status
    requires allowed { All (λ file. S.may_ask shelf.old file.0 file.1) (asked_files (command_of (words_of words.now))) }
    ensures outcome { IsOutcome (AnswersTop policy.now.turn (words_of words.now) (shelf_seen S.files S.faults S.longs shelf.old shelf.new)) (sink_seen K.written K.faults sink.old sink.new) result }
    ensures kept { KeepsShelf S.files S.faults S.longs S.may_ask shelf.old shelf.new }
    ensures faults_stay { K.faults sink.old ≤ K.faults sink.new }
{
    match run_in(words) {
        Some(call) => perform_run(rt, alloc, call, shelf, sink, policy),
        None => perform(alloc, words, shelf, sink),
    }
}

/// Answers a run, and says the answer.
fn perform_run<R: Threads + Wait + Sync, S: Shelf, K: Sink>(
    rt: &R,
    alloc: Global,
    call: RunCall<'_>,
    shelf: &mut S,
    sink: &mut K,
    policy: &Policy,
) -> Status
    requires spec { S.may_ask shelf.old call.spec.now spec_limit }
    requires sol { S.may_ask shelf.old call.sol.now solution_limit }
    ensures outcome { IsOutcome (AnswersBoth (Runs policy.now.turn call.entry.callers call.entry.room call.entry.seed) (shelf_seen S.files S.faults S.longs shelf.old shelf.new) call.entry.spec.now call.entry.sol.now) (sink_seen K.written K.faults sink.old sink.new) result }
    ensures kept { KeepsShelf S.files S.faults S.longs S.may_ask shelf.old shelf.new }
    ensures faults_stay { K.faults sink.old ≤ K.faults sink.new }
{
    let mut text = Vec::new(alloc);
    match run(rt, alloc, call, policy, shelf, &mut text) {
        Ok(status) => say(&text, status, sink),
        Err(Stop::Answered(status)) => say(&text, status, sink),
        Err(Stop::Memory) => Status::OutOfMemory,
    }
}
