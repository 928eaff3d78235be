ghost use Rattle.std.specs.Prelude.{◌≡◌, ◌<◌, [], IfOk, All, length, Some};
ghost use Rattle.skeleton_tool.specs.Answer.{AnswersWords, AnswersCommand};
ghost use Rattle.skeleton_tool.specs.Command.{command_of, asked_files, words_of};
ghost use Rattle.skeleton_tool.specs.Taking.{shelf_seen, EndsAs, KeepsShelf};
ghost use Rattle.skeleton_tool.specs.inside.View.{IsPlain, command_value};

use crate::checking::check;
use crate::command::{Command, command_in};
use crate::migrating::migrate;
use crate::proving::prove;
use crate::replaying::replay;
use crate::showing::skel;
use crate::status::Status;
use crate::stop::Stop;
use crate::synthesis::synth;
use edge_io::Shelf;
use pair_structure::Memory;
use std::alloc::Global;

/// Writes the answer to these words, which are no run, and gives its status.
pub(crate) fn answer<S: Shelf>(
    alloc: Global,
    words: &[String],
    shelf: &mut S,
    text: &mut Vec<u8>,
) -> Result<Status, Memory>
    requires allowed { All (λ file. S.may_ask shelf.old file.0 file.1) (asked_files (command_of (words_of words.now))) }
    requires plain { IsPlain (command_of (words_of words.now)) }
    requires empty { text.old.items ≡ [] }
    ensures answer { IfOk result (λ status. AnswersWords (words_of words.now) (shelf_seen S.files S.faults S.longs shelf.old shelf.new) status text.new.items) }
    ensures some { IfOk result (λ status. 0 < length text.new.items) }
    ensures kept { KeepsShelf S.files S.faults S.longs S.may_ask shelf.old shelf.new }
{
    match command_in(words) {
        Some(command) => {
            match answer_command(alloc, command, shelf, text) {
                Ok(status) => Ok(status),
                Err(Stop::Answered(status)) => Ok(status),
                Err(Stop::Memory) => Err(Memory),
            }
        }
        None => {
            text.extend_from_slice(
                b"usage:\n  synth SPEC\n  prove SPEC SOL\n  skel SPEC SOL\n  check SPEC SOL CERT\n  replay SPEC SOL JOURNAL\n  run SPEC SOL CALLERS ROOM SEED\n  migrate SPEC\n",
            )?;
            Ok(Status::Usage)
        }
    }
}

/// Does what the command says, which is no run.
fn answer_command<S: Shelf>(
    alloc: Global,
    command: Command<'_>,
    shelf: &mut S,
    text: &mut Vec<u8>,
) -> Result<Status, Stop>
    requires allowed { All (λ file. S.may_ask shelf.old file.0 file.1) (asked_files (Some (command_value command))) }
    requires plain { IsPlain (Some (command_value command)) }
    requires empty { text.old.items ≡ [] }
    ensures ends { EndsAs (AnswersCommand (shelf_seen S.files S.faults S.longs shelf.old shelf.new) (command_value command.entry)) text.new.items result }
    ensures kept { KeepsShelf S.files S.faults S.longs S.may_ask shelf.old shelf.new }
{
    match command {
        Command::Synth(spec) => {
            let status = synth(alloc, spec, shelf, text)?;
            Ok(status)
        }
        Command::Prove(spec, sol) => {
            let status = prove(alloc, spec, sol, shelf, text)?;
            Ok(status)
        }
        Command::Skel(spec, sol) => {
            let status = skel(alloc, spec, sol, shelf, text)?;
            Ok(status)
        }
        Command::Check(spec, sol, certificate) => {
            check(alloc, spec, sol, certificate, shelf, text)
        }
        Command::Replay(spec, sol, journal) => replay(alloc, spec, sol, journal, shelf, text),
        Command::Run(_) => unreachable!(),
        Command::Migrate(spec) => {
            let status = migrate(alloc, spec, shelf, text)?;
            Ok(status)
        }
    }
}
