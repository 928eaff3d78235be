ghost use Rattle.std.specs.Prelude.{◌≡◌, ◌↔◌, IfNone, IfSome, IsTrue, Some, codes, decimal};
ghost use Rattle.std.specs.Option.{option_map};
ghost use Rattle.skeleton_tool.specs.Command.{AsksRun, begins_with_dash, command_by, command_of, command_on, command_over, command_with, run_with, words_of};
ghost use Rattle.skeleton_tool.specs.Number.{number_of};
ghost use Rattle.skeleton_tool.specs.inside.View.{IsPlain, command_value, run_value};

use strict_text::number;

/// A command, with the words of its files.
#[derive(Clone, Copy, Debug)]
pub(crate) enum Command<'a> {
    Synth(&'a str),
    Prove(&'a str, &'a str),
    Skel(&'a str, &'a str),
    Check(&'a str, &'a str, &'a str),
    Replay(&'a str, &'a str, &'a str),
    Run(RunCall<'a>),
    Migrate(&'a str),
}

/// The words of a run: its files, its callers, the room of each for replies, and its seed.
#[derive(Clone, Copy, Debug)]
pub(crate) struct RunCall<'a> {
    pub(crate) spec: &'a str,
    pub(crate) sol: &'a str,
    pub(crate) callers: u64,
    pub(crate) room: u64,
    pub(crate) seed: u64,
}

/// The command that the words are, if they are one: its name, and as many words as it takes, of which none begins with
/// a dash, and the last three of a run are numbers.
pub(crate) fn command_in(words: &[String]) -> Option<Command<'_>>
    ensures { option_map command_value result ≡ command_of (words_of words.now) }
{
    match words {
        [name, spec] => command_with(name.as_str(), spec.as_str()),
        [name, spec, sol] => command_on(name.as_str(), spec.as_str(), sol.as_str()),
        [name, spec, sol, file] => {
            command_over(name.as_str(), spec.as_str(), sol.as_str(), file.as_str())
        }
        [name, spec, sol, callers, room, seed] => command_by(
            name.as_str(),
            spec.as_str(),
            sol.as_str(),
            callers.as_str(),
            room.as_str(),
            seed.as_str(),
        ),
        _ => None,
    }
}

/// The command of this name over a specification.
fn command_with<'a>(name: &str, spec: &'a str) -> Option<Command<'a>>
    ensures { option_map command_value result ≡ command_with name.now spec.entry.now }
{
    if begins_with_dash(spec) {
        return None;
    }
    if name == "synth" {
        return Some(Command::Synth(spec));
    }
    if name == "migrate" {
        return Some(Command::Migrate(spec));
    }
    None
}

/// The command of this name over a specification and a solution.
fn command_on<'a>(name: &str, spec: &'a str, sol: &'a str) -> Option<Command<'a>>
    ensures { option_map command_value result ≡ command_on name.now spec.entry.now sol.entry.now }
{
    if begins_with_dash(spec) || begins_with_dash(sol) {
        return None;
    }
    if name == "prove" {
        return Some(Command::Prove(spec, sol));
    }
    if name == "skel" {
        return Some(Command::Skel(spec, sol));
    }
    None
}

/// The command of this name over a specification, a solution and a third file.
fn command_over<'a>(name: &str, spec: &'a str, sol: &'a str, file: &'a str) -> Option<Command<'a>>
    ensures { option_map command_value result ≡ command_over name.now spec.entry.now sol.entry.now file.entry.now }
{
    if begins_with_dash(spec) || begins_with_dash(sol) || begins_with_dash(file) {
        return None;
    }
    if name == "check" {
        return Some(Command::Check(spec, sol, file));
    }
    if name == "replay" {
        return Some(Command::Replay(spec, sol, file));
    }
    None
}

/// The command of this name over a specification, a solution and three numbers.
fn command_by<'a>(
    name: &str,
    spec: &'a str,
    sol: &'a str,
    callers: &str,
    room: &str,
    seed: &str,
) -> Option<Command<'a>>
    ensures { option_map command_value result ≡ command_by name.now spec.entry.now sol.entry.now callers.now room.now seed.now }
{
    if begins_with_dash(spec) || begins_with_dash(sol) {
        return None;
    }
    if name == "run" {
        return run_with(spec, sol, callers, room, seed);
    }
    None
}

/// The run of a solution, if these words are numbers.
fn run_with<'a>(
    spec: &'a str,
    sol: &'a str,
    callers: &str,
    room: &str,
    seed: &str,
) -> Option<Command<'a>>
    ensures { option_map command_value result ≡ run_with spec.entry.now sol.entry.now callers.now room.now seed.now }
{
    let callers = number_in(callers)?;
    let room = number_in(room)?;
    let seed = number_in(seed)?;
    Some(Command::Run(RunCall {
        spec,
        sol,
        callers,
        room,
        seed,
    }))
}

/// The run that the words are, if they are one.
pub(crate) fn run_in(words: &[String]) -> Option<RunCall<'_>>
    ensures some { IfSome result (λ call. command_of (words_of words.now) ≡ Some (run_value call)) }
    ensures none { IfNone result (IsPlain (command_of (words_of words.now))) }
{
    match command_in(words) {
        Some(Command::Run(call)) => Some(call),
        _ => None,
    }
}

/// Whether the first word is `run`: such a call waits for threads, and `plan` does not answer it.
pub fn is_run(words: &[String]) -> bool
    ensures { IsTrue result ↔ AsksRun (words_of words.now) }
{
    match words {
        [name, ..] => names_run(name.as_str()),
        _ => false,
    }
}

fn names_run(name: &str) -> bool
    ensures { IsTrue result ↔ (name.now ≡ codes "run") }
{
    name == "run"
}

/// The number that the word writes, if it writes one of 64 bits.
fn number_in(word: &str) -> Option<u64>
    ensures { result ≡ number_of word.now }
{
    match number(word.as_bytes()) {
        Some(n) => spelled(word, n),
        None => None,
    }
}

/// The number whose decimal text the word is.
fn spelled(word: &str, n: u64) -> Option<u64>
    requires { word.now ≡ decimal n }
    ensures { result ≡ number_of word.now }
{
    Some(n)
}

fn begins_with_dash(word: &str) -> bool
    ensures { result ≡ begins_with_dash word.now }
{
    matches!(word.as_bytes(), [b'-', ..])
}
