ghost use Rattle.std.specs.Prelude.{◌≡◌, ◌++◌, [], OnOk};
ghost use Rattle.skeleton_tool.specs.Reading.{IsRefusedAs};
ghost use Rattle.skeleton_tool.specs.Refusal.{out_of_limits_text, refused_text};
ghost use Rattle.skeleton_tool.specs.Taking.{StopsAs};

use crate::status::Status;
use crate::stop::Stop;
use itoa::Buffer;
use std::alloc::AllocError;
use text_cause::{TextCause, TextFault, cause_word};

/// How a call stops at a file of this word that is not read: its first bad line is written, or memory ran out.
pub(crate) fn refuse(word: &str, fault: TextFault, text: &mut Vec<u8>) -> Stop
    requires { text.old.items ≡ [] }
    ensures { StopsAs (IsRefusedAs word.now fault) text.new.items result }
{
    let TextFault::At { line, what } = fault else {
        return Stop::Memory;
    };
    match write_refused(word, line, what, text) {
        Ok(()) => Stop::Answered(Status::Refused),
        Err(_) => Stop::Memory,
    }
}

/// Appends the text of a file that is refused: its word, its first bad line and the cause.
fn write_refused(
    word: &str,
    line: u64,
    cause: TextCause,
    into: &mut Vec<u8>,
) -> Result<(), AllocError>
    ensures { OnOk result (into.new.items ≡ into.old.items ++ refused_text word.now line cause) }
{
    let mut buffer = Buffer::new();
    into.extend_from_slice(b"refused ")?;
    into.extend_from_slice(word.as_bytes())?;
    into.extend_from_slice(b" ")?;
    into.extend_from_slice(buffer.format(line).as_bytes())?;
    into.extend_from_slice(b" ")?;
    into.extend_from_slice(cause_word(cause).as_bytes())?;
    into.extend_from_slice(b"\n")?;
    Ok(())
}

/// Appends that a number of the call is out of its limits.
pub(crate) fn write_out_of_limits(into: &mut Vec<u8>) -> Result<(), AllocError>
    ensures { OnOk result (into.new.items ≡ into.old.items ++ out_of_limits_text) }
{
    into.extend_from_slice(b"out of limits\n")?;
    Ok(())
}
