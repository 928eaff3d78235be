//! The text of a summary.
ghost use Rattle.std.specs.Prelude.{◌≡◌, ◌++◌, ◌∷◌, [], OnOk, codes, count_by, decimal};
ghost use Rattle.strict_text.specs.Spaced.{line_text};
ghost use Rattle.big_system.specs.Summary.{count_line, is_blocked, is_fired, is_seen, local_line, locals_text, number_in, replies_text, summary_text};

use crate::philosopher::{CRITICAL, NONCRITICAL, TRYING};
use firing_journal::Asked;
use itoa::Buffer;
use std::alloc::AllocError;

/// Appends the summary of so many processes, so many replies and this seed: of the replies, and of the local states at the end. Linear in
/// both.
pub(crate) fn write_summary(
    count: u64,
    rounds: u64,
    seed: u64,
    list: &[Asked],
    locals: &[u8],
    into: &mut Vec<u8>,
) -> Result<(), AllocError>
    ensures { OnOk result (into.new.items ≡ into.old.items ++ summary_text count rounds seed list.now locals.now) }
{
    write_head(count, rounds, seed, into)?;
    write_replies(list, into)?;
    write_locals(locals, into)?;
    into.extend_from_slice(b"done\n")?;
    Ok(())
}

fn write_head(count: u64, rounds: u64, seed: u64, into: &mut Vec<u8>) -> Result<(), AllocError>
    ensures { OnOk result (into.new.items ≡ into.old.items ++ line_text (codes "big" ∷ decimal count ∷ decimal rounds ∷ decimal seed ∷ [])) }
{
    into.extend_from_slice(b"big")?;
    write_number(count, into)?;
    write_number(rounds, into)?;
    write_number(seed, into)?;
    into.extend_from_slice(b"\n")?;
    Ok(())
}

fn write_replies(list: &[Asked], into: &mut Vec<u8>) -> Result<(), AllocError>
    ensures { OnOk result (into.new.items ≡ into.old.items ++ replies_text list.now) }
{
    write_count(b"fired", fired_in(list), into)?;
    write_count(b"blocked", blocked_in(list), into)?;
    write_count(b"seen", seen_in(list), into)?;
    Ok(())
}

fn write_locals(locals: &[u8], into: &mut Vec<u8>) -> Result<(), AllocError>
    ensures { OnOk result (into.new.items ≡ into.old.items ++ locals_text locals.now) }
{
    write_count(b"local N", number_in(NONCRITICAL, locals), into)?;
    write_count(b"local T", number_in(TRYING, locals), into)?;
    write_count(b"local C", number_in(CRITICAL, locals), into)?;
    Ok(())
}

fn fired_in(list: &[Asked]) -> u64
    ensures { result ≡ count_by is_fired list.now }
{
    list.iter()
        .filter(|asked| matches!(asked, Asked::Fired { .. }))
        .count() as u64
}

fn blocked_in(list: &[Asked]) -> u64
    ensures { result ≡ count_by is_blocked list.now }
{
    list.iter()
        .filter(|asked| matches!(asked, Asked::Blocked { .. }))
        .count() as u64
}

fn seen_in(list: &[Asked]) -> u64
    ensures { result ≡ count_by is_seen list.now }
{
    list.iter()
        .filter(|asked| matches!(asked, Asked::Seen { .. }))
        .count() as u64
}

/// How many of the local states are this one.
fn number_in(local: u8, locals: &[u8]) -> u64
    ensures { result ≡ number_in local locals.now }
{
    locals.iter().filter(|other| **other == local).count() as u64
}

/// A word, and a number behind it.
fn write_count(word: &[u8], n: u64, into: &mut Vec<u8>) -> Result<(), AllocError>
    ensures { OnOk result (into.new.items ≡ into.old.items ++ count_line word.now n) }
{
    into.extend_from_slice(word)?;
    write_number(n, into)?;
    into.extend_from_slice(b"\n")?;
    Ok(())
}

/// A space and the number.
fn write_number(n: u64, into: &mut Vec<u8>) -> Result<(), AllocError>
    ensures { OnOk result (into.new.items ≡ into.old.items ++ 32 ∷ decimal n) }
{
    let mut buffer = Buffer::new();
    into.extend_from_slice(b" ")?;
    into.extend_from_slice(buffer.format(n).as_bytes())?;
    Ok(())
}
