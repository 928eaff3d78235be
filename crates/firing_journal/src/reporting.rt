//! The text of a report: that of its journal, and behind it a line for each reply, under the caller that it was given to.
ghost use Rattle.std.specs.Prelude.{◌≡◌, ◌∷◌, ◌++◌, OnErr, OnOk, decimal, map};
ghost use Rattle.std.specs.List.{flat_map};
ghost use Rattle.strict_text.specs.Spaced.{line_text};
ghost use Rattle.firing_journal.specs.Report.{lists_in, lists_of};
ghost use Rattle.firing_journal.specs.ReportText.{asked_text, caller_text, callers_text, number_text, report_text};

use crate::write::{write_number, write_text};
use crate::{Asked, Report};
use pair_structure::Memory;
use std::alloc::{AllocError, Global};

/// Appends the text of the report, or nothing. Linear in the text, which is written beside `into` first.
pub fn write_report(alloc: Global, r: &Report, into: &mut Vec<u8>) -> Result<(), Memory>
    ensures text { OnOk result (into.new.items ≡ into.old.items ++ report_text r.now.journal (lists_of r.now)) }
    ensures unchanged { OnErr result (into.new.items ≡ into.old.items) }
{
    let mut text = Vec::new(alloc);
    write_whole(r, &mut text)?;
    into.extend_from_slice(&text)?;
    Ok(())
}

fn write_whole(r: &Report, into: &mut Vec<u8>) -> Result<(), AllocError>
    ensures { OnOk result (into.new.items ≡ into.old.items ++ report_text r.now.journal (lists_of r.now)) }
{
    write_text(r.journal.entries(), into)?;
    into.extend_from_slice(b"report 1\n")?;
    write_callers(&r.callers, into)?;
    into.extend_from_slice(b"end\n")?;
    Ok(())
}

fn write_callers(callers: &[Vec<Asked>], into: &mut Vec<u8>) -> Result<(), AllocError>
    ensures { OnOk result (into.new.items ≡ into.old.items ++ callers_text 0 (lists_in callers.now)) }
{
    for (caller, list) in callers.iter().enumerate() {
        write_caller(caller as u64, list, into)?;
    }
    Ok(())
}

fn write_caller(caller: u64, list: &[Asked], into: &mut Vec<u8>) -> Result<(), AllocError>
    ensures { OnOk result (into.new.items ≡ into.old.items ++ caller_text caller list.now) }
{
    write_line(b"caller", &[caller], into)?;
    write_list(list, into)?;
    Ok(())
}

fn write_list(list: &[Asked], into: &mut Vec<u8>) -> Result<(), AllocError>
    ensures { OnOk result (into.new.items ≡ into.old.items ++ flat_map asked_text list.now) }
{
    for asked in list {
        write_asked(*asked, into)?;
    }
    Ok(())
}

fn write_asked(asked: Asked, into: &mut Vec<u8>) -> Result<(), AllocError>
    ensures { OnOk result (into.new.items ≡ into.old.items ++ asked_text asked) }
{
    match asked {
        Asked::Fired { wish, number } => {
            let wish = [wish.process as u64, wish.arc as u64, wish.pick, number];
            write_line(b"fired", &wish, into)?;
        }
        Asked::Away { wish, local, at } => {
            let numbers = [
                wish.process as u64,
                wish.arc as u64,
                wish.pick,
                local as u64,
                at,
            ];
            write_line(b"away", &numbers, into)?;
        }
        Asked::Blocked {
            wish,
            neighbour,
            at,
        } => {
            let numbers = [
                wish.process as u64,
                wish.arc as u64,
                wish.pick,
                neighbour as u64,
                at,
            ];
            write_line(b"blocked", &numbers, into)?;
        }
        Asked::Seen {
            process,
            moves,
            local,
        } => {
            write_line(b"seen", &[process as u64, moves, local as u64], into)?;
        }
        Asked::SeenPair { edge, moves, state } => {
            write_line(b"seenpair", &[edge as u64, moves, state], into)?;
        }
    }
    Ok(())
}

/// A word and numbers, with a space before each, and the line feed.
fn write_line(word: &[u8], numbers: &[u64], into: &mut Vec<u8>) -> Result<(), AllocError>
    ensures { OnOk result (into.new.items ≡ into.old.items ++ line_text (word.now ∷ map decimal numbers.now)) }
{
    into.extend_from_slice(word)?;
    write_numbers(numbers, into)?;
    into.extend_from_slice(b"\n")?;
    Ok(())
}

fn write_numbers(numbers: &[u64], into: &mut Vec<u8>) -> Result<(), AllocError>
    ensures { OnOk result (into.new.items ≡ into.old.items ++ flat_map number_text numbers.now) }
{
    for number in numbers {
        write_number(*number, into)?;
    }
    Ok(())
}
