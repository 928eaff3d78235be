ghost use Rattle.std.specs.Prelude.{◌≡◌, ◌↔◌, ◌⊎◌, ◌∷◌, ◌≤◌, IsTrue, IfOk, IfErr, IfSome, IfNone, map, codes};
ghost use Rattle.ctl_text.specs.Lines.{IsRequire};
ghost use Rattle.ctl_text.specs.Item.{Said};
ghost use Rattle.text_cause.specs.Answers.{IsBadBy};
ghost use Rattle.ctl_text.specs.inside.Judged.{IsTakenAs, CanSay, misplaced};
ghost use Rattle.text_cause.specs.Cause.{IsLowest, IsFree};
ghost use Rattle.ctl_text.specs.Cause.{BarsLine, WordsStand, Stands, Takes};
ghost use Rattle.ctl_text.specs.inside.Sound.{IsSoundState};
ghost use Rattle.ctl_text.specs.inside.View.{group_of, state_of, said};

use crate::clause::take_clause;
use crate::item::{Item, said_by};
use crate::line::{are_passed, is_text};
use crate::place::{Place, Reader, may_stand};
use crate::said::take_said;
use std::alloc::Global;
use strict_text::loose_words;
use text_cause::{LineFault, TextCause};

/// What stands below the line. Linear in the line and in what it names.
pub(crate) fn take_line(alloc: Global, reader: Reader, line: &[u8]) -> Result<Reader, LineFault>
    requires { IsSoundState (state_of reader) }
    ensures taken { IfOk result (λ r. Takes (state_of reader) line.now (state_of r)) }
    ensures sound { IfOk result (λ r. IsSoundState (state_of r)) }
    ensures refused { IfErr result (IsBadBy (Stands (state_of reader) line.now)) }
{
    if !is_text(line) {
        return Err(LineFault::Bad(TextCause::NotText));
    }
    let words = loose_words(alloc, line)?;
    if are_passed(&words) {
        return Ok(reader);
    }
    match take_words(alloc, reader, &words) {
        Ok(reader) => Ok(reader),
        Err(fault) => Err(fault),
    }
}

/// What stands below a line of these words that is not passed over.
fn take_words(alloc: Global, reader: Reader, words: &[&[u8]]) -> Result<Reader, LineFault>
    requires { IsSoundState (state_of reader) }
    ensures taken { IfOk result (λ r. IsTakenAs (state_of reader) (map (λ w. w.now) words.now) (state_of r)) }
    ensures sound { IfOk result (λ r. IsSoundState (state_of r)) }
    ensures refused { IfErr result (IsBadBy (WordsStand (state_of reader) (map (λ w. w.now) words.now))) }
{
    match clause_words(words) {
        Some(rest) => {
            let reader = take_clause(alloc, reader, rest)?;
            Ok(reader)
        }
        None => {
            let reader = take_item(alloc, reader, words)?;
            Ok(reader)
        }
    }
}

/// The words behind `require`.
fn clause_words<'a, 'b>(words: &'b [&'a [u8]]) -> Option<&'b [&'a [u8]]>
    ensures some { IfSome result (λ rest. map (λ w. w.now) words.now ≡ codes "require" ∷ map (λ w. w.now) rest.now) }
    ensures none { IfNone result (IsRequire (map (λ w. w.now) words.now) → ⊥) }
{
    match words {
        [] => None,
        [first, rest @ ..] => { if is_require(first) { Some(rest) } else { None } }
    }
}

fn is_require(word: &[u8]) -> bool
    ensures { IsTrue result ↔ (word.now ≡ codes "require") }
{
    word == b"require".as_slice()
}

/// What stands below a line that requires no clause.
fn take_item(alloc: Global, reader: Reader, words: &[&[u8]]) -> Result<Reader, LineFault>
    requires sound { IsSoundState (state_of reader) }
    requires other { IsRequire (map (λ w. w.now) words.now) → ⊥ }
    ensures taken { IfOk result (λ r. IsTakenAs (state_of reader) (map (λ w. w.now) words.now) (state_of r)) }
    ensures sound { IfOk result (λ r. IsSoundState (state_of r)) }
    ensures refused { IfErr result (IsBadBy (WordsStand (state_of reader) (map (λ w. w.now) words.now))) }
{
    let Some(item) = placed_item(&reader.place, words) else {
        return Err(LineFault::Bad(misplaced(&reader.place)));
    };
    match take_said(alloc, reader, item) {
        Ok(reader) => Ok(reader),
        Err(fault) => Err(fault),
    }
}

/// What the words say, if it may stand there.
fn placed_item<'a>(place: &Place, words: &'a [&'a [u8]]) -> Option<Item<'a>>
    requires { IsRequire (map (λ w. w.now) words.now) → ⊥ }
    ensures some { IfSome result (λ item. CanSay (group_of place.now) (map (λ w. w.now) words.now) (said item)) }
    ensures none { IfNone result ((item : Said) → CanSay (group_of place.now) (map (λ w. w.now) words.now) item → ⊥) }
{
    let Some(item) = said_by(words) else {
        return None;
    };
    if !may_stand(place, item) {
        return None;
    }
    Some(item)
}

/// The cause of a line that may not stand there.
fn misplaced(place: &Place) -> TextCause
    ensures { result ≡ misplaced (group_of place.now) }
{
    match place {
        Place::BeforeHead => TextCause::BadHead,
        _ => TextCause::BadLine,
    }
}
