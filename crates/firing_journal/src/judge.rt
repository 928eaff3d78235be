ghost use Rattle.std.specs.Prelude.{◌≡◌, [], IfErr, IfNone, IfOk, IfSome, OnOk};
ghost use Rattle.text_cause.specs.Cause.{IsLowest};
ghost use Rattle.strict_text.specs.Lines.{IsStrict};
ghost use Rattle.strict_text.specs.View.{line_of};
ghost use Rattle.firing_journal.specs.Cause.{Stands, Takes};
ghost use Rattle.firing_journal.specs.Place.{among_entries, before_head};
ghost use Rattle.firing_journal.specs.Said.{Says};
ghost use Rattle.firing_journal.specs.inside.View.{IsFitting, IsKnown, place_after, said, wish_of_numbers};

use crate::Journal;
use crate::item::{Item, is_head, item_of};
use conjunctive_compose::{MAX_CALLER, System, Wish};
use pair_structure::MAX_ARCS;
use strict_text::{Line, is_strict};
use text_cause::TextCause;

/// Whether the first line is the head, or its lowest cause.
pub(crate) fn judge_head(system: &System, line: Line<'_>) -> Result<(), TextCause>
    ensures taken { OnOk result (Takes system.now before_head (line_of line.entry) (among_entries [])) }
    ensures refused { IfErr result (IsLowest (Stands system.now before_head (line_of line.entry))) }
{
    if !is_strict(line.bytes) {
        return Err(TextCause::NotText);
    }
    if !is_head(line.bytes) {
        return Err(TextCause::BadHead);
    }
    if !line.is_ended {
        return Err(TextCause::BadLine);
    }
    Ok(())
}

/// The caller and the wish that a line below these entries appends, None where it is `done`; or its lowest cause.
pub(crate) fn judge(
    system: &System,
    journal: &Journal,
    line: Line<'_>,
) -> Result<Option<(u32, Wish)>, TextCause>
    ensures fits { IfOk result (IsFitting system.now) }
    ensures taken { IfOk result (λ next. Takes system.now (among_entries journal.now) (line_of line.entry) (place_after journal.now next)) }
    ensures refused { IfErr result (IsLowest (Stands system.now (among_entries journal.now) (line_of line.entry))) }
{
    if !is_strict(line.bytes) {
        return Err(TextCause::NotText);
    }
    match item_of(line) {
        Some(item) => judge_item(system, journal, line, item),
        None => Err(TextCause::BadLine),
    }
}

/// As above, of a line whose bytes may stand in a text and that says this.
fn judge_item(
    system: &System,
    journal: &Journal,
    line: Line<'_>,
    item: Item,
) -> Result<Option<(u32, Wish)>, TextCause>
    requires strict { IsStrict (line_of line).bytes }
    requires says { Says (line_of line) (said item) }
    ensures fits { IfOk result (IsFitting system.now) }
    ensures taken { IfOk result (λ next. Takes system.now (among_entries journal.now) (line_of line.entry) (place_after journal.now next)) }
    ensures refused { IfErr result (IsLowest (Stands system.now (among_entries journal.now) (line_of line.entry))) }
{
    match item {
        Item::Head => Err(TextCause::BadLine),
        Item::Done => Ok(None),
        Item::Firing {
            number,
            caller,
            process,
            arc,
            pick,
        } => {
            if number != journal.entries().len() as u64 {
                return Err(TextCause::BadLine);
            }
            match known(system, caller, process, arc, pick) {
                Some(next) => Ok(Some(next)),
                None => Err(TextCause::UnknownName),
            }
        }
    }
}

/// The caller and the wish of these numbers, where the caller is one of 64 and the system has the process and its arc.
fn known(system: &System, caller: u64, process: u64, arc: u64, pick: u64) -> Option<(u32, Wish)>
    ensures some { IfSome result (λ x. (x.0 ≡ caller) × (x.1 ≡ wish_of_numbers process arc pick) × IsKnown system.now caller process arc) }
    ensures none { IfNone result (IsKnown system.now caller process arc → ⊥) }
{
    if caller > MAX_CALLER as u64 {
        return None;
    }
    if process >= system.network().processes().len() as u64 {
        return None;
    }
    if arc >= MAX_ARCS as u64 {
        return None;
    }
    let wish = Wish {
        process: process as u32,
        arc: arc as u32,
        pick,
    };
    if !system.fits(wish) {
        return None;
    }
    Some((caller as u32, wish))
}
