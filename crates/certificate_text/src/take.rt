ghost use Rattle.std.specs.Prelude.{◌≡◌, ◌↔◌, IsTrue, [], IfOk, IfErr, MatchOption, codes};
ghost use Rattle.conjunctive_compose.specs.System.{SystemParts};
ghost use Rattle.ctl_text.specs.Value.{network_of};
ghost use Rattle.strict_text.specs.View.{line_of};
ghost use Rattle.strict_text.specs.Words.{words_of};
ghost use Rattle.text_cause.specs.Answers.{IsBadBy};
ghost use Rattle.certificate_text.specs.Answers.{IsTakenAs};
ghost use Rattle.text_cause.specs.Cause.{IsFree};
ghost use Rattle.certificate_text.specs.Cause.{BarsLine, BarsStar, LacksHead, MaySay, Stands, Takes};
ghost use Rattle.certificate_text.specs.Item.{Said, head_line, words_for};
ghost use Rattle.certificate_text.specs.State.{MayStand, among_stars, in_star, shape_named, with_ended};
ghost use Rattle.certificate_text.specs.inside.Sound.{IsSound};
ghost use Rattle.certificate_text.specs.inside.Saying.{names_of, said};
ghost use Rattle.certificate_text.specs.inside.View.{group_of, state_of};

use crate::item::{Item, Label, said_by};
use crate::member::with_member;
use crate::reader::{Place, Reader, may_stand};
use crate::shape::opened;
use crate::stars::Stars;
use conjunctive_compose::System;
use ctl_text::Spec;
use std::alloc::{AllocError, Global};
use strict_text::{Line, is_strict};
use text_cause::{LineFault, TextCause};

/// What stands below the line. Linear in the line; for a star logarithmic in the stars above.
pub(crate) fn take_line(
    alloc: Global,
    spec: &Spec,
    system: &System,
    reader: Reader,
    line: Line<'_>,
) -> Result<Reader, LineFault>
    requires network { system.now.network ≡ network_of spec.now }
    requires sound { IsSound system.now (state_of reader) }
    ensures taken { IfOk result (λ r. Takes spec.now system.now (state_of reader) (line_of line.entry) (state_of r)) }
    ensures refused { IfErr result (IsBadBy (Stands spec.now system.now (state_of reader) (line_of line.entry))) }
{
    if !is_strict(line.bytes) {
        return Err(LineFault::Bad(TextCause::NotText));
    }
    let Reader { made, place, spare } = reader;
    let Some(item) = placed_item(alloc, &place, line, spare)? else {
        if lacks_head(&place, line.bytes) {
            return Err(LineFault::Bad(TextCause::BadHead));
        }
        return Err(LineFault::Bad(TextCause::BadLine));
    };
    match take_item(alloc, spec, system, made, place, item) {
        Ok(reader) => Ok(reader),
        Err(fault) => Err(fault),
    }
}

/// What the line says, if it ends and may stand there.
fn placed_item<'a>(
    alloc: Global,
    place: &Place,
    line: Line<'a>,
    spare: Vec<u64>,
) -> Result<Option<Item<'a>>, AllocError>
    ensures { IfOk result (λ found. MatchOption found ((x : Said) → MaySay (group_of place.now) (line_of line.entry) x → ⊥) (λ item. MaySay (group_of place.now) (line_of line.entry) (said item))) }
{
    if !line.is_ended {
        return Ok(None);
    }
    let Some(item) = said_by(alloc, line.bytes, spare)? else {
        return Ok(None);
    };
    if !may_stand(place, &item) {
        return Ok(None);
    }
    Ok(Some(item))
}

/// Whether the first line has other words than the head.
fn lacks_head(place: &Place, line: &[u8]) -> bool
    ensures { IsTrue result ↔ LacksHead (group_of place.now) line.now }
{
    match place {
        Place::BeforeHead => !is_head(line),
        _ => false,
    }
}

fn is_head(line: &[u8]) -> bool
    ensures { IsTrue result ↔ (words_of line.now ≡ words_for head_line) }
{
    is_head_text(line)
}

fn is_head_text(line: &[u8]) -> bool
    ensures { IsTrue result ↔ (line.now ≡ codes "certificate 1") }
{
    line == b"certificate 1".as_slice()
}

/// What stands below a line that says this, if nothing stands against it.
fn take_item(
    alloc: Global,
    spec: &Spec,
    system: &System,
    made: Stars,
    place: Place,
    item: Item<'_>,
) -> Result<Reader, LineFault>
    requires network { system.now.network ≡ network_of spec.now }
    requires may { MayStand (group_of place) (said item) }
    requires sound { IsSound system.now (record { made = made; group = group_of place }) }
    ensures taken { IfOk result (λ r. IsTakenAs spec.now system.now (record { made = made; group = group_of place }) (said item.entry) (state_of r)) }
    ensures refused { IfErr result (IsBadBy (BarsLine spec.now system.now (record { made = made; group = group_of place }) (said item.entry))) }
{
    match item {
        Item::Head => Ok(among(alloc, made)),
        Item::Star(role, labels) => {
            let reader = with_star(alloc, spec, system, made, role, labels)?;
            Ok(reader)
        }
        Item::Member(states) => {
            let place = with_member(system, place, &states)?;
            Ok(Reader {
                made,
                place,
                spare: states,
            })
        }
        Item::End => {
            let made = with_ended(alloc, made, place)?;
            Ok(among(alloc, made))
        }
        Item::Done => Ok(Reader {
            made,
            place: Place::AfterDone,
            spare: Vec::new(alloc),
        }),
    }
}

/// A star of these names is open, without a member yet, if nothing stands against its shape.
fn with_star(
    alloc: Global,
    spec: &Spec,
    system: &System,
    made: Stars,
    role: &[u8],
    labels: Vec<Label<'_>>,
) -> Result<Reader, LineFault>
    ensures state { IfOk result (λ r. state_of r ≡ record { made = made; group = in_star (shape_named spec.now role.now (names_of labels.entry.items)) [] }) }
    ensures free { IfOk result (λ r. IsFree (BarsStar spec.now system.now made role.now (names_of labels.entry.items))) }
    ensures refused { IfErr result (IsBadBy (BarsStar spec.now system.now made role.now (names_of labels.entry.items))) }
{
    match opened(alloc, spec, system, &made, role, &labels) {
        Ok(star) => Ok(Reader {
            made,
            place: Place::InStar(star),
            spare: Vec::new(alloc),
        }),
        Err(fault) => Err(fault),
    }
}

/// Between stars.
fn among(alloc: Global, made: Stars) -> Reader
    ensures { state_of result ≡ record { made = made; group = among_stars } }
{
    Reader {
        made,
        place: Place::AmongStars,
        spare: Vec::new(alloc),
    }
}

/// The stars with the open one.
fn with_ended(alloc: Global, made: Stars, place: Place) -> Result<Stars, AllocError>
    ensures { IfOk result (λ r. r ≡ with_ended made (group_of place)) }
{
    match place {
        Place::InStar(star) => made.with(alloc, star),
        _ => Ok(made),
    }
}
