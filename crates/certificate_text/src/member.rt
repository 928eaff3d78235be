ghost use Rattle.std.specs.Prelude.{◌≡◌, ◌↔◌, ◌<◌, IsTrue, IfOk, IfErr, OnOk, length};
ghost use Rattle.pair_structure.specs.Sides.{local_of};
ghost use Rattle.pair_structure.specs.Structure.{label_at};
ghost use Rattle.text_cause.specs.Answers.{IsBadBy};
ghost use Rattle.text_cause.specs.Cause.{IsFree};
ghost use Rattle.waitfor_check.specs.Star.{AllAgree, AreInRange, centre_side, leaf_structure};
ghost use Rattle.waitfor_check.specs.Steps.{HasKinds};
ghost use Rattle.certificate_text.specs.Cause.{BarsInStar, BarsMember, IsAboveLast};
ghost use Rattle.certificate_text.specs.State.{MayStand, with_member};
ghost use Rattle.certificate_text.specs.Item.{member_line};
ghost use Rattle.certificate_text.specs.inside.Sound.{GroupFits};
ghost use Rattle.certificate_text.specs.inside.View.{group_of};

use crate::reader::Place;
use conjunctive_compose::System;
use interconnection::Shape;
use pair_structure::local_of;
use text_cause::{LineFault, TextCause};
use waitfor_check::{Members, Star};

/// The open star with one more member, if nothing stands against it.
pub(crate) fn with_member(system: &System, place: Place, states: &[u64]) -> Result<Place, LineFault>
    requires may { MayStand (group_of place) (member_line states.now) }
    requires sound { GroupFits system.now (group_of place) }
    ensures place { IfOk result (λ r. group_of r ≡ with_member (group_of place) states.now) }
    ensures free { IfOk result (λ r. IsFree (BarsInStar system.now (group_of place) states.now)) }
    ensures refused { IfErr result (IsBadBy (BarsInStar system.now (group_of place) states.now)) }
{
    match place {
        Place::InStar(mut star) => {
            check_member(system, &star, states)?;
            star.members.push(states)?;
            Ok(Place::InStar(star))
        }
        place => Ok(place),
    }
}

/// Whether nothing stands against a member.
fn check_member(system: &System, star: &Star, states: &[u64]) -> Result<(), LineFault>
    requires kinds { HasKinds system.now star.now.shape }
    requires some { 0 < length star.now.shape.leaves }
    requires count { length states.now ≡ length star.now.shape.leaves }
    ensures free { OnOk result (IsFree (BarsMember system.now star.now.shape star.now.members states.now)) }
    ensures refused { IfErr result (IsBadBy (BarsMember system.now star.now.shape star.now.members states.now)) }
{
    if !are_in_range(system, &star.shape, states) {
        return Err(LineFault::Bad(TextCause::UnknownName));
    }
    if !is_above_last(&star.members, states) {
        return Err(LineFault::Bad(TextCause::NotRising));
    }
    if !all_agree(system, &star.shape, states) {
        return Err(LineFault::Bad(TextCause::Disagree));
    }
    Ok(())
}

/// Whether each number is one of a state of its leaf's kind.
fn are_in_range(system: &System, shape: &Shape, states: &[u64]) -> bool
    requires kinds { HasKinds system.now shape.now }
    requires count { length states.now ≡ length shape.now.leaves }
    ensures { IsTrue result ↔ AreInRange system.now shape.now states.now }
{
    for i in 0..states.len() {
        if !is_in_range(system, shape, i, states[i]) {
            return false;
        }
    }
    true
}

fn is_in_range(system: &System, shape: &Shape, i: usize, state: u64) -> bool
    requires kinds { HasKinds system.now shape.now }
    requires leaf { i < length shape.now.leaves }
    ensures { IsTrue result ↔ state < length (leaf_structure system.now shape.now i).states }
{
    let (kind, _) = shape.leaves[i];
    state < system.structure(kind).states().len() as u64
}

/// Whether the member is greater than the last.
fn is_above_last(members: &Members, states: &[u64]) -> bool
    ensures { IsTrue result ↔ IsAboveLast members.now states.now }
{
    let count = members.len();
    if count == 0 {
        return true;
    }
    members.at(count - 1).cmp(states).is_lt()
}

/// Whether all leaves show the same local state of the centre.
fn all_agree(system: &System, shape: &Shape, states: &[u64]) -> bool
    requires kinds { HasKinds system.now shape.now }
    requires some { 0 < length shape.now.leaves }
    requires count { length states.now ≡ length shape.now.leaves }
    requires range { AreInRange system.now shape.now states.now }
    ensures { IsTrue result ↔ AllAgree system.now shape.now states.now }
{
    let first = shown_by(system, shape, 0, states[0]);
    for i in 0..states.len() {
        if shown_by(system, shape, i, states[i]) != first {
            return false;
        }
    }
    true
}

/// The local state of the centre, as this leaf shows it.
fn shown_by(system: &System, shape: &Shape, i: usize, state: u64) -> u8
    requires kinds { HasKinds system.now shape.now }
    requires leaf { i < length shape.now.leaves }
    requires state { state < length (leaf_structure system.now shape.now i).states }
    ensures { result ≡ local_of (centre_side shape.now i) (label_at (leaf_structure system.now shape.now i).states state) }
{
    let (kind, side) = shape.leaves[i];
    local_of(side, system.structure(kind).states()[state as usize])
}
