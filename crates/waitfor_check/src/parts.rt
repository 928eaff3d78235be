ghost use Rattle.std.specs.Prelude.{◌<◌, ◌↔◌, All, IfNone, IfOk, IfSome, IsTrue, MatchOption, None, length};
ghost use Rattle.pair_structure.specs.inside.FirstFailing.{IsFirstFailing};
ghost use Rattle.conjunctive_compose.specs.System.{process_count};
ghost use Rattle.conjunctive_compose.specs.Whole.{start_of};
ghost use Rattle.conjunctive_compose.specs.Peel.{HasPeelOrder};
ghost use Rattle.waitfor_check.specs.Accepted.{HasStarts};
ghost use Rattle.waitfor_check.specs.Closed.{IsFirstUnclosed};
ghost use Rattle.waitfor_check.specs.inside.Fits.{IsFitting};
ghost use Rattle.waitfor_check.specs.inside.Begins.{AreBegins};
ghost use Rattle.waitfor_check.specs.Parts.{HasShapesOf, IsFirstOf, star_at};
ghost use Rattle.waitfor_check.specs.Waits.{IsFirstWait};

use crate::Certificate;
use crate::begins::begins_of;
use crate::closed::first_unclosed;
use crate::numbers::Numbers;
use crate::shape_index::has_all_keys;
use crate::star::Star;
use crate::starts::has_starts;
use crate::step_place::StepPlace;
use crate::waits::first_wait;
use conjunctive_compose::System;
use pair_structure::Memory;
use std::alloc::Global;

/// A step of a certificate: its star, and its place there.
#[derive(Clone, Copy, Debug, PartialEq, Eq)]
pub struct StarPlace {
    pub star: u64,
    pub place: StepPlace,
}

/// Whether the start of the system has a peel order.
pub(crate) fn starts_with_peel_order(alloc: Global, system: &System) -> Result<bool, Memory>
    ensures { IfOk result (λ has. IsTrue has ↔ HasPeelOrder system.now (start_of system.now)) }
{
    let start = system.start(alloc)?;
    let order = system.peel(alloc, &start)?;
    Ok(order.is_some())
}

/// The first process with a shape that is no star's.
pub(crate) fn first_without_shape(
    alloc: Global,
    system: &System,
    certificate: &Certificate,
) -> Result<Option<u32>, Memory>
    ensures { IfOk result (IsFirstFailing (HasShapesOf system.now certificate.now) (process_count system.now)) }
{
    for k in 0..system.network().processes().len() {
        if !has_all_keys(alloc, system.network(), certificate.keys(), k as u32)? {
            return Ok(Some(k as u32));
        }
    }
    Ok(None)
}

/// The first star without one of its starts.
pub(crate) fn first_without_start(
    alloc: Global,
    system: &System,
    stars: &[Star],
) -> Result<Option<u64>, Memory>
    requires fits { All (IsFitting system.now) stars.now }
    ensures { IfOk result (IsFirstFailing (λ star. HasStarts system.now (star_at stars.now star)) (length stars.now)) }
{
    let begins = begins_of(alloc, system)?;
    let star = first_without_begin(alloc, system, stars, &begins)?;
    Ok(star)
}

fn first_without_begin(
    alloc: Global,
    system: &System,
    stars: &[Star],
    begins: &[Numbers],
) -> Result<Option<u64>, Memory>
    requires fits { All (IsFitting system.now) stars.now }
    requires begins { AreBegins system.now begins.now }
    ensures { IfOk result (IsFirstFailing (λ star. HasStarts system.now (star_at stars.now star)) (length stars.now)) }
{
    for i in 0..stars.len() {
        if !has_starts(alloc, system, &stars[i], begins)? {
            return Ok(Some(i as u64));
        }
    }
    Ok(None)
}

/// The first star with a step that reaches no member, and its first such step.
pub(crate) fn first_open(
    alloc: Global,
    system: &System,
    stars: &[Star],
) -> Result<Option<StarPlace>, Memory>
    requires fits { All (IsFitting system.now) stars.now }
    ensures { IfOk result (IsFirstOf (IsFirstUnclosed system.now) stars.now) }
{
    for i in 0..stars.len() {
        match first_unclosed(alloc, system, &stars[i])? {
            Some(place) => {
                return Ok(Some(StarPlace {
                    star: i as u64,
                    place,
                }));
            }
            None => {}
        }
    }
    Ok(None)
}

/// The first star with a centre step that is not calm, and its first such step, where all stars are closed.
pub(crate) fn first_waiting(
    alloc: Global,
    system: &System,
    stars: &[Star],
) -> Result<Option<StarPlace>, Memory>
    requires fits { All (IsFitting system.now) stars.now }
    requires closed { IsFirstOf (IsFirstUnclosed system.now) stars.now None }
    ensures { IfOk result (IsFirstOf (IsFirstWait system.now) stars.now) }
{
    for i in 0..stars.len() {
        match first_wait(alloc, system, &stars[i])? {
            Some(place) => {
                return Ok(Some(StarPlace {
                    star: i as u64,
                    place,
                }));
            }
            None => {}
        }
    }
    Ok(None)
}
