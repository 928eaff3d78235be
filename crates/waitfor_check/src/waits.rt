ghost use Rattle.std.specs.Prelude.{◌≡◌, None, length, IfOk};
ghost use Rattle.waitfor_check.specs.Closed.{IsFirstUnclosed};
ghost use Rattle.waitfor_check.specs.Waits.{IsFirstWait};
ghost use Rattle.waitfor_check.specs.inside.Calm.{AreCalm, IsCalmPart};
ghost use Rattle.waitfor_check.specs.inside.Fits.{IsFitting};

use crate::Members;
use crate::centre::walk_centre;
use crate::leaves_go::is_calm;
use crate::room::Room;
use crate::star::Star;
use crate::step_place::StepPlace;
use crate::walk::Walked;
use conjunctive_compose::System;
use interconnection::Shape;
use pair_structure::Memory;
use std::alloc::{AllocError, Global};

/// The first member of a closed star with a centre step that is not calm, and its first such step. In a closed star a
/// step is calm exactly where it reaches a calm member; so for each step up to it one binary search among those.
pub(crate) fn first_wait(
    alloc: Global,
    system: &System,
    star: &Star,
) -> Result<Option<StepPlace>, Memory>
    requires fits { IsFitting system.now star.now }
    requires closed { IsFirstUnclosed system.now star.now None }
    ensures { IfOk result (IsFirstWait system.now star.now) }
{
    let calm = calm_part(alloc, system, star)?;
    let wait = first_wait_among(alloc, system, star, &calm)?;
    Ok(wait)
}

fn first_wait_among(
    alloc: Global,
    system: &System,
    star: &Star,
    calm: &Star,
) -> Result<Option<StepPlace>, Memory>
    requires fits { IsFitting system.now star.now }
    requires closed { IsFirstUnclosed system.now star.now None }
    requires calm { IsCalmPart system.now star.now calm.now }
    ensures { IfOk result (IsFirstWait system.now star.now) }
{
    let mut room = Room::new(alloc, &calm.shape)?;
    for m in 0..star.members.len() {
        match walk_centre(system, calm, star.members.at(m), &mut room)? {
            Walked::All { .. } => {}
            Walked::Missing { at } => {
                return Ok(Some(StepPlace {
                    member: m as u64,
                    step: at,
                }));
            }
        }
    }
    Ok(None)
}

/// The star with its calm members alone.
fn calm_part(alloc: Global, system: &System, star: &Star) -> Result<Star, Memory>
    requires fits { IsFitting system.now star.now }
    ensures { IfOk result (IsCalmPart system.now star.now) }
{
    let shape = shape_copy(alloc, &star.shape)?;
    let members = calm_members(alloc, system, star)?;
    Ok(Star { shape, members })
}

fn shape_copy(alloc: Global, shape: &Shape) -> Result<Shape, AllocError>
    ensures { IfOk result (λ copy. copy ≡ shape.now) }
{
    Ok(Shape {
        role: shape.role,
        leaves: Vec::from_slice(alloc, &shape.leaves)?,
    })
}

fn calm_members(alloc: Global, system: &System, star: &Star) -> Result<Members, Memory>
    requires fits { IsFitting system.now star.now }
    ensures { IfOk result (AreCalm system.now star.now (length star.now.members)) }
{
    let mut calm = Members::new(alloc);
    for m in 0..star.members.len() {
        let states = star.members.at(m);
        if is_calm(system, &star.shape, states) {
            calm.push(states)?;
        }
    }
    Ok(calm)
}
