ghost use Rattle.std.specs.Prelude.{◌≡◌, length, IfOk, OnOk};
ghost use Rattle.waitfor_check.specs.Closed.{IsFirstUnclosed};
ghost use Rattle.waitfor_check.specs.Star.{IsStarState};
ghost use Rattle.waitfor_check.specs.Steps.{steps};
ghost use Rattle.waitfor_check.specs.inside.Fits.{IsFitting};
ghost use Rattle.waitfor_check.specs.inside.Walk.{HasRoom, IsWalked};

use crate::centre::walk_centre;
use crate::leaf::walk_leaves;
use crate::room::Room;
use crate::star::Star;
use crate::step_place::StepPlace;
use crate::walk::Walked;
use conjunctive_compose::System;
use pair_structure::Memory;
use std::alloc::Global;

/// The first member of the star with a step that reaches no member, and its first such step. For each step up to it one
/// binary search among the members.
pub(crate) fn first_unclosed(
    alloc: Global,
    system: &System,
    star: &Star,
) -> Result<Option<StepPlace>, Memory>
    requires { IsFitting system.now star.now }
    ensures { IfOk result (IsFirstUnclosed system.now star.now) }
{
    let mut room = Room::new(alloc, &star.shape)?;
    for m in 0..star.members.len() {
        match walk_steps(system, star, star.members.at(m), &mut room)? {
            Walked::All { .. } => {}
            Walked::Missing { at } => {
                return Ok(Some(StepPlace {
                    member: m as u64,
                    step: at,
                }));
            }
        }
    }
    Ok(None)
}

fn walk_steps(
    system: &System,
    star: &Star,
    states: &[u64],
    room: &mut Room,
) -> Result<Walked, Memory>
    requires fits { IsFitting system.now star.now }
    requires states { IsStarState system.now star.now.shape states.now }
    requires room { HasRoom (length star.now.shape.leaves) room.old }
    ensures walked { IfOk result (IsWalked star.now.members (steps system.now star.now.shape states.now)) }
    ensures room { OnOk result (HasRoom (length star.now.shape.leaves) room.new) }
{
    let _small = star.members.len();
    match walk_centre(system, star, states, room)? {
        Walked::All { count } => match walk_leaves(system, star, states, &mut room.target) {
            Walked::All { count: more } => Ok(Walked::All {
                count: count + more,
            }),
            Walked::Missing { at } => Ok(Walked::Missing { at: count + at }),
        },
        Walked::Missing { at } => Ok(Walked::Missing { at }),
    }
}
