ghost use Rattle.std.specs.Prelude.{◌≡◌, ◌<◌, length, IfOk, OnOk};
ghost use Rattle.pair_structure.specs.Parts.{role_at};
ghost use Rattle.waitfor_check.specs.Choices.{choices};
ghost use Rattle.waitfor_check.specs.Star.{IsStarState, arc_numbered, centre_at};
ghost use Rattle.waitfor_check.specs.Steps.{HasKinds, centre_steps, steps_on};
ghost use Rattle.waitfor_check.specs.inside.Walk.{AreSorted, EachDiffer, HasRoom, IsBounded, IsWalked};

use crate::Members;
use crate::numbers::Numbers;
use crate::reached::{put_reached, shown_in};
use crate::room::Room;
use crate::star::Star;
use crate::walk::{Walked, walk};
use conjunctive_compose::System;
use interconnection::Shape;
use pair_structure::{LocalArc, Memory};

/// Walks over the centre's steps of a member, arc by arc, up to the first that reaches no member.
pub(crate) fn walk_centre(
    system: &System,
    star: &Star,
    states: &[u64],
    room: &mut Room,
) -> Result<Walked, Memory>
    requires kinds { HasKinds system.now star.now.shape }
    requires some { 0 < length star.now.shape.leaves }
    requires states { IsStarState system.now star.now.shape states.now }
    requires members { AreSorted star.now.members }
    requires room { HasRoom (length star.now.shape.leaves) room.old }
    ensures walked { IfOk result (IsWalked star.now.members (centre_steps system.now star.now.shape states.now)) }
    ensures bounded { IfOk result (IsBounded star.now.members) }
    ensures room { OnOk result (HasRoom (length star.now.shape.leaves) room.new) }
{
    let arcs = system.network().roles()[star.shape.role as usize].arcs();
    walk_arcs(system, star, states, arcs, room)
}

fn walk_arcs(
    system: &System,
    star: &Star,
    states: &[u64],
    arcs: &[LocalArc],
    room: &mut Room,
) -> Result<Walked, Memory>
    requires kinds { HasKinds system.now star.now.shape }
    requires some { 0 < length star.now.shape.leaves }
    requires states { IsStarState system.now star.now.shape states.now }
    requires members { AreSorted star.now.members }
    requires arcs { arcs.now ≡ (role_at system.now.network.roles star.now.shape.role).arcs }
    requires room { HasRoom (length star.now.shape.leaves) room.old }
    ensures walked { IfOk result (IsWalked star.now.members (centre_steps system.now star.now.shape states.now)) }
    ensures bounded { IfOk result (IsBounded star.now.members) }
    ensures room { OnOk result (HasRoom (length star.now.shape.leaves) room.new) }
{
    let _small = star.members.len();
    let _network = system.network();
    let mut count = 0;
    for arc in 0..arcs.len() {
        match walk_arc(system, star, states, arc as u32, room)? {
            Walked::All { count: more } => count += more,
            Walked::Missing { at } => return Ok(Walked::Missing { at: count + at }),
        }
    }
    Ok(Walked::All { count })
}

/// The walk over the steps on one arc; there is none where the arc leaves another local state.
fn walk_arc(
    system: &System,
    star: &Star,
    states: &[u64],
    arc: u32,
    room: &mut Room,
) -> Result<Walked, Memory>
    requires kinds { HasKinds system.now star.now.shape }
    requires some { 0 < length star.now.shape.leaves }
    requires states { IsStarState system.now star.now.shape states.now }
    requires members { AreSorted star.now.members }
    requires arc { arc < length (role_at system.now.network.roles star.now.shape.role).arcs }
    requires room { HasRoom (length star.now.shape.leaves) room.old }
    ensures walked { IfOk result (IsWalked star.now.members (steps_on system.now star.now.shape states.now arc)) }
    ensures bounded { IfOk result (IsBounded star.now.members) }
    ensures room { OnOk result (HasRoom (length star.now.shape.leaves) room.new) }
{
    let LocalArc { from, to, .. } = arc_of(system, &star.shape, arc);
    if from != centre_local(system, &star.shape, states) {
        return Ok(Walked::All { count: 0 });
    }
    put_reached(system, &star.shape, states, arc, to, &mut room.lists)?;
    let _network = system.network();
    let walked = walk_all(&room.lists, &mut room.target, &star.members);
    Ok(walked)
}

fn arc_of(system: &System, shape: &Shape, arc: u32) -> LocalArc
    requires kinds { HasKinds system.now shape.now }
    requires arc { arc < length (role_at system.now.network.roles shape.now.role).arcs }
    ensures { result ≡ arc_numbered system.now shape.now.role arc }
{
    system.network().roles()[shape.role as usize].arcs()[arc as usize]
}

/// Walks over all choices of one number of each list.
pub(crate) fn walk_all(lists: &[Numbers], target: &mut [u64], members: &Members) -> Walked
    requires target { length target.old ≡ length lists.now }
    requires members { AreSorted members.now }
    requires differ { EachDiffer lists.now }
    ensures walked { IsWalked members.now (choices lists.now) result }
    ensures bounded { IsBounded members.now result }
{
    walk(lists, 0, target, members)
}

/// The local state of the centre, as the first leaf shows it.
fn centre_local(system: &System, shape: &Shape, states: &[u64]) -> u8
    requires kinds { HasKinds system.now shape.now }
    requires some { 0 < length shape.now.leaves }
    requires states { IsStarState system.now shape.now states.now }
    ensures { result ≡ centre_at system.now shape.now states.now 0 }
{
    let (kind, side) = shape.leaves[0];
    shown_in(system.structure(kind), side, states[0])
}
