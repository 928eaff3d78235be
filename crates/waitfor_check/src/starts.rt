ghost use Rattle.std.specs.Prelude.{◌≡◌, ◌<◌, ◌↔◌, ◌==◌, ◌++◌, ℕ, length, filter, IfOk, IsTrue, OnOk, All};
ghost use Rattle.pair_structure.specs.Sides.{local_of};
ghost use Rattle.pair_structure.specs.Structure.{label_at};
ghost use Rattle.waitfor_check.specs.Accepted.{HasStarts};
ghost use Rattle.waitfor_check.specs.Star.{centre_side, leaf_at, leaf_structure};
ghost use Rattle.waitfor_check.specs.Steps.{HasKinds};
ghost use Rattle.waitfor_check.specs.inside.Begins.{AreBegins, HasAllBegins, begins_by, leaf_begins};
ghost use Rattle.waitfor_check.specs.inside.Fits.{IsFitting};
ghost use Rattle.waitfor_check.specs.inside.Walk.{HasRoom, IsAll};

use crate::centre::walk_all;
use crate::fitting::shown_by;
use crate::numbers::Numbers;
use crate::reached::push_if;
use crate::room::Room;
use crate::star::Star;
use crate::walk::Walked;
use conjunctive_compose::System;
use interconnection::Shape;
use pair_structure::Memory;
use std::alloc::{AllocError, Global};

/// Whether each star state in which every leaf may begin is a member. One binary search for each up to the first that
/// is none.
pub(crate) fn has_starts(
    alloc: Global,
    system: &System,
    star: &Star,
    begins: &[Numbers],
) -> Result<bool, Memory>
    requires fits { IsFitting system.now star.now }
    requires begins { AreBegins system.now begins.now }
    ensures { IfOk result (λ has. IsTrue has ↔ HasStarts system.now star.now) }
{
    let _network = system.network();
    let mut room = Room::new(alloc, &star.shape)?;
    let first = &begins[leaf_kind(&star.shape, 0) as usize];
    for i in 0..first.len() {
        if !has_starts_with(system, star, begins, first.at(i), &mut room)? {
            return Ok(false);
        }
    }
    Ok(true)
}

/// Whether each such star state is a member in which the centre has the local state that this state of the first leaf
/// shows.
fn has_starts_with(
    system: &System,
    star: &Star,
    begins: &[Numbers],
    state: u64,
    room: &mut Room,
) -> Result<bool, Memory>
    requires fits { IsFitting system.now star.now }
    requires begins { AreBegins system.now begins.now }
    requires state { state < length (leaf_structure system.now star.now.shape 0).states }
    requires room { HasRoom (length star.now.shape.leaves) room.old }
    ensures has { IfOk result (λ has. IsTrue has ↔ HasAllBegins system.now star.now begins.now state) }
    ensures room { OnOk result (HasRoom (length star.now.shape.leaves) room.new) }
{
    let _network = system.network();
    let local = shown_by(system, &star.shape, 0, state);
    put_begins(system, &star.shape, begins, local, &mut room.lists)?;
    let walked = walk_all(&room.lists, &mut room.target, &star.members);
    Ok(is_all(walked))
}

fn is_all(walked: Walked) -> bool
    ensures { IsTrue result ↔ IsAll walked }
{
    match walked {
        Walked::All { .. } => true,
        Walked::Missing { .. } => false,
    }
}

/// Puts, for each leaf, the states in which it may begin and the centre has this local state.
fn put_begins(
    system: &System,
    shape: &Shape,
    begins: &[Numbers],
    local: u8,
    lists: &mut [Numbers],
) -> Result<(), Memory>
    requires kinds { HasKinds system.now shape.now }
    requires begins { AreBegins system.now begins.now }
    requires lists { length lists.old ≡ length shape.now.leaves }
    ensures { OnOk result (lists.new ≡ begins_by system.now shape.now begins.now local) }
{
    for i in 0..lists.len() {
        put_leaf_begins(system, shape, begins, i, local, &mut lists[i])?;
    }
    Ok(())
}

fn put_leaf_begins(
    system: &System,
    shape: &Shape,
    begins: &[Numbers],
    i: usize,
    local: u8,
    list: &mut Numbers,
) -> Result<(), AllocError>
    requires kinds { HasKinds system.now shape.now }
    requires begins { AreBegins system.now begins.now }
    requires leaf { i < length shape.now.leaves }
    ensures { OnOk result (list.new ≡ leaf_begins system.now shape.now begins.now local i) }
{
    let _network = system.network();
    list.clear();
    let states = begins[leaf_kind(shape, i) as usize].as_slice();
    push_begins(system, shape, i, local, states, list)?;
    Ok(())
}

/// Appends those of these states at which the leaf shows the centre in this local state.
fn push_begins(
    system: &System,
    shape: &Shape,
    i: usize,
    local: u8,
    states: &[u64],
    list: &mut Numbers,
) -> Result<(), AllocError>
    requires kinds { HasKinds system.now shape.now }
    requires leaf { i < length shape.now.leaves }
    requires states { All (λ (s : ℕ). s < length (leaf_structure system.now shape.now i).states) states.now }
    ensures { OnOk result (list.new ≡ list.old ++ filter (λ t. local_of (centre_side shape.now i) (label_at (leaf_structure system.now shape.now i).states t) == local) states.now) }
{
    for state in states {
        push_if(shown_by(system, shape, i, *state) == local, *state, list)?;
    }
    Ok(())
}

fn leaf_kind(shape: &Shape, i: usize) -> u8
    requires { i < length shape.now.leaves }
    ensures { result ≡ (leaf_at shape.now i).0 }
{
    shape.leaves[i].0
}
