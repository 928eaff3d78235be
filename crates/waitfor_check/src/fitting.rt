ghost use Rattle.std.specs.Prelude.{◌≡◌, ◌<◌, ◌↔◌, length, All, IsTrue};
ghost use Rattle.pair_structure.specs.Structure.{label_at};
ghost use Rattle.pair_structure.specs.Sides.{local_of};
ghost use Rattle.std.specs.List.Sorted.{IsNonDecreasingBy};
ghost use Rattle.interconnection.specs.Shape.{rank};
ghost use Rattle.waitfor_check.specs.Fitting.{IsLabelOf, Rise, ShapeFits, StarFits};
ghost use Rattle.waitfor_check.specs.Star.{AllAgree, AreInRange, IsStarState, centre_side, leaf_structure};
ghost use Rattle.waitfor_check.specs.Steps.{HasKinds};

use crate::Members;
use crate::numbers::{Numbers, compare_numbers};
use crate::reached::shown_in;
use crate::shape_index::rank;
use crate::star::Star;
use conjunctive_compose::System;
use interconnection::Shape;
use pair_structure::{Side, local_of};

/// Whether each star fits the system.
pub(crate) fn stars_fit(system: &System, stars: &[Star]) -> bool
    ensures { IsTrue result ↔ All (StarFits system.now) stars.now }
{
    stars.iter().all(|star| star_fits(system, star))
}

fn star_fits(system: &System, star: &Star) -> bool
    ensures { IsTrue result ↔ StarFits system.now star.now }
{
    if !shape_fits(system, &star.shape) {
        return false;
    }
    if !are_star_states(system, &star.shape, &star.members) {
        return false;
    }
    members_rise(&star.members)
}

fn shape_fits(system: &System, shape: &Shape) -> bool
    ensures { IsTrue result ↔ ShapeFits system.now shape.now }
{
    leaves_fit(system, shape.role, &shape.leaves)
}

fn leaves_fit(system: &System, role: u8, leaves: &[(u8, Side)]) -> bool
    ensures { IsTrue result ↔ ShapeFits system.now (record { role = role; leaves = leaves.now }) }
{
    if role as usize >= system.network().roles().len() {
        return false;
    }
    if leaves.is_empty() {
        return false;
    }
    if leaves.len() > 32 {
        return false;
    }
    if !are_labels_of(system, role, leaves) {
        return false;
    }
    are_sorted(leaves)
}

fn are_labels_of(system: &System, role: u8, labels: &[(u8, Side)]) -> bool
    ensures { IsTrue result ↔ All (IsLabelOf system.now role) labels.now }
{
    labels.iter().all(|label| is_label_of(system, role, *label))
}

fn is_label_of(system: &System, role: u8, label: (u8, Side)) -> bool
    ensures { IsTrue result ↔ IsLabelOf system.now role label }
{
    let (kind, side) = label;
    let Some(ends) = system.network().ends().get(kind as usize) else {
        return false;
    };
    local_of(side, *ends) == role
}

fn are_sorted(labels: &[(u8, Side)]) -> bool
    ensures { IsTrue result ↔ IsNonDecreasingBy rank labels.now }
{
    for i in 1..labels.len() {
        if rank(labels[i]) < rank(labels[i - 1]) {
            return false;
        }
    }
    true
}

fn are_star_states(system: &System, shape: &Shape, members: &Members) -> bool
    requires kinds { HasKinds system.now shape.now }
    requires some { 0 < length shape.now.leaves }
    ensures { IsTrue result ↔ All (IsStarState system.now shape.now) members.now }
{
    for m in 0..members.len() {
        if !is_star_state(system, shape, members.at(m)) {
            return false;
        }
    }
    true
}

fn is_star_state(system: &System, shape: &Shape, states: &[u64]) -> bool
    requires kinds { HasKinds system.now shape.now }
    requires some { 0 < length shape.now.leaves }
    ensures { IsTrue result ↔ IsStarState system.now shape.now states.now }
{
    if states.len() != shape.leaves.len() {
        return false;
    }
    if !are_in_range(system, shape, states) {
        return false;
    }
    all_agree(system, shape, states)
}

fn members_rise(members: &Members) -> bool
    ensures { IsTrue result ↔ Rise members.now }
{
    for m in 1..members.len() {
        if !members.at(m - 1).cmp(members.at(m)).is_lt() {
            return false;
        }
    }
    true
}

/// Whether each number is one of a state of its leaf's kind.
fn are_in_range(system: &System, shape: &Shape, states: &[u64]) -> bool
    requires kinds { HasKinds system.now shape.now }
    requires count { length states.now ≡ length shape.now.leaves }
    ensures { IsTrue result ↔ AreInRange system.now shape.now states.now }
{
    for i in 0..states.len() {
        if !is_in_range(system, shape, i, states[i]) {
            return false;
        }
    }
    true
}

fn is_in_range(system: &System, shape: &Shape, i: usize, state: u64) -> bool
    requires kinds { HasKinds system.now shape.now }
    requires leaf { i < length shape.now.leaves }
    ensures { IsTrue result ↔ state < length (leaf_structure system.now shape.now i).states }
{
    let (kind, _) = shape.leaves[i];
    state < system.structure(kind).states().len() as u64
}

/// Whether all leaves show the same local state of the centre.
fn all_agree(system: &System, shape: &Shape, states: &[u64]) -> bool
    requires kinds { HasKinds system.now shape.now }
    requires some { 0 < length shape.now.leaves }
    requires count { length states.now ≡ length shape.now.leaves }
    requires range { AreInRange system.now shape.now states.now }
    ensures { IsTrue result ↔ AllAgree system.now shape.now states.now }
{
    let first = shown_by(system, shape, 0, states[0]);
    for i in 0..states.len() {
        if shown_by(system, shape, i, states[i]) != first {
            return false;
        }
    }
    true
}

/// The local state of the centre, as this leaf shows it.
pub(crate) fn shown_by(system: &System, shape: &Shape, i: usize, state: u64) -> u8
    requires kinds { HasKinds system.now shape.now }
    requires leaf { i < length shape.now.leaves }
    requires state { state < length (leaf_structure system.now shape.now i).states }
    ensures { result ≡ local_of (centre_side shape.now i) (label_at (leaf_structure system.now shape.now i).states state) }
{
    let (kind, side) = shape.leaves[i];
    shown_in(system.structure(kind), side, state)
}

/// Whether each of these lists is below the next.
pub(crate) fn all_rise(lists: &[Numbers]) -> bool
    ensures { IsTrue result ↔ Rise lists.now }
{
    for i in 1..lists.len() {
        if !compare_numbers(&lists[i - 1], &lists[i]).is_lt() {
            return false;
        }
    }
    true
}
