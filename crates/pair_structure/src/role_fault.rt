ghost use Rattle.std.specs.Prelude.{◌≡◌, ◌↔◌, ◌<◌, ◌≤◌, ℕ, List, length, Any, IsTrue, MatchOption, IfNone};
ghost use Rattle.pair_structure.specs.declared.side.LocalArc.{LocalArc};
ghost use Rattle.pair_structure.specs.inside.Least.{IsLeast};
ghost use Rattle.pair_structure.specs.Role.{AreLawful, HasArc, HasArcFrom};
ghost use Rattle.pair_structure.specs.RoleFault.{IsFirstRoleFault, NoneBefore, HasEarlierName, StartsOutside, HasEarlierStart, EndsOutside, JoinsItself, HasEarlierEnds, IsNeverLeft};

use crate::{LocalArc, MAX_ARCS, MAX_LOCALS, Name};
use thiserror::Error;

/// Why some parts are no role. The order of the variants is the order of refusals: the first that stands is answered, and of one kind
/// the lowest number.
#[derive(Clone, Copy, Debug, PartialEq, Eq, Error)]
pub enum RoleFault {
    /// There is no local state.
    #[error("no local state")]
    NoLocal,
    /// There are more than 32 local states.
    #[error("more than 32 local states")]
    TooManyLocals,
    /// A local state has the name of an earlier one; it is the later that is named.
    #[error("local state {local} has the name of an earlier one")]
    LocalTwice { local: u8 },
    /// There is no start.
    #[error("no start")]
    NoStart,
    /// A start is no local state.
    #[error("the start is no local state")]
    StartRange,
    /// A start is an earlier one again; it is the place of the later that is named.
    #[error("start {place} is an earlier one again")]
    StartTwice { place: u32 },
    /// There are more than 128 arcs.
    #[error("more than 128 arcs")]
    TooManyArcs,
    /// An end of the arc is no local state.
    #[error("arc {arc} has an end that is no local state")]
    ArcRange { arc: u32 },
    /// The arc ends where it begins.
    #[error("arc {arc} ends where it begins")]
    SelfArc { arc: u32 },
    /// The arc has the two ends of an earlier one; it is the later that is named.
    #[error("arc {arc} has the ends of an earlier one")]
    ArcTwice { arc: u32 },
    /// No arc leaves the local state.
    #[error("no arc leaves local state {local}")]
    NoArc { local: u8 },
}

/// The first fault of these parts, if they have one.
pub(crate) fn fault_of(locals: &[Name], starts: &[u8], arcs: &[LocalArc]) -> Option<RoleFault>
    ensures { MatchOption result (AreLawful locals.now starts.now arcs.now) (IsFirstRoleFault locals.now starts.now arcs.now) }
{
    if let Some(fault) = fault_of_locals(locals) {
        return Some(fault);
    }
    if let Some(fault) = fault_of_starts(locals, starts) {
        return Some(fault);
    }
    fault_of_arcs(locals, arcs)
}

fn fault_of_locals(locals: &[Name]) -> Option<RoleFault>
    ensures { (starts : List ℕ) (arcs : List LocalArc) →
        MatchOption result (NoneBefore locals.now starts arcs RoleFault.NoStart) (IsFirstRoleFault locals.now starts arcs) }
{
    if locals.is_empty() {
        return Some(RoleFault::NoLocal);
    }
    if locals.len() > MAX_LOCALS {
        return Some(RoleFault::TooManyLocals);
    }
    if let Some(local) = first_repeated_name(locals) {
        return Some(RoleFault::LocalTwice { local: local as u8 });
    }
    None
}

fn first_repeated_name(locals: &[Name]) -> Option<usize>
    ensures { IsLeast (HasEarlierName locals.now) (length locals.now) result }
{
    for (local, name) in locals.iter().enumerate() {
        if has_name(&locals[..local], name) {
            return Some(local);
        }
    }
    None
}

fn has_name(names: &[Name], name: &Name) -> bool
    ensures { IsTrue result ↔ Any (λ other. other ≡ name.now) names.now }
{
    names.iter().any(|other| other.is_same(name))
}

fn fault_of_starts(locals: &[Name], starts: &[u8]) -> Option<RoleFault>
    requires { length locals.now ≤ MAX_LOCALS }
    ensures { (arcs : List LocalArc) → NoneBefore locals.now starts.now arcs RoleFault.NoStart →
        MatchOption result (NoneBefore locals.now starts.now arcs RoleFault.TooManyArcs) (IsFirstRoleFault locals.now starts.now arcs) }
{
    if starts.is_empty() {
        return Some(RoleFault::NoStart);
    }
    if some_outside(locals.len(), starts) {
        return Some(RoleFault::StartRange);
    }
    if let Some(place) = first_repeated_start(starts) {
        return Some(RoleFault::StartTwice {
            place: place as u32,
        });
    }
    None
}

fn some_outside(count: usize, starts: &[u8]) -> bool
    ensures { IsTrue result ↔ StartsOutside count starts.now }
{
    starts.iter().any(|start| *start as usize >= count)
}

fn first_repeated_start(starts: &[u8]) -> Option<usize>
    ensures { IsLeast (HasEarlierStart starts.now) (length starts.now) result }
{
    for (place, start) in starts.iter().enumerate() {
        if has_start(&starts[..place], *start) {
            return Some(place);
        }
    }
    None
}

fn has_start(starts: &[u8], start: u8) -> bool
    ensures { IsTrue result ↔ Any (λ other. other ≡ start) starts.now }
{
    starts.iter().any(|other| *other == start)
}

fn fault_of_arcs(locals: &[Name], arcs: &[LocalArc]) -> Option<RoleFault>
    requires { length locals.now ≤ MAX_LOCALS }
    ensures { (starts : List ℕ) → NoneBefore locals.now starts arcs.now RoleFault.TooManyArcs →
        MatchOption result (AreLawful locals.now starts arcs.now) (IsFirstRoleFault locals.now starts arcs.now) }
{
    if arcs.len() > MAX_ARCS {
        return Some(RoleFault::TooManyArcs);
    }
    if let Some(arc) = first_arc_outside(locals.len(), arcs) {
        return Some(RoleFault::ArcRange { arc: arc as u32 });
    }
    if let Some(arc) = first_self_arc(arcs) {
        return Some(RoleFault::SelfArc { arc: arc as u32 });
    }
    if let Some(arc) = first_repeated_arc(arcs) {
        return Some(RoleFault::ArcTwice { arc: arc as u32 });
    }
    if let Some(local) = first_never_left(locals.len(), arcs) {
        return Some(RoleFault::NoArc { local: local as u8 });
    }
    None
}

fn first_arc_outside(count: usize, arcs: &[LocalArc]) -> Option<usize>
    ensures { IsLeast (EndsOutside count arcs.now) (length arcs.now) result }
{
    for (number, arc) in arcs.iter().enumerate() {
        if arc.from as usize >= count || arc.to as usize >= count {
            return Some(number);
        }
    }
    None
}

fn first_self_arc(arcs: &[LocalArc]) -> Option<usize>
    ensures { IsLeast (JoinsItself arcs.now) (length arcs.now) result }
{
    for (number, arc) in arcs.iter().enumerate() {
        if arc.from == arc.to {
            return Some(number);
        }
    }
    None
}

fn first_repeated_arc(arcs: &[LocalArc]) -> Option<usize>
    ensures { IsLeast (HasEarlierEnds arcs.now) (length arcs.now) result }
{
    for (number, arc) in arcs.iter().enumerate() {
        if has_arc(&arcs[..number], arc.from, arc.to) {
            return Some(number);
        }
    }
    None
}

/// Whether some arc leads from one local state to the other. Linear in the arcs.
pub(crate) fn has_arc(arcs: &[LocalArc], from: u8, to: u8) -> bool
    ensures { IsTrue result ↔ HasArc arcs.now from to }
{
    arcs.iter().any(|arc| arc.from == from && arc.to == to)
}

fn first_never_left(count: usize, arcs: &[LocalArc]) -> Option<usize>
    ensures least { IsLeast (IsNeverLeft arcs.now) count result }
    ensures none { IfNone result ((local : ℕ) → local < count → HasArcFrom arcs.now local) }
{
    for local in 0..count {
        if !is_left(local, arcs) {
            return Some(local);
        }
    }
    None
}

fn is_left(local: usize, arcs: &[LocalArc]) -> bool
    ensures { IsTrue result ↔ HasArcFrom arcs.now local }
{
    arcs.iter().any(|arc| arc.from as usize == local)
}
