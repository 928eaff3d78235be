ghost use Rattle.std.specs.Prelude.{◌≡◌, ◌↔◌, ◌<◌, ◌≤◌, ◌++◌, ◌∷◌, Contains, IsTrue, IfOk, IfErr, IfSome, IfNone, OnOk, [], length, position};
ghost use Rattle.std.specs.List.Sorted.{IsNonDecreasingBy};
ghost use Rattle.std.specs.Str.{bytes_eq};
ghost use Rattle.interconnection.specs.Shape.{rank};
ghost use Rattle.interconnection.specs.declared.limits.TheConstants.{MAX_KINDS, MAX_ROLES};
ghost use Rattle.ctl_text.specs.Value.{kind_names, number_in, role_names};
ghost use Rattle.text_cause.specs.Answers.{IsBadBy};
ghost use Rattle.text_cause.specs.Cause.{IsFree, Row};
ghost use Rattle.text_cause.specs.declared.cause.TextCause.TheVariants.{UnknownName};
ghost use Rattle.waitfor_check.specs.Accepted.{HasShape};
ghost use Rattle.waitfor_check.specs.Fitting.{IsLabelOf};
ghost use Rattle.certificate_text.specs.Cause.{AreKnown, BarsShape, BarsStar, LabelsRise, MatchRole};
ghost use Rattle.certificate_text.specs.State.{shape_named};
ghost use Rattle.certificate_text.specs.inside.Saying.{names_of};

use crate::item::Label;
use crate::key::rank;
use crate::stars::Stars;
use conjunctive_compose::System;
use ctl_form::PairSpec;
use ctl_text::Spec;
use interconnection::Shape;
use pair_structure::{Role, Side, local_of};
use std::alloc::{AllocError, Global};
use text_cause::{LineFault, TextCause};
use waitfor_check::{Members, Star};

/// The star of these names, without a member yet, if nothing stands against its shape.
pub(crate) fn opened(
    alloc: Global,
    spec: &Spec,
    system: &System,
    made: &Stars,
    role: &[u8],
    labels: &[Label<'_>],
) -> Result<Star, LineFault>
    ensures star { IfOk result (λ star. star ≡ record { shape = shape_named spec.now role.now (names_of labels.now); members = [] }) }
    ensures free { IfOk result (λ star. IsFree (BarsStar spec.now system.now made.now role.now (names_of labels.now))) }
    ensures refused { IfErr result (IsBadBy (BarsStar spec.now system.now made.now role.now (names_of labels.now))) }
{
    let shape = shape_of(alloc, spec, role, labels)?;
    match check_shape(alloc, system, made, &shape) {
        Ok(()) => Ok(Star {
            shape,
            members: Members::new(alloc),
        }),
        Err(fault) => Err(fault),
    }
}

/// The shape of these names.
fn shape_of(
    alloc: Global,
    spec: &Spec,
    role: &[u8],
    labels: &[Label<'_>],
) -> Result<Shape, LineFault>
    ensures shape { IfOk result (λ shape. shape ≡ shape_named spec.now role.now (names_of labels.now)) }
    ensures known { IfOk result (λ shape. AreKnown spec.now role.now (names_of labels.now)) }
    ensures refused { IfErr result (IsBadBy (Row UnknownName (AreKnown spec.now role.now (names_of labels.now) → ⊥))) }
{
    let Some(number) = role_number(spec.network().roles(), role) else {
        return Err(LineFault::Bad(TextCause::UnknownName));
    };
    let mut leaves = Vec::with_capacity(alloc, labels.len())?;
    for label in labels {
        let Some(kind) = kind_number(spec.kinds(), label.kind) else {
            return Err(LineFault::Bad(TextCause::UnknownName));
        };
        push_leaf((kind, label.side), &mut leaves)?;
    }
    Ok(Shape {
        role: number,
        leaves,
    })
}

fn push_leaf(leaf: (u8, Side), leaves: &mut Vec<(u8, Side)>) -> Result<(), AllocError>
    ensures { OnOk result (leaves.new.items ≡ leaves.old.items ++ leaf ∷ []) }
{
    leaves.push(leaf)?;
    Ok(())
}

/// The number of the role of this name.
fn role_number(roles: &[Role], name: &[u8]) -> Option<u8>
    requires { length roles.now ≤ MAX_ROLES }
    ensures number { IfSome result (λ n. n ≡ number_in (role_names roles.now) name.now) }
    ensures some { IfSome result (λ n. Contains (role_names roles.now) name.now) }
    ensures none { IfNone result (Contains (role_names roles.now) name.now → ⊥) }
{
    match role_place(roles, name) {
        Some(n) => Some(n as u8),
        None => None,
    }
}

fn role_place(roles: &[Role], name: &[u8]) -> Option<usize>
    ensures number { result ≡ position (λ r. bytes_eq r.name name.now) roles.now }
    ensures within { IfSome result (λ n. n < length roles.now) }
{
    roles
        .iter()
        .position(|r| r.name().as_str().as_bytes() == name)
}

/// The number of the kind of this name.
fn kind_number(kinds: &[PairSpec], name: &[u8]) -> Option<u8>
    requires { length kinds.now ≤ MAX_KINDS }
    ensures number { IfSome result (λ n. n ≡ number_in (kind_names kinds.now) name.now) }
    ensures some { IfSome result (λ n. Contains (kind_names kinds.now) name.now) }
    ensures none { IfNone result (Contains (kind_names kinds.now) name.now → ⊥) }
{
    match kind_place(kinds, name) {
        Some(n) => Some(n as u8),
        None => None,
    }
}

fn kind_place(kinds: &[PairSpec], name: &[u8]) -> Option<usize>
    ensures number { result ≡ position (λ k. bytes_eq k.name name.now) kinds.now }
    ensures within { IfSome result (λ n. n < length kinds.now) }
{
    kinds
        .iter()
        .position(|k| k.name.as_str().as_bytes() == name)
}

/// Whether nothing stands against a star of this shape.
fn check_shape(alloc: Global, system: &System, made: &Stars, shape: &Shape) -> Result<(), LineFault>
    ensures free { OnOk result (IsFree (BarsShape system.now made.now shape.now)) }
    ensures refused { IfErr result (IsBadBy (BarsShape system.now made.now shape.now)) }
{
    if is_again(alloc, made, shape)? {
        return Err(LineFault::Bad(TextCause::Twice));
    }
    if !match_role(system, shape) {
        return Err(LineFault::Bad(TextCause::RoleMismatch));
    }
    if !labels_rise(shape) {
        return Err(LineFault::Bad(TextCause::NotRising));
    }
    Ok(())
}

/// Whether the labels rise, and a star above has the shape.
fn is_again(alloc: Global, made: &Stars, shape: &Shape) -> Result<bool, AllocError>
    ensures { IfOk result (λ again. IsTrue again ↔ LabelsRise shape.now × HasShape made.now shape.now) }
{
    if !labels_rise(shape) {
        return Ok(false);
    }
    let has = made.has(alloc, shape)?;
    Ok(has)
}

fn match_role(system: &System, shape: &Shape) -> bool
    ensures { IsTrue result ↔ MatchRole system.now shape.now }
{
    shape
        .leaves
        .iter()
        .all(|label| is_label_of(system, shape.role, *label))
}

fn is_label_of(system: &System, role: u8, label: (u8, Side)) -> bool
    ensures { IsTrue result ↔ IsLabelOf system.now role label }
{
    let (kind, side) = label;
    let Some(ends) = system.network().ends().get(kind as usize) else {
        return false;
    };
    local_of(side, *ends) == role
}

fn labels_rise(shape: &Shape) -> bool
    ensures { IsTrue result ↔ LabelsRise shape.now }
{
    are_rising(&shape.leaves)
}

fn are_rising(labels: &[(u8, Side)]) -> bool
    ensures { IsTrue result ↔ IsNonDecreasingBy rank labels.now }
{
    for i in 1..labels.len() {
        if rank(labels[i]) < rank(labels[i - 1]) {
            return false;
        }
    }
    true
}
