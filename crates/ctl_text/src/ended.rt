ghost use Rattle.std.specs.Prelude.{◌≡◌, ◌<◌, ◌++◌, ◌∷◌, [], IfOk, IfErr, length};
ghost use Rattle.ctl_form.specs.Numbered.{IsNormalOf};
ghost use Rattle.text_cause.specs.Answers.{IsBadBy};
ghost use Rattle.text_cause.specs.Cause.{IsFree};
ghost use Rattle.ctl_text.specs.Item.{end_line};
ghost use Rattle.ctl_text.specs.Normals.{conjuncts_of};
ghost use Rattle.ctl_text.specs.SoundValue.{IsOverRoles};
ghost use Rattle.ctl_text.specs.State.{MayStand, role_of};
ghost use Rattle.ctl_text.specs.inside.Judged.{IsSaidTaken};
ghost use Rattle.ctl_text.specs.inside.LineCause.{LineBlocks, RoleEndStands, KindEndStands};
ghost use Rattle.ctl_text.specs.inside.Sound.{IsSoundRole, IsSoundState};
ghost use Rattle.ctl_text.specs.inside.View.{group_of, parts_of, state_of};

use crate::open_role::OpenRole;
use crate::pairs::Pairs;
use crate::place::{Place, Reader};
use crate::role_cause::role_end_cause;
use crate::sets::Sets;
use ctl_form::{Clauses, Normal, NormalFault, PairSpec, whole};
use pair_structure::Role;
use std::alloc::{AllocError, Global};
use text_cause::{LineFault, TextCause};

/// What stands below the end of the open role or kind: it is declared.
pub(crate) fn take_end(alloc: Global, mut reader: Reader) -> Result<Reader, LineFault>
    requires sound { IsSoundState (state_of reader) }
    requires may { MayStand (group_of reader.place) end_line }
    ensures taken { IfOk result (λ r. IsSaidTaken (state_of reader) end_line (state_of r)) }
    ensures refused { IfErr result (IsBadBy (LineBlocks (state_of reader) end_line)) }
{
    let place = reader.place;
    match place {
        Place::InRole(role) => {
            reader.place = Place::AmongRoles;
            let (pairs, sets) = with_ended_role(reader.pairs, role)?;
            reader.pairs = pairs;
            reader.sets = with_sets(reader.sets, sets)?;
            Ok(reader)
        }
        Place::InKind {
            name,
            role_a,
            role_b,
            clauses,
        } => {
            let clauses = Clauses::from_vec(clauses);
            let kind = PairSpec {
                name,
                role_a,
                role_b,
                clauses,
            };
            reader.place = Place::AmongKinds;
            reader.pairs = with_ended_kind(alloc, reader.pairs, kind)?;
            Ok(reader)
        }
        _ => unreachable!(),
    }
}

/// With one role more; and the role's sets.
fn with_ended_role(pairs: Pairs, role: OpenRole) -> Result<(Pairs, Sets), LineFault>
    requires sound { IsSoundRole (parts_of role) }
    requires begins { 0 < length role.starts.items }
    ensures grown { IfOk result (λ made. made.0 ≡ record { roles = pairs.roles ++ role_of (parts_of role) ∷ []; kinds = pairs.kinds }) }
    ensures sets { IfOk result (λ made. made.1 ≡ role.sets) }
    ensures free { IfOk result (λ made. IsFree (RoleEndStands role.locals.items role.arcs.items)) }
    ensures refused { IfErr result (IsBadBy (RoleEndStands role.locals.items role.arcs.items)) }
{
    let OpenRole {
        name,
        locals,
        starts,
        sets,
        arcs,
        ..
    } = role;
    if let Some(cause) = role_end_cause(&locals, &arcs) {
        return Err(LineFault::Bad(cause));
    }
    match Role::with_starts(name, locals, starts, arcs) {
        Ok(role) => {
            let pairs = pairs.with_role(role)?;
            Ok((pairs, sets))
        }
        Err(_) => unreachable!(),
    }
}

/// With the sets of one role more.
fn with_sets(mut each: Vec<Sets>, sets: Sets) -> Result<Vec<Sets>, AllocError>
    ensures { IfOk result (λ more. more.items ≡ each.items ++ sets ∷ []) }
{
    each.push(sets)?;
    Ok(each)
}

/// With one kind more, whose normal form is made.
fn with_ended_kind(alloc: Global, pairs: Pairs, kind: PairSpec) -> Result<Pairs, LineFault>
    requires { IsOverRoles (length pairs.roles) kind }
    ensures grown { IfOk result (λ made. made ≡ record { roles = pairs.roles; kinds = pairs.kinds ++ kind ∷ [] }) }
    ensures free { IfOk result (λ made. IsFree (KindEndStands pairs.roles kind)) }
    ensures refused { IfErr result (IsBadBy (KindEndStands pairs.roles kind)) }
{
    let normal = normal_of(alloc, pairs.roles(), &kind)?;
    let pairs = pairs.with_kind(kind, normal)?;
    Ok(pairs)
}

/// The normal form of the kind's conjuncts, if their closure is not too large. The clauses are copied for it.
fn normal_of(alloc: Global, roles: &[Role], kind: &PairSpec) -> Result<Normal, LineFault>
    requires { IsOverRoles (length roles.now) kind.now }
    ensures normal { IfOk result (IsNormalOf (conjuncts_of roles.now kind.now)) }
    ensures refused { IfErr result (IsBadBy (KindEndStands roles.now kind.now)) }
{
    let a = &roles[kind.role_a as usize];
    let b = &roles[kind.role_b as usize];
    let forms = whole(alloc, kind.clauses.as_slice(), a, b)?;
    match Normal::of(alloc, &forms) {
        Ok(normal) => Ok(normal),
        Err(NormalFault::Over) => Err(LineFault::Bad(TextCause::ClosureOver)),
        Err(NormalFault::Memory) => Err(LineFault::Memory),
    }
}
