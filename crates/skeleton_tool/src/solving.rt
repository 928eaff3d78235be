ghost use Rattle.std.specs.Prelude.{◌≡◌, [], IfOk, MatchOption, All, length};
ghost use Rattle.ctl_form.specs.Kind.{SatisfiesKind};
ghost use Rattle.ctl_form.specs.Numbered.{IsNormalOf};
ghost use Rattle.ctl_text.specs.Normals.{conjuncts_of, AreNormals};
ghost use Rattle.ctl_text.specs.SoundValue.{IsOverRoles};
ghost use Rattle.pair_quotient.specs.Quotient.{IsShrunk, KeepsStarts};
ghost use Rattle.pair_structure.specs.Role.{IsRole};
ghost use Rattle.pair_structure.specs.Structure.{IsOver, Structure};
ghost use Rattle.skeleton_tool.specs.Answer.{AreLeast, IsFirstUnsatisfiable};

use ctl_form::{Normal, PairSpec};
use pair_quotient::shrink;
use pair_structure::{Memory, PairStructure, Role};
use std::alloc::Global;
use unravel::{Outcome, synthesize};

/// Makes a structure for each kind, in which no two states are bisimilar, or gives the first kind that has none.
pub(crate) fn solve_all(
    alloc: Global,
    roles: &[Role],
    kinds: &[PairSpec],
    normals: &[Normal],
    structures: &mut Vec<PairStructure>,
) -> Result<Option<usize>, Memory>
    requires over { All (IsOverRoles (length roles.now)) kinds.now }
    requires normals { AreNormals roles.now kinds.now normals.now }
    requires each { length normals.now ≡ length kinds.now }
    requires empty { structures.old.items ≡ [] }
    ensures { IfOk result (λ first. MatchOption first (AreLeast roles.now kinds.now structures.new.items) (IsFirstUnsatisfiable roles.now kinds.now)) }
{
    for (number, kind) in kinds.iter().enumerate() {
        match solve_one(alloc, roles, kind, &normals[number])? {
            Some(structure) => structures.push(structure)?,
            None => return Ok(Some(number)),
        }
    }
    Ok(None)
}

/// A structure that satisfies the kind, which has this normal form, and in which no two states are bisimilar, if there is one.
fn solve_one(
    alloc: Global,
    roles: &[Role],
    kind: &PairSpec,
    normal: &Normal,
) -> Result<Option<PairStructure>, Memory>
    requires over { IsOverRoles (length roles.now) kind.now }
    requires normal { IsNormalOf (conjuncts_of roles.now kind.now) normal.now }
    ensures { IfOk result (λ found. MatchOption found ((m : Structure) → SatisfiesKind roles.now kind.now m → ⊥) (λ q. SatisfiesKind roles.now kind.now q × IsShrunk q)) }
{
    let a = &roles[kind.role_a as usize];
    let b = &roles[kind.role_b as usize];
    match synthesize(alloc, a, b, normal)? {
        Outcome::Structure(structure) => {
            let least = least(alloc, a, b, &structure)?;
            Ok(Some(least))
        }
        Outcome::Unsatisfiable => Ok(None),
    }
}

/// The quotient of a structure over two roles by bisimulation. It is over them too, and begins as the structure does.
fn least(alloc: Global, a: &Role, b: &Role, m: &PairStructure) -> Result<PairStructure, Memory>
    requires { IsOver a.now b.now m.now }
    ensures { IfOk result (λ q. KeepsStarts a.now b.now m.now q × IsShrunk q) }
{
    tell_role(a);
    tell_role(b);
    let q = shrink(alloc, m)?;
    Ok(q)
}

/// Tells a proof that a role is one. It does nothing.
fn tell_role(role: &Role)
    ensures { IsRole role.now }
{
    let _starts = role.starts();
}
