ghost use Rattle.std.specs.Prelude.{◌≡◌, ◌↔◌, ◌≤◌, All, IsTrue, IfOk, MatchOption, length};
ghost use Rattle.interconnection.specs.declared.limits.TheConstants.{MAX_KINDS};
ghost use Rattle.pair_structure.specs.Structure.{IsOver};
ghost use Rattle.ctl_form.specs.Kind.{role_at, SatisfiesKind, Solves};
ghost use Rattle.solution_text.specs.Answers.{HasRoles};
ghost use Rattle.solution_text.specs.Failing.{IsFirstFailing};
ghost use Rattle.solution_text.specs.SolutionText.{AreOver};

use crate::solution::Solution;
use ctl_form::{PairSpec, solves};
use ctl_text::Spec;
use pair_structure::{Memory, PairStructure, Role};
use std::alloc::Global;

/// The first kind whose structure does not satisfy it. None exactly where the solution solves the specification.
pub fn first_failing(alloc: Global, spec: &Spec, sol: &Solution) -> Result<Option<u8>, Memory>
    requires { AreOver spec.now.roles spec.now.kinds sol.now }
    ensures { IfOk result (λ first. MatchOption first (Solves spec.now.roles spec.now.kinds sol.now) (IsFirstFailing spec.now.roles spec.now.kinds sol.now)) }
{
    first_unsatisfied(
        alloc,
        spec.network().roles(),
        spec.kinds(),
        sol.structures(),
    )
}

fn first_unsatisfied(
    alloc: Global,
    roles: &[Role],
    kinds: &[PairSpec],
    structures: &[PairStructure],
) -> Result<Option<u8>, Memory>
    requires roles { All (HasRoles (length roles.now)) kinds.now }
    requires few { length kinds.now ≤ MAX_KINDS }
    requires over { AreOver roles.now kinds.now structures.now }
    ensures { IfOk result (λ first. MatchOption first (Solves roles.now kinds.now structures.now) (IsFirstFailing roles.now kinds.now structures.now)) }
{
    for (number, kind) in kinds.iter().enumerate() {
        if !satisfies(alloc, roles, kind, &structures[number])? {
            return Ok(Some(number as u8));
        }
    }
    Ok(None)
}

/// Whether the structure satisfies the kind.
fn satisfies(
    alloc: Global,
    roles: &[Role],
    kind: &PairSpec,
    m: &PairStructure,
) -> Result<bool, Memory>
    requires roles { HasRoles (length roles.now) kind.now }
    requires over { IsOver (role_at roles.now kind.now.role_a) (role_at roles.now kind.now.role_b) m.now }
    ensures { IfOk result (λ yes. IsTrue yes ↔ SatisfiesKind roles.now kind.now m.now) }
{
    let a = &roles[kind.role_a as usize];
    let b = &roles[kind.role_b as usize];
    solves(alloc, m, kind, a, b)
}
