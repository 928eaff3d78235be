ghost use Rattle.std.specs.Prelude.{◌≡◌, ◌++◌, [], false, true, IfOk, OnOk, codes};
ghost use Rattle.ctl_form.specs.Kind.{Solves};
ghost use Rattle.skeleton_tool.specs.Failing.{NamesFailing};
ghost use Rattle.solution_text.specs.SolutionText.{AreOver};

use ctl_form::PairSpec;
use ctl_text::Spec;
use pair_structure::Memory;
use solution_text::{Solution, first_failing};
use std::alloc::Global;

/// Whether the solution solves; if not, the first kind that fails is written.
pub(crate) fn solves_or_writes(
    alloc: Global,
    spec: &Spec,
    sol: &Solution,
    text: &mut Vec<u8>,
) -> Result<bool, Memory>
    requires over { AreOver spec.now.roles spec.now.kinds sol.now }
    requires empty { text.old.items ≡ [] }
    ensures solves { IfOk result (λ yes. yes ≡ true → Solves spec.now.roles spec.now.kinds sol.now × (text.new.items ≡ [])) }
    ensures fails { IfOk result (λ yes. yes ≡ false → NamesFailing spec.now sol.now text.new.items) }
{
    match first_failing(alloc, spec, sol)? {
        None => Ok(true),
        Some(kind) => {
            write_failing(&spec.kinds()[kind as usize], text)?;
            Ok(false)
        }
    }
}

fn write_failing(kind: &PairSpec, into: &mut Vec<u8>) -> Result<(), Memory>
    ensures { OnOk result (into.new.items ≡ into.old.items ++ codes "fails " ++ kind.now.name ++ codes "\n") }
{
    into.extend_from_slice(b"fails ")?;
    into.extend_from_slice(kind.name.as_str().as_bytes())?;
    into.extend_from_slice(b"\n")?;
    Ok(())
}
