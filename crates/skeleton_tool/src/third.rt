ghost use Rattle.std.specs.Prelude.{IfOk};
ghost use Rattle.conjunctive_compose.specs.System.{HasStructures};
ghost use Rattle.ctl_text.specs.Value.{network_of};
ghost use Rattle.skeleton_tool.specs.Third.{IsSystemOf};

use conjunctive_compose::System;
use ctl_text::Spec;
use pair_structure::Memory;
use solution_text::Solution;
use std::alloc::Global;

/// The processes of the specification, run by the commands of the solution's structures.
pub(crate) fn system_of(alloc: Global, spec: &Spec, sol: &Solution) -> Result<System, Memory>
    requires { HasStructures (network_of spec.now) sol.now }
    ensures { IfOk result (IsSystemOf spec.now sol.now) }
{
    System::make(alloc, spec.network(), sol.structures())
}
