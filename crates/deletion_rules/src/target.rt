ghost use Rattle.std.specs.Prelude.{IfOk};
ghost use Rattle.closure_sets.specs.ClosureParts.{count};
ghost use Rattle.deletion_rules.specs.Targets.{AreTargets, IsTargetOf};

use closure_sets::Closure;
use ctl_form::Part;
use pair_structure::Memory;
use std::alloc::Global;
use tableau_graph::push_some;

/// A strong until of a closure: whether it is one of all paths, its member number, and those of its parts f and g.
#[derive(Clone, Copy, Debug, PartialEq, Eq)]
pub struct Target {
    pub all: bool,
    pub member: u32,
    pub f: u32,
    pub g: u32,
}

/// The strong untils of the closure, in the order of their numbers. Linear in the closure.
pub fn targets_of(alloc: Global, c: &Closure) -> Result<Vec<Target>, Memory>
    ensures { IfOk result (λ targets. AreTargets c.now (count c.now) targets.items) }
{
    let mut targets = Vec::new(alloc);
    c.tell_members();
    for member in 0..c.count() {
        push_some(&mut targets, target_of(c.part(member), member))?;
    }
    Ok(targets)
}

fn target_of(part: Part, member: u32) -> Option<Target>
    ensures { IsTargetOf part member result }
{
    match part {
        Part::Until {
            all,
            weak: false,
            f,
            g,
        } => Some(Target { all, member, f, g }),
        _ => None,
    }
}
