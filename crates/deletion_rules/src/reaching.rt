ghost use Rattle.std.specs.Prelude.{◌≡◌, ◌<◌, ℕ, Contains, [], length, IfOk, OnOk};
ghost use Rattle.pair_structure.specs.Lists.{list_at};
ghost use Rattle.deletion_rules.specs.inside.Spread.{Reaching, IsParentOf};

use pair_structure::{Lists, Memory};
use std::alloc::Global;

/// Reaches each OR node of which one of the nodes is a child, and lists those that were not reached before. Linear in the nodes' parents.
pub(crate) fn reach(
    alloc: Global,
    parents: &Lists<u64>,
    nodes: &[u64],
    reached: &mut [bool],
) -> Result<Vec<u64>, Memory>
    requires parents { (n o : ℕ) → Contains (list_at parents.now n) o → o < length reached.old }
    ensures { IfOk result (λ fresh. Reaching (IsParentOf parents.now nodes.now) reached.old [] reached.new fresh.items) }
{
    let mut fresh = Vec::new(alloc);
    for node in nodes {
        reach_each(parents.list(*node as usize), reached, &mut fresh)?;
    }
    Ok(fresh)
}

fn reach_each(ors: &[u64], reached: &mut [bool], fresh: &mut Vec<u64>) -> Result<(), Memory>
    requires { (o : ℕ) → Contains ors.now o → o < length reached.old }
    ensures { OnOk result (Reaching (Contains ors.now) reached.old fresh.old.items reached.new fresh.new.items) }
{
    for or in ors {
        reach_one(*or, reached, fresh)?;
    }
    Ok(())
}

fn reach_one(or: u64, reached: &mut [bool], fresh: &mut Vec<u64>) -> Result<(), Memory>
    requires { or < length reached.old }
    ensures { OnOk result (Reaching (λ other. other ≡ or) reached.old fresh.old.items reached.new fresh.new.items) }
{
    if !reached[or as usize] {
        fresh.push(or)?;
        reached[or as usize] = true;
    }
    Ok(())
}
