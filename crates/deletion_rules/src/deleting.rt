ghost use Rattle.std.specs.Prelude.{◌≡◌, ◌⊎◌, ◌<◌, ℕ, true, false, Some, None, All, length, IfOk};
ghost use Rattle.closure_sets.specs.ClosureParts.{count};
ghost use Rattle.deletion_rules.specs.Deletion.{IsSupported};
ghost use Rattle.deletion_rules.specs.Marks.{lists_of, lives_of, living_count, ranks_of, AreLeft, AreTable, IsLeft};
ghost use Rattle.deletion_rules.specs.Targets.{AreTargets, IsTarget};
ghost use Rattle.deletion_rules.specs.inside.Tests.{is_missing, lives_on, lives_or, AreLivingOrs, NoneMissing};
ghost use Rattle.deletion_rules.specs.declared.target.Target.{Target};
ghost use Rattle.tableau_graph.specs.Graph.{graph_of};

use crate::target::Target;
use pair_structure::Memory;
use std::alloc::Global;
use tableau_graph::{Tableau, tableau_is_graph};

/// Whether some child of the OR node lives.
pub(crate) fn lives_or(t: &Tableau, lives: &[bool], or: u64) -> bool
    requires or { or < length t.now.ors }
    requires lives { length lives.now ≡ length t.now.ands }
    ensures { result ≡ lives_or t.now lives.now or }
{
    t.tell_rules();
    for child in t.children(or) {
        if lives[*child as usize] {
            return true;
        }
    }
    false
}

/// Whether each OR node has a living child. Linear in the OR nodes and their children.
fn living_ors(alloc: Global, t: &Tableau, lives: &[bool]) -> Result<Vec<bool>, Memory>
    requires { length lives.now ≡ length t.now.ands }
    ensures { IfOk result (λ ors. AreLivingOrs t.now lives.now (length t.now.ors) ors.items) }
{
    let count = t.ors().len();
    let mut ors = Vec::with_capacity(alloc, count)?;
    for or in 0..count {
        ors.push(lives_or(t, lives, or as u64))?;
    }
    Ok(ors)
}

/// Whether each OR successor has a living child.
fn lives_on(t: &Tableau, ors: &[bool], n: u64) -> bool
    requires n { n < length t.now.ands }
    requires ors { length ors.now ≡ length t.now.ors }
    ensures { result ≡ lives_on t.now ors.now n }
{
    t.tell_rules();
    for or in t.successors(n) {
        if !ors[*or as usize] {
            return false;
        }
    }
    true
}

/// The rank of a member at a node, by the table of marks.
pub(crate) fn rank_at(table: &[Vec<Option<u64>>], n: u64, member: u32) -> Option<u64>
    ensures { result ≡ ranks_of (lists_of table.now) n member }
{
    let marks = table.get(member as usize)?;
    *marks.get(n as usize)?
}

/// Whether the member is in the node's row and has no mark there.
fn is_missing(t: &Tableau, table: &[Vec<Option<u64>>], n: u64, member: u32) -> bool
    requires n { n < length t.now.ands }
    requires member { member < count t.now.closure }
    ensures { result ≡ is_missing t.now (lists_of table.now) n member }
{
    t.closure().tell_members();
    t.ands()[n as usize].row.has(member) && rank_at(table, n, member).is_none()
}

/// A target of the node's row that has no mark.
fn first_missing(
    t: &Tableau,
    targets: &[Target],
    table: &[Vec<Option<u64>>],
    n: u64,
) -> Option<Target>
    requires n { n < length t.now.ands }
    requires targets { All (IsTarget t.now.closure) targets.now }
    ensures some { (x : Target) → result ≡ Some x → IsTarget t.now.closure x × (is_missing t.now (lists_of table.now) n x.member ≡ true) }
    ensures none { result ≡ None → NoneMissing t.now (lists_of table.now) n (length targets.now) targets.now }
{
    for target in targets {
        if is_missing(t, table, n, target.member) {
            return Some(*target);
        }
    }
    None
}

/// Whether no rule deletes the node.
fn stays(
    t: &Tableau,
    targets: &[Target],
    lives: &[bool],
    ors: &[bool],
    table: &[Vec<Option<u64>>],
    n: u64,
) -> bool
    requires n { n < length t.now.ands }
    requires targets { AreTargets t.now.closure (count t.now.closure) targets.now }
    requires lives { length lives.now ≡ length t.now.ands }
    requires ors { AreLivingOrs t.now lives.now (length t.now.ors) ors.now }
    requires table { AreTable t.now.closure (graph_of t.now) (lives_of lives.now) (count t.now.closure) (lists_of table.now) }
    ensures left { result ≡ true → IsLeft t.now.closure (graph_of t.now) (lives_of lives.now) (lists_of table.now) n }
    ensures gone { result ≡ false → (lives_of lives.now n ≡ false) ⊎ (IsSupported t.now.closure (graph_of t.now) (lives_of lives.now) n → ⊥) }
{
    t.tell_rules();
    tableau_is_graph();
    if !lives[n as usize] {
        return false;
    }
    if !lives_on(t, ors, n) {
        return false;
    }
    match first_missing(t, targets, table, n) {
        Some(_) => false,
        None => true,
    }
}

/// The nodes that no rule deletes. Linear in nodes and edges, and in the targets for each node.
pub(crate) fn left_of(
    alloc: Global,
    t: &Tableau,
    targets: &[Target],
    lives: &[bool],
    table: &[Vec<Option<u64>>],
) -> Result<Vec<bool>, Memory>
    requires targets { AreTargets t.now.closure (count t.now.closure) targets.now }
    requires lives { length lives.now ≡ length t.now.ands }
    requires table { AreTable t.now.closure (graph_of t.now) (lives_of lives.now) (count t.now.closure) (lists_of table.now) }
    ensures { IfOk result (λ left. AreLeft t.now.closure (graph_of t.now) (lives_of lives.now) (lists_of table.now) (length t.now.ands) left.items) }
{
    let nodes = t.ands().len();
    let ors = living_ors(alloc, t, lives)?;
    let mut left = Vec::with_capacity(alloc, nodes)?;
    for n in 0..nodes {
        left.push(stays(t, targets, lives, &ors, table, n as u64))?;
    }
    Ok(left)
}

/// How many nodes live.
pub(crate) fn living_count(lives: &[bool]) -> usize
    ensures { result ≡ living_count lives.now }
{
    lives.iter().filter(|living| **living).count()
}
