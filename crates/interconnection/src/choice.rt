ghost use Rattle.std.specs.Prelude.{◌≡◌, ◌<◌, ◌≤◌, ◌+◌, ◌-◌, ℕ, length, take, IfNone, IfSome, IsTrue, false};
ghost use Rattle.std.specs.List.Sorted.{IsNonDecreasingBy};
ghost use Rattle.interconnection.specs.inside.Choice.{IsLastChoice, IsLastRaise, IsNextChoice, IsPast, IsStuck, raised};
ghost use Rattle.interconnection.specs.Shape.{IsChoice, rank, rank_at};

use crate::shape::rank;
use pair_structure::Side;

/// A leaf that can be raised, and the place of the first label above it.
#[derive(Clone, Copy)]
struct Raise {
    leaf: usize,
    from: usize,
}

/// Puts the next choice of as many labels in place of this one; false, and the choice stays, where there is none. For
/// each leaf one binary search among the labels.
pub(crate) fn next_choice(labels: &[(u8, Side)], leaves: &mut [(u8, Side)]) -> bool
    requires sorted { IsNonDecreasingBy rank labels.now }
    requires choice { IsChoice labels.now leaves.old }
    ensures next { IsTrue result → IsNextChoice labels.now leaves.old leaves.new }
    ensures last { result ≡ false → IsLastChoice labels.now leaves.old }
    ensures stays { result ≡ false → leaves.new ≡ leaves.old }
{
    match last_raise(labels, leaves) {
        Some(raise) => {
            raise_from(labels, leaves, raise);
            true
        }
        None => false,
    }
}

/// The last leaf in whose place, and in those after it, higher labels can stand.
fn last_raise(labels: &[(u8, Side)], leaves: &[(u8, Side)]) -> Option<Raise>
    requires { IsNonDecreasingBy rank labels.now }
    ensures none { IfNone result ((p : ℕ) → p < length leaves.now → IsStuck labels.now leaves.now p) }
    ensures some { IfSome result (λ r. IsLastRaise labels.now leaves.now r.leaf r.from) }
{
    let mut leaf = leaves.len();
    while leaf > 0 {
        leaf -= 1;
        let from = past(labels, leaves[leaf]);
        if labels.len() - from >= leaves.len() - leaf {
            return Some(Raise { leaf, from });
        }
    }
    None
}

/// How many of the labels are not above this one.
fn past(labels: &[(u8, Side)], label: (u8, Side)) -> usize
    requires { IsNonDecreasingBy rank labels.now }
    ensures { IsPast labels.now (rank label) result }
{
    let floor = rank(label) + 1;
    labels.partition_point(|l| rank(*l) < floor)
}

fn raise_from(labels: &[(u8, Side)], leaves: &mut [(u8, Side)], raise: Raise)
    requires leaf { raise.leaf ≤ length leaves.old }
    requires room { raise.from + (length leaves.old - raise.leaf) ≤ length labels.now }
    ensures { leaves.new ≡ raised labels.now leaves.old raise.leaf raise.from }
{
    let count = leaves.len() - raise.leaf;
    let end = raise.from + count;
    leaves[raise.leaf..].copy_from_slice(&labels[raise.from..end]);
}
