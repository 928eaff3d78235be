ghost use Rattle.std.specs.Prelude.{◌≡◌, ◌<◌, ◌++◌, ◌∷◌, [], ℕ, length, IfOk, OnOk};
ghost use Rattle.std.specs.List.Sorted.{IsNonDecreasingBy, IsPermutation};
ghost use Rattle.pair_structure.specs.Lists.{list_at};
ghost use Rattle.interconnection.specs.Graph.{edge_at};
ghost use Rattle.interconnection.specs.inside.Labels.{AreLabels, AreRead};
ghost use Rattle.interconnection.specs.Network.{JoinsTwo};
ghost use Rattle.interconnection.specs.Shape.{rank};

use crate::Edge;
use crate::shape::rank;
use pair_structure::{Lists, Side};
use std::alloc::{AllocError, Global};

/// For each of so many processes the labels of its edges, sorted. Linear in processes and edges, and a sort for each
/// process.
pub(crate) fn sorted_labels(
    alloc: Global,
    count: usize,
    edges: &[Edge],
) -> Result<Lists<(u8, Side)>, AllocError>
    requires in_range { (e : ℕ) → e < length edges.now → ((edge_at edges.now e).a < count) × ((edge_at edges.now e).b < count) }
    requires joins_two { (e : ℕ) → e < length edges.now → JoinsTwo (edge_at edges.now e) }
    ensures { IfOk result (AreLabels count edges.now) }
{
    let mut labels = read_labels(alloc, count, edges)?;
    sort_each(alloc, &mut labels, count);
    Ok(labels)
}

/// The labels in the order of the edges.
fn read_labels(alloc: Global, count: usize, edges: &[Edge]) -> Result<Lists<(u8, Side)>, AllocError>
    requires in_range { (e : ℕ) → e < length edges.now → ((edge_at edges.now e).a < count) × ((edge_at edges.now e).b < count) }
    requires joins_two { (e : ℕ) → e < length edges.now → JoinsTwo (edge_at edges.now e) }
    ensures { IfOk result (AreRead (length edges.now) count edges.now) }
{
    let mut labels = Lists::empty(alloc, count)?;
    for edge in edges {
        add_labels(alloc, &mut labels, edge)?;
    }
    Ok(labels)
}

/// Each of the edge's two processes gets its label.
fn add_labels(alloc: Global, labels: &mut Lists<(u8, Side)>, edge: &Edge) -> Result<(), AllocError>
    requires a_within { edge.now.a < length labels.old }
    requires b_within { edge.now.b < length labels.old }
    requires differ { JoinsTwo edge.now }
    ensures size { OnOk result (length labels.new ≡ length labels.old) }
    ensures a { OnOk result (list_at labels.new edge.now.a ≡ list_at labels.old edge.now.a ++ (edge.now.kind, Side.A) ∷ []) }
    ensures b { OnOk result (list_at labels.new edge.now.b ≡ list_at labels.old edge.now.b ++ (edge.now.kind, Side.B) ∷ []) }
    ensures others { OnOk result ((k : ℕ) → (edge.now.a ≡ k → ⊥) → (edge.now.b ≡ k → ⊥) → list_at labels.new k ≡ list_at labels.old k) }
{
    labels.push(alloc, edge.a as usize, (edge.kind, Side::A))?;
    labels.push(alloc, edge.b as usize, (edge.kind, Side::B))?;
    Ok(())
}

fn sort_each(alloc: Global, labels: &mut Lists<(u8, Side)>, count: usize)
    requires { count ≡ length labels.old }
    ensures size { length labels.new ≡ count }
    ensures same { (k : ℕ) → k < count → IsPermutation (list_at labels.old k) (list_at labels.new k) }
    ensures sorted { (k : ℕ) → k < count → IsNonDecreasingBy rank (list_at labels.new k) }
{
    for k in 0..count {
        sort_one(alloc, labels, k);
    }
}

fn sort_one(alloc: Global, labels: &mut Lists<(u8, Side)>, k: usize)
    requires { k < length labels.old }
    ensures size { length labels.new ≡ length labels.old }
    ensures same { IsPermutation (list_at labels.old k) (list_at labels.new k) }
    ensures sorted { IsNonDecreasingBy rank (list_at labels.new k) }
    ensures elsewhere { (j : ℕ) → (k ≡ j → ⊥) → list_at labels.new j ≡ list_at labels.old j }
{
    let mut list = labels.replace(k, Vec::new(alloc));
    sort_labels(&mut list);
    labels.replace(k, list);
}

fn sort_labels(labels: &mut Vec<(u8, Side)>)
    ensures same { IsPermutation labels.old.items labels.new.items }
    ensures sorted { IsNonDecreasingBy rank labels.new.items }
{
    labels.sort_unstable_by_key(|label| rank(*label));
}

/// Equal lists, of which there are so many.
pub(crate) fn label_copies(
    alloc: Global,
    labels: &Lists<(u8, Side)>,
    count: usize,
) -> Result<Lists<(u8, Side)>, AllocError>
    requires { length labels.now ≡ count }
    ensures { IfOk result (λ copies. copies ≡ labels.now) }
{
    let mut copies = Lists::empty(alloc, count)?;
    for k in 0..count {
        let copy = Vec::from_slice(alloc, labels.list(k))?;
        copies.replace(k, copy);
    }
    Ok(copies)
}
