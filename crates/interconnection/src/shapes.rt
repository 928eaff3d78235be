ghost use Rattle.std.specs.Prelude.{◌≡◌, ◌<◌, ◌≤◌, ◌+◌, ℕ, false, length, max, min, IfOk, IsTrue, MatchOption};
ghost use Rattle.std.specs.List.Sorted.{IsNonDecreasingBy, IsPermutation};
ghost use Rattle.pair_structure.specs.declared.limits.TheConstants.{MAX_ARCS};
ghost use Rattle.interconnection.specs.Graph.{degree_of};
ghost use Rattle.interconnection.specs.Network.{role_of};
ghost use Rattle.interconnection.specs.Shape.{IsFirstShape, IsLastShape, IsNextShape, IsShapeOf, labels_of, leaf_count, most_arcs, arcs_from, rank};

use crate::choice::next_choice;
use crate::{Network, Shape};
use pair_structure::{LocalArc, Memory, Role};
use std::alloc::Global;

impl Network {
    /// The first shape of a process, in rising order; None exactly where it has no neighbour. A pass over the arcs for
    /// each local state of its role.
    pub fn first_shape(&self, alloc: Global, k: u32) -> Result<Option<Shape>, Memory>
        requires { k < length self.now.processes }
        ensures { IfOk result (λ first. MatchOption first (degree_of self.now.edges k ≡ 0) (λ shape. (0 < degree_of self.now.edges k) × IsFirstShape self.now k shape)) }
    {
        let count = self.leaf_count(k);
        if count == 0 {
            return Ok(None);
        }
        let leaves = Vec::from_slice(alloc, &self.labels(k)[..count])?;
        let role = self.role_of(k);
        Ok(Some(Shape { role, leaves }))
    }

    /// How many leaves a shape of the process has.
    fn leaf_count(&self, k: u32) -> usize
        requires { k < length self.now.processes }
        ensures count { result ≡ leaf_count self.now k }
        ensures within { result ≤ degree_of self.now.edges k }
    {
        let role = self.role_of(k);
        let most = most_arcs(&self.roles()[role as usize]);
        self.labels(k).len().min(most + 1)
    }

    fn role_of(&self, k: u32) -> u8
        requires { k < length self.now.processes }
        ensures role { result ≡ role_of self.now.processes k }
        ensures within { result < length self.now.roles }
    {
        self.processes()[k as usize].role
    }

    /// Puts the next shape of the process, in rising order, in place of this one; false, and the shape stays, where
    /// there is none. Takes no memory; for each leaf at most one binary search among the labels.
    pub fn next_shape(&self, k: u32, shape: &mut Shape) -> bool
        requires process { k < length self.now.processes }
        requires shape { IsShapeOf self.now k shape.old }
        ensures next { IsTrue result → IsNextShape self.now k shape.old shape.new }
        ensures last { result ≡ false → IsLastShape self.now k shape.old }
        ensures stays { result ≡ false → shape.new ≡ shape.old }
    {
        next_choice(self.labels(k), &mut shape.leaves)
    }
}

/// The greatest number of arcs that leave one local state.
fn most_arcs(role: &Role) -> usize
    ensures most { result ≡ most_arcs role.now }
    ensures few { result ≤ MAX_ARCS }
{
    let mut most = 0;
    for p in 0..role.locals().len() {
        most = larger(most, arcs_from(role.arcs(), p as u8));
    }
    most
}

fn arcs_from(arcs: &[LocalArc], local: u8) -> usize
    ensures count { result ≡ arcs_from arcs.now local }
    ensures few { result ≤ length arcs.now }
{
    arcs.iter().filter(|arc| arc.from == local).count()
}

fn larger(a: usize, b: usize) -> usize
    ensures { result ≡ max a b }
{
    if a < b { b } else { a }
}
