ghost use Rattle.std.specs.Prelude.{◌≡◌, ◌<◌, ◌++◌, ◌∷◌, ◌↔◌, [], length, slice_index, Contains, IsTrue, OnOk};
ghost use Rattle.std.specs.Cmp.Lexicographic.{slice_cmp};
ghost use Rattle.std.specs.Ordering.{nat_cmp};
ghost use Rattle.waitfor_check.specs.inside.Walk.{AreSorted};

use std::alloc::{AllocError, Global};
use std::cmp::Ordering;
use std::marker::Model;

/// Numbers in a row: the states that a leaf may reach, or those by which a shape is found.
#[derive(Debug, Drop)]
pub(crate) struct Numbers {
    numbers: Vec<u64>,
}

impl Model for Numbers {
    ghost use Rattle.std.specs.Prelude.{List, ℕ};

    ghost Value = { List ℕ };

    ghost view = { λ n. n.numbers.items };
}

impl Numbers {
    pub(crate) fn new(alloc: Global) -> Numbers
        ensures { result ≡ [] }
    {
        Numbers {
            numbers: Vec::new(alloc),
        }
    }

    pub(crate) fn push(&mut self, number: u64) -> Result<(), AllocError>
        ensures { OnOk result (self.new ≡ self.old ++ number ∷ []) }
    {
        self.numbers.push(number)?;
        Ok(())
    }

    pub(crate) fn clear(&mut self)
        ensures { self.new ≡ [] }
    {
        self.numbers.clear();
    }

    pub(crate) fn len(&self) -> usize
        ensures { result ≡ length self.now }
    {
        self.numbers.len()
    }

    pub(crate) fn at(&self, i: usize) -> u64
        requires { i < length self.now }
        ensures { result ≡ slice_index self.now i }
    {
        self.numbers[i]
    }

    pub(crate) fn as_slice(&self) -> &[u64]
        ensures { result.now ≡ self.now }
    {
        &self.numbers
    }
}

/// Whether these numbers are among those lists, which are sorted. One binary search.
pub(crate) fn has_numbers(lists: &[Numbers], numbers: &[u64]) -> bool
    requires { AreSorted lists.now }
    ensures { IsTrue result ↔ Contains lists.now numbers.now }
{
    lists
        .binary_search_by(|list| compare(list, numbers))
        .is_ok()
}

fn compare(list: &Numbers, numbers: &[u64]) -> Ordering
    ensures { result ≡ slice_cmp nat_cmp list.now numbers.now }
{
    list.as_slice().cmp(numbers)
}

/// The order of lists.
pub(crate) fn compare_numbers(a: &Numbers, b: &Numbers) -> Ordering
    ensures { result ≡ slice_cmp nat_cmp a.now b.now }
{
    compare(a, b.as_slice())
}
