ghost use Rattle.std.specs.Prelude.{◌≡◌, ◌<◌, ◌≤◌, ◌^◌, ◌*◌, ◌+◌, ◌++◌, ◌∷◌, ◌↔◌, [], List, ℕ, length, slice_index_or, All, Contains, IsTrue, OnOk};
ghost use Rattle.waitfor_check.specs.inside.Rows.{row_at};
ghost use Rattle.waitfor_check.specs.inside.Walk.{AreSorted};

use std::alloc::{AllocError, Global};
use std::cmp::Ordering;
use std::marker::Model;

/// Star states of one shape: lists of one length, side by side, with 8 bytes a number.
#[derive(Debug, Drop)]
pub struct Members {
    width: usize,
    count: usize,
    numbers: Vec<u64>,
}

impl Model for Members {
    ghost use Rattle.std.specs.Prelude.{List, ℕ, ◌≡◌, ◌*◌, ◌≤◌, length};
    ghost use Rattle.waitfor_check.specs.inside.Rows.{rows_of};

    ghost Value = { List (List ℕ) };

    ghost view = { λ m. rows_of m.width m.count m.numbers.items };

    ghost invariant = { λ m. (m.count * m.width ≡ length m.numbers.items) × (m.count ≤ length m.numbers.items) };
}

impl Members {
    /// No member yet.
    pub fn new(alloc: Global) -> Members
        ensures { result ≡ [] }
    {
        Members {
            width: 0,
            count: 0,
            numbers: Vec::new(alloc),
        }
    }

    /// Appends a member, as long as those before it.
    pub fn push(&mut self, states: &[u64]) -> Result<(), AllocError>
        requires some { 0 < length states.now }
        requires same { All (λ (member : List ℕ). length member ≡ length states.now) self.old }
        ensures { OnOk result (self.new ≡ self.old ++ states.now ∷ []) }
    {
        self.numbers.extend_from_slice(states)?;
        self.width = states.len();
        self.count += 1;
        Ok(())
    }

    /// How many members there are.
    pub fn len(&self) -> usize
        ensures count { result ≡ length self.now }
        ensures small { length self.now < 2 ^ 60 }
        ensures small_all { (leaves : ℕ) → All (λ (member : List ℕ). length member ≡ leaves) self.now → leaves * length self.now < 2 ^ 60 }
    {
        let _numbers: &[u64] = &self.numbers;
        self.count
    }

    /// The member with this number.
    pub fn at(&self, member: usize) -> &[u64]
        requires { member < length self.now }
        ensures { result.now ≡ slice_index_or self.now member [] }
    {
        row_at(&self.numbers, self.width, member)
    }

    /// Whether this is a member, where they rise. One binary search.
    pub(crate) fn has(&self, states: &[u64]) -> bool
        requires { AreSorted self.now }
        ensures { IsTrue result ↔ Contains self.now states.now }
    {
        let mut low = 0;
        let mut high = self.len();
        while low < high {
            let middle = low + (high - low) / 2;
            match self.at(middle).cmp(states) {
                Ordering::Less => low = middle + 1,
                Ordering::Greater => high = middle,
                Ordering::Equal => return true,
            }
        }
        false
    }
}

/// One of the rows of so many numbers.
fn row_at(numbers: &[u64], width: usize, row: usize) -> &[u64]
    requires { row * width + width ≤ length numbers.now }
    ensures { result.now ≡ row_at width numbers.now row }
{
    let from = row * width;
    &numbers[from..from + width]
}
