ghost use Rattle.std.specs.Prelude.{◌≡◌, ◌⊎◌, ◌<◌, ◌/◌, ◌+◌, ◌-◌, ◌↔◌, ◌==◌, ◌^◌, bit_or, ℕ, length, replicate, false, true, slice_set, IsTrue, IfOk};
ghost use Rattle.std.specs.Int.{bit_at};
ghost use Rattle.ctl_form.specs.BitRow.{AreFlipped, AreMet};
ghost use Rattle.ctl_form.specs.Row.{IsAt, IsRowOf};

use pair_structure::Memory;
use std::alloc::Global;
use std::marker::Model;

/// A truth value for each state of a structure, one bit each. Contracts see the list of truth values.
#[derive(Debug, Drop)]
pub struct BitRow {
    words: Vec<u64>,
    states: usize,
}

impl Model for BitRow {
    ghost use Rattle.std.specs.Prelude.{◌≡◌, ◌+◌, ◌/◌, Bool, List, length};
    ghost use Rattle.ctl_form.specs.BitRow.{row_of};

    ghost Value = { List Bool };

    ghost view = { λ r. row_of r.words.items r.states };

    ghost invariant = { λ r. length r.words.items ≡ r.states / 64 + 1 };
}

impl BitRow {
    /// A row that is false at each of so many states.
    pub(crate) fn none(alloc: Global, states: usize) -> Result<BitRow, Memory>
        ensures { IfOk result (IsRowOf states (λ s. ⊥)) }
    {
        Ok(BitRow {
            words: zeros(alloc, states / 64 + 1)?,
            states,
        })
    }

    /// A row that is true at each of so many states.
    pub(crate) fn all(alloc: Global, states: usize) -> Result<BitRow, Memory>
        ensures { IfOk result (IsRowOf states (λ s. Unit {0})) }
    {
        BitRow::none(alloc, states)?.not(alloc)
    }

    /// The number of states.
    pub fn len(&self) -> usize
        ensures { result ≡ length self.now }
    {
        self.states
    }

    /// Whether the row is true at this state.
    pub fn has(&self, state: u64) -> bool
        requires { state < length self.now }
        ensures { IsTrue result ↔ IsAt self.now state }
    {
        bit_of(self.words[(state / 64) as usize], state % 64)
    }

    /// Makes the row true at this state.
    pub(crate) fn add(&mut self, state: u64)
        requires { state < length self.old }
        ensures { self.new ≡ slice_set self.old state true }
    {
        let place = (state / 64) as usize;
        self.words[place] = with_bit(self.words[place], state % 64);
    }

    /// The row that is true where this one is not. A word at a time.
    pub(crate) fn not(&self, alloc: Global) -> Result<BitRow, Memory>
        ensures { IfOk result (IsRowOf (length self.now) (λ s. IsAt self.now s → ⊥)) }
    {
        Ok(BitRow {
            words: flipped(alloc, &self.words)?,
            states: self.states,
        })
    }

    /// The row that is true where this one and the other are. A word at a time.
    pub(crate) fn and(&self, alloc: Global, other: &BitRow) -> Result<BitRow, Memory>
        requires { length self.now ≡ length other.now }
        ensures { IfOk result (IsRowOf (length self.now) (λ s. IsAt self.now s × IsAt other.now s)) }
    {
        Ok(BitRow {
            words: met(alloc, &self.words, &other.words)?,
            states: self.states,
        })
    }

    /// The row that is true where this one or the other is.
    pub(crate) fn or(&self, alloc: Global, other: &BitRow) -> Result<BitRow, Memory>
        requires { length self.now ≡ length other.now }
        ensures { IfOk result (IsRowOf (length self.now) (λ s. IsAt self.now s ⊎ IsAt other.now s)) }
    {
        let neither = self.not(alloc)?.and(alloc, &other.not(alloc)?)?;
        neither.not(alloc)
    }

    /// The row that is true where the other is true or this one is not.
    pub(crate) fn implies(&self, alloc: Global, other: &BitRow) -> Result<BitRow, Memory>
        requires { length self.now ≡ length other.now }
        ensures { IfOk result (IsRowOf (length self.now) (λ s. IsAt self.now s → IsAt other.now s)) }
    {
        let broken = self.and(alloc, &other.not(alloc)?)?;
        broken.not(alloc)
    }

    /// An equal row.
    pub fn copy(&self, alloc: Global) -> Result<BitRow, Memory>
        ensures { IfOk result (λ row. row ≡ self.now) }
    {
        Ok(BitRow {
            words: Vec::from_slice(alloc, &self.words)?,
            states: self.states,
        })
    }
}

fn zeros(alloc: Global, count: usize) -> Result<Vec<u64>, Memory>
    ensures { IfOk result (λ words. words.items ≡ replicate count 0) }
{
    Ok(vec![in alloc; 0u64; count]?)
}

fn bit_of(word: u64, bit: u64) -> bool
    requires { bit < 64 }
    ensures { result ≡ (bit_at word bit == 1) }
{
    word >> bit & 1 == 1
}

fn with_bit(word: u64, bit: u64) -> u64
    requires { bit < 64 }
    ensures { result ≡ bit_or word (2 ^ bit) }
{
    word | 1 << bit
}

fn flipped(alloc: Global, words: &[u64]) -> Result<Vec<u64>, Memory>
    ensures { IfOk result (λ made. AreFlipped words.now made.items) }
{
    let mut made = Vec::with_capacity(alloc, words.len())?;
    for word in words {
        made.push(flipped_word(*word))?;
    }
    Ok(made)
}

fn flipped_word(word: u64) -> u64
    ensures { (bit : ℕ) → bit < 64 → bit_at result bit ≡ 1 - bit_at word bit }
{
    !word
}

fn met(alloc: Global, words: &[u64], others: &[u64]) -> Result<Vec<u64>, Memory>
    requires { length words.now ≡ length others.now }
    ensures { IfOk result (λ made. AreMet words.now others.now made.items) }
{
    let mut made = Vec::with_capacity(alloc, words.len())?;
    for place in 0..words.len() {
        made.push(words[place] & others[place])?;
    }
    Ok(made)
}
