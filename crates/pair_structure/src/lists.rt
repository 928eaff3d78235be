ghost use Rattle.std.specs.Prelude.{◌≡◌, ◌<◌, ◌++◌, ◌∷◌, [], ℕ, length, IfOk, OnErr, OnOk};
ghost use Rattle.pair_structure.specs.Lists.{list_at, AreEmpty};

use std::alloc::{AllocError, Global};
use std::marker::Model;
use std::mem;

/// Lists of items, by the numbers of the lists. It grows as lists are reached; a list that was not reached is empty.
#[derive(Debug, Drop)]
pub struct Lists<T: Drop> {
    lists: Vec<Vec<T>>,
}

impl<T: Drop> Model for Lists<T> {
    ghost use Rattle.std.specs.Prelude.{List, map};

    ghost Value = { List (List T) };

    ghost view = { λ l. map (λ list. list.items) l.lists.items };
}

impl<T: Drop> Lists<T> {
    /// No list yet.
    pub fn new(alloc: Global) -> Lists<T>
        ensures { result ≡ [] }
    {
        Lists {
            lists: Vec::new(alloc),
        }
    }

    /// So many lists without items.
    pub fn empty(alloc: Global, count: usize) -> Result<Lists<T>, AllocError>
        ensures { IfOk result (AreEmpty count) }
    {
        let mut lists = Vec::with_capacity(alloc, count)?;
        for _number in 0..count {
            lists.push(Vec::new(alloc))?;
        }
        Ok(Lists { lists })
    }

    /// The items of one list, in the order that they came.
    pub fn list(&self, number: usize) -> &[T]
        ensures { result.now ≡ list_at self.now number }
    {
        match self.lists.get(number) {
            Some(list) => list,
            None => &[],
        }
    }

    /// Appends the item to one list. For want of memory each list stays as it was.
    pub fn push(&mut self, alloc: Global, number: usize, item: T) -> Result<(), AllocError>
        ensures size { number < length self.old → length self.new ≡ length self.old }
        ensures within { OnOk result (number < length self.new) }
        ensures here { OnOk result (list_at self.new number ≡ list_at self.old number ++ item ∷ []) }
        ensures elsewhere { (k : ℕ) → (number ≡ k → ⊥) → list_at self.new k ≡ list_at self.old k }
        ensures kept { OnErr result ((k : ℕ) → list_at self.new k ≡ list_at self.old k) }
    {
        self.reach(alloc, number)?;
        self.lists[number].push(item)?;
        Ok(())
    }

    /// Puts these items in the place of one list, and gives those that stood there. Constant time.
    pub fn replace(&mut self, number: usize, items: Vec<T>) -> Vec<T>
        requires { number < length self.old }
        ensures taken { result.items ≡ list_at self.old number }
        ensures size { length self.new ≡ length self.old }
        ensures here { list_at self.new number ≡ items.items }
        ensures elsewhere { (k : ℕ) → (number ≡ k → ⊥) → list_at self.new k ≡ list_at self.old k }
    {
        mem::replace(&mut self.lists[number], items)
    }

    fn reach(&mut self, alloc: Global, number: usize) -> Result<(), AllocError>
        ensures size { number < length self.old → length self.new ≡ length self.old }
        ensures within { OnOk result (number < length self.new) }
        ensures same { (k : ℕ) → list_at self.new k ≡ list_at self.old k }
    {
        while self.lists.len() <= number {
            self.lists.push(Vec::new(alloc))?;
        }
        Ok(())
    }
}
