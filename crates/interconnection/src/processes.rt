ghost use Rattle.std.specs.Prelude.{◌≡◌, ◌<◌, ◌++◌, ◌∷◌, [], IfSome, IfOk, OnOk, length, position};
ghost use Rattle.std.specs.Str.{bytes_eq};
ghost use Rattle.interconnection.specs.inside.ProcessNumbers.{IsNumbered};

use crate::Process;
use std::alloc::{AllocError, Global};
use std::collections::BTreeMap;
use std::marker::Model;

/// A list of processes that grows, to be found by their names. Contracts see it as the list.
#[derive(Drop)]
pub struct Processes {
    list: Vec<Process>,
    numbers: BTreeMap<Vec<u8>, usize>,
}

impl Model for Processes {
    ghost use Rattle.std.specs.Prelude.{List};
    ghost use Rattle.interconnection.specs.declared.parts.Process.{Process};
    ghost use Rattle.interconnection.specs.inside.ProcessNumbers.{AreNumbers};

    ghost Value = { List Process };

    ghost view = { λ p. p.list.items };

    ghost invariant = { λ p. AreNumbers p.list.items p.numbers.entries };
}

impl Processes {
    /// No process yet.
    pub fn new(alloc: Global) -> Processes
        ensures { result ≡ [] }
    {
        Processes {
            list: Vec::new(alloc),
            numbers: BTreeMap::new(alloc),
        }
    }

    /// The processes, in the order that they came.
    pub fn as_slice(&self) -> &[Process]
        ensures { result.now ≡ self.now }
    {
        &self.list
    }

    /// The processes with one more. Logarithmic in their count; the name is copied.
    pub fn with(self, alloc: Global, process: Process) -> Result<Processes, AllocError>
        ensures { IfOk result (λ made. made ≡ self ++ process ∷ []) }
    {
        let Processes {
            mut list,
            mut numbers,
        } = self;
        number_in(
            alloc,
            &mut numbers,
            process.name.as_str().as_bytes(),
            list.len(),
        )?;
        list.push(process)?;
        Ok(Processes { list, numbers })
    }

    /// The same, as a list of its own.
    pub fn into_vec(self) -> Vec<Process>
        ensures { result.items ≡ self }
    {
        self.list
    }

    /// The number of the first process of this name. Logarithmic in the count of processes.
    pub fn find(&self, name: &[u8]) -> Option<usize>
        ensures number { result ≡ position (λ p. bytes_eq p.name name.now) self.now }
        ensures within { IfSome result (λ n. n < length self.now) }
    {
        self.numbers.get(name).copied()
    }
}

/// Gives the name this number, if it has none.
fn number_in(
    alloc: Global,
    numbers: &mut BTreeMap<Vec<u8>, usize>,
    name: &[u8],
    number: usize,
) -> Result<(), AllocError>
    ensures { OnOk result (IsNumbered numbers.old.entries name.now number numbers.new.entries) }
{
    if numbers.contains_key(name) {
        return Ok(());
    }
    let mut key = Vec::with_capacity(alloc, name.len())?;
    key.extend_from_slice(name)?;
    numbers.insert(key, number)?;
    Ok(())
}
