ghost use Rattle.std.specs.Prelude.{◌≡◌, ◌<◌, ◌≤◌, ◌*◌, ◌↔◌, ◌++◌, ◌∷◌, [], true, false, length, replicate, slice_index, slice_set, IfOk, IsTrue, OnOk};
ghost use Rattle.std.specs.List.{AllPass};
ghost use Rattle.conjunctive_compose.specs.inside.Peeling.{IsMarked, passed_at, place_of};

use interconnection::MAX_PROCESSES;
use pair_structure::MAX_ARCS;
use std::alloc::{AllocError, Global};
use std::marker::Model;

/// A peel order in the making: the processes placed so far, a mark for each process that is one of them, and for each
/// process and arc how many of the process's neighbours, from the first on, were found to be placed or to permit the
/// arc.
#[derive(Debug, Drop)]
pub(crate) struct Peeling {
    order: Vec<u32>,
    marks: Vec<bool>,
    passed: Vec<usize>,
}

impl Model for Peeling {
    ghost use Rattle.conjunctive_compose.specs.inside.Peeling.{PeelingParts};

    ghost Value = { PeelingParts };

    ghost view = { λ p. record { order = p.order.items; marks = p.marks.items; passed = p.passed.items } };
}

impl Peeling {
    /// None of so many processes is placed.
    pub(crate) fn new(alloc: Global, count: usize) -> Result<Peeling, AllocError>
        requires { count ≤ MAX_PROCESSES }
        ensures { IfOk result (λ p. p ≡ record { order = []; marks = replicate count false; passed = replicate (count * MAX_ARCS) 0 }) }
    {
        let marks = vec![in alloc; false; count]?;
        let passed = vec![in alloc; 0; count * MAX_ARCS]?;
        Ok(Peeling {
            order: Vec::with_capacity(alloc, count)?,
            marks,
            passed,
        })
    }

    pub(crate) fn len(&self) -> usize
        ensures { result ≡ length self.now.order }
    {
        self.order.len()
    }

    /// The process that was placed at this number.
    pub(crate) fn at(&self, number: usize) -> u32
        requires { number < length self.now.order }
        ensures { result ≡ slice_index self.now.order number }
    {
        self.order[number]
    }

    pub(crate) fn has(&self, process: u32) -> bool
        requires { process < length self.now.marks }
        ensures { IsTrue result ↔ IsMarked self.now.marks process }
    {
        self.marks[process as usize]
    }

    pub(crate) fn place(&mut self, process: u32) -> Result<(), AllocError>
        requires { process < length self.old.marks }
        ensures { OnOk result (self.new ≡ record { order = self.old.order ++ process ∷ []; marks = slice_set self.old.marks process true; passed = self.old.passed }) }
    {
        self.order.push(process)?;
        self.marks[process as usize] = true;
        Ok(())
    }

    /// How many neighbours of the process are counted for the arc.
    pub(crate) fn passed(&self, process: u32, arc: u32) -> usize
        requires { place_of process arc < length self.now.passed }
        ensures { result ≡ passed_at self.now.passed process arc }
    {
        self.passed[place_of(process, arc)]
    }

    pub(crate) fn set_passed(&mut self, process: u32, arc: u32, count: usize)
        requires { place_of process arc < length self.old.passed }
        ensures { self.new ≡ record { order = self.old.order; marks = self.old.marks; passed = slice_set self.old.passed (place_of process arc) count } }
    {
        self.passed[place_of(process, arc)] = count;
    }

    /// Whether all are placed. Linear in processes.
    pub(crate) fn has_all(&self) -> bool
        ensures { IsTrue result ↔ AllPass (λ b. b) self.now.marks }
    {
        self.marks.iter().all(|mark| *mark)
    }

    pub(crate) fn into_order(self) -> Vec<u32>
        ensures { result.items ≡ self.order }
    {
        self.order
    }
}

fn place_of(process: u32, arc: u32) -> usize
    ensures { result ≡ place_of process arc }
{
    process as usize * MAX_ARCS + arc as usize
}
