ghost use Rattle.std.specs.Prelude.{◌≡◌, ◌<◌, ◌≤◌, ◌↔◌, [], length, IfOk, IsTrue, OnOk};
ghost use Rattle.std.specs.List.Sorted.{IsPartitionPoint};
ghost use Rattle.interconnection.specs.declared.parts.Beside.{Beside};
ghost use Rattle.interconnection.specs.Around.{HasBeside, IsGiven, IsGrown, IsOrdered};

use crate::Beside;
use std::alloc::{AllocError, Global};
use std::marker::Model;

/// What stands around one process: its neighbours by rising number, and its plan, the numbers of its locks, rising.
#[derive(Debug, Drop)]
pub(crate) struct Neighbourhood {
    beside: Vec<Beside>,
    plan: Vec<u32>,
}

impl Model for Neighbourhood {
    ghost use Rattle.interconnection.specs.Around.{Around};

    ghost Value = { Around };

    ghost view = { λ n. record { beside = n.beside.items; plan = n.plan.items } };
}

impl Neighbourhood {
    /// No neighbour, and no lock.
    pub(crate) fn empty(alloc: Global) -> Neighbourhood
        ensures { result ≡ record { beside = []; plan = [] } }
    {
        Neighbourhood {
            beside: Vec::new(alloc),
            plan: Vec::new(alloc),
        }
    }

    pub(crate) fn copy(&self, alloc: Global) -> Result<Neighbourhood, AllocError>
        ensures { IfOk result (λ n. n ≡ self.now) }
    {
        Ok(Neighbourhood {
            beside: Vec::from_slice(alloc, &self.beside)?,
            plan: Vec::from_slice(alloc, &self.plan)?,
        })
    }

    pub(crate) fn beside(&self) -> &[Beside]
        ensures { result.now ≡ self.now.beside }
    {
        &self.beside
    }

    pub(crate) fn plan(&self) -> &[u32]
        ensures { result.now ≡ self.now.plan }
    {
        &self.plan
    }

    /// Adds a neighbour that is not there yet, and its edge behind the plan. Logarithmic to find the place, and linear in
    /// the neighbours to make room.
    pub(crate) fn add(&mut self, neighbour: Beside) -> Result<(), AllocError>
        requires ordered { IsOrdered self.old.beside }
        requires fresh { HasBeside self.old.beside neighbour.process → ⊥ }
        ensures { OnOk result (IsGrown self.old neighbour self.new) }
    {
        let place = place_beside(&self.beside, neighbour.process);
        self.beside.insert(place, neighbour)?;
        self.plan.push(neighbour.edge)?;
        Ok(())
    }

    /// Gives this lock to a process that has none.
    pub(crate) fn give_own_lock(&mut self, lock: u32) -> Result<(), AllocError>
        ensures { OnOk result (IsGiven self.old lock self.new) }
    {
        if self.plan.is_empty() {
            self.plan.push(lock)?;
        }
        Ok(())
    }
}

/// Whether the process is one of these neighbours, which rise. Logarithmic.
pub(crate) fn has_beside(neighbours: &[Beside], process: u32) -> bool
    requires { IsOrdered neighbours.now }
    ensures { IsTrue result ↔ HasBeside neighbours.now process }
{
    match neighbours.get(place_beside(neighbours, process)) {
        Some(found) => found.process == process,
        None => false,
    }
}

fn place_beside(neighbours: &[Beside], process: u32) -> usize
    requires { IsOrdered neighbours.now }
    ensures within { result ≤ length neighbours.now }
    ensures point { IsPartitionPoint (λ (b : Beside). b.process < process) (λ (b : Beside). process ≤ b.process) neighbours.now result }
{
    neighbours.partition_point(|b| b.process < process)
}
