//! The system: philosophers on a grid or a ring, with two kinds of edges.
ghost use Rattle.std.specs.Prelude.{◌≡◌, ◌≤◌, ◌∷◌, [], IfOk};
ghost use Rattle.interconnection.specs.declared.limits.TheConstants.{MAX_PROCESSES};
ghost use Rattle.big_system.specs.Philosophers.{philosopher};
ghost use Rattle.big_system.specs.Systems.{IsBigNetwork, IsBigSystem};
ghost use Rattle.big_system.specs.declared.limits.TheConstants.{MIN_PROCESSES};

use crate::edges::edges_of;
use crate::pairs::pairs_of;
use crate::philosopher::philosopher;
use crate::processes::processes_of;
use crate::structures::{first_goes, last_goes};
use conjunctive_compose::System;
use interconnection::Network;
use pair_structure::{Memory, Role};
use std::alloc::{AllocError, Global};

/// The system of so many processes, the kinds of whose edges are drawn from this seed.
pub(crate) fn system_of(alloc: Global, count: u32, seed: u64) -> Result<System, Memory>
    requires enough { MIN_PROCESSES ≤ count }
    requires few { count ≤ MAX_PROCESSES }
    ensures { IfOk result (IsBigSystem count seed) }
{
    let role = philosopher(alloc)?;
    let first = first_goes(alloc, &role)?;
    let last = last_goes(alloc, &role)?;
    let network = network_of(alloc, role, count, seed)?;
    let structures = two(alloc, first, last)?;
    let system = System::make(alloc, &network, &structures)?;
    Ok(system)
}

fn network_of(alloc: Global, role: Role, count: u32, seed: u64) -> Result<Network, Memory>
    requires role { role ≡ philosopher }
    requires enough { MIN_PROCESSES ≤ count }
    requires few { count ≤ MAX_PROCESSES }
    ensures { IfOk result (IsBigNetwork count seed) }
{
    let roles = one(alloc, role)?;
    let ends = two(alloc, (0, 0), (0, 0))?;
    let processes = processes_of(alloc, count)?;
    let pairs = pairs_of(alloc, count)?;
    let edges = edges_of(alloc, seed, &pairs)?;
    match Network::make(alloc, roles, ends, processes, edges) {
        Ok(network) => Ok(network),
        Err(_) => Err(Memory),
    }
}

fn one<T: Drop>(alloc: Global, item: T) -> Result<Vec<T>, AllocError>
    ensures { IfOk result (λ list. list.items ≡ item ∷ []) }
{
    let mut list = Vec::with_capacity(alloc, 1)?;
    list.push(item)?;
    Ok(list)
}

fn two<T: Drop>(alloc: Global, first: T, second: T) -> Result<Vec<T>, AllocError>
    ensures { IfOk result (λ list. list.items ≡ first ∷ second ∷ []) }
{
    let mut list = Vec::with_capacity(alloc, 2)?;
    list.push(first)?;
    list.push(second)?;
    Ok(list)
}
