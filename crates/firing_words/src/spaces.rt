//! Room for each hand, which is made before the table.
ghost use Rattle.std.specs.Prelude.{◌≡◌, ◌+◌, ◌<◌, ◌≤◌, ℕ, [], All, IfOk, length, vec_capacity};
ghost use Rattle.interconnection.specs.Graph.{degree_of};
ghost use Rattle.conjunctive_compose.specs.System.{process_count};
ghost use Rattle.firing_words.specs.inside.Dealing.{IsSpaceFor};

use crate::hand::Space;
use conjunctive_compose::System;
use interconnection::MAX_NEIGHBOURS;
use pair_structure::Memory;
use std::alloc::Global;

/// The greatest number of edges of a process.
pub(crate) fn widest(system: &System) -> usize
    ensures each { (k : ℕ) → k < process_count system.now → degree_of system.now.network.edges k ≤ result }
    ensures few { result ≤ MAX_NEIGHBOURS }
{
    let network = system.network();
    let mut most = 0;
    for k in 0..network.processes().len() {
        let degree = network.neighbours(k as u32).len();
        if degree > most {
            most = degree;
        }
    }
    most
}

fn make_space(alloc: Global, system: &System, most: usize) -> Result<Space, Memory>
    requires each { (k : ℕ) → k < process_count system.now → degree_of system.now.network.edges k ≤ most }
    requires few { most ≤ MAX_NEIGHBOURS }
    ensures { IfOk result (IsSpaceFor system.now (most + 1)) }
{
    let _system = system;
    let known = Vec::with_capacity(alloc, most + 1)?;
    let star = Vec::with_capacity(alloc, most + 1)?;
    let owed = Vec::with_capacity(alloc, most + 1)?;
    Ok(Space { known, star, owed })
}

/// A space for each caller.
pub(crate) fn make_spaces(
    alloc: Global,
    system: &System,
    callers: u32,
    most: usize,
) -> Result<Vec<Space>, Memory>
    requires each { (k : ℕ) → k < process_count system.now → degree_of system.now.network.edges k ≤ most }
    requires few { most ≤ MAX_NEIGHBOURS }
    ensures spaces { IfOk result (λ spaces. All (IsSpaceFor system.now (most + 1)) spaces.items) }
    ensures as_many { IfOk result (λ spaces. length spaces.items ≡ callers) }
{
    let mut spaces = Vec::with_capacity(alloc, callers as usize)?;
    for _ in 0..callers {
        let space = make_space(alloc, system, most)?;
        spaces.push_reserved(space);
    }
    Ok(spaces)
}
