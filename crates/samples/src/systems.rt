//! Systems of one kind over one role: so many processes, the edges between them, and the structure of the kind.

ghost use Rattle.std.specs.Prelude.{◌≡◌, ◌∷◌, [], IfOk};

use crate::graphs::{edges, processes};
use crate::kinds::any_role;
use crate::structures::structure;
use conjunctive_compose::System;
use interconnection::Network;
use pair_structure::Role;
use std::alloc::{AllocError, Global};
use std::test::Fail;

/// The system of these processes and edges, whose role and structure are spelled so.
pub fn system(
    alloc: Global,
    lines: &str,
    spelled: &str,
    groups: &str,
    joins: &str,
) -> Result<System, Fail> {
    let role = any_role(alloc, lines)?;
    let m = structure(alloc, &role, &role, spelled)?;
    if m.states().len() > 1000 {
        return Err(Fail::from("many states"));
    }
    let network = network(alloc, role, groups, joins)?;
    let structures = only(alloc, m)?;
    let system = System::make(alloc, &network, &structures)?;
    Ok(system)
}

fn network(alloc: Global, role: Role, groups: &str, joins: &str) -> Result<Network, Fail>
    ensures roles { IfOk result (λ n. n.roles ≡ role ∷ []) }
    ensures ends { IfOk result (λ n. n.ends ≡ (0, 0) ∷ []) }
{
    let roles = only(alloc, role)?;
    let ends = only(alloc, (0, 0))?;
    let processes = processes(alloc, groups)?;
    let edges = edges(alloc, joins)?;
    let network = Network::make(alloc, roles, ends, processes, edges)?;
    Ok(network)
}

/// A list of one item.
fn only<T: Drop>(alloc: Global, item: T) -> Result<Vec<T>, AllocError>
    ensures { IfOk result (λ list. list.items ≡ item ∷ []) }
{
    let mut list = Vec::with_capacity(alloc, 1)?;
    list.push(item)?;
    Ok(list)
}
