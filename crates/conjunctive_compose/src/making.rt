ghost use Rattle.std.specs.Prelude.{◌≡◌, ◌<◌, length, IfOk};
ghost use Rattle.pair_structure.specs.Structure.{IsOver};
ghost use Rattle.skeleton_extract.specs.Commands.{IsSkeleton};
ghost use Rattle.conjunctive_compose.specs.System.{HasCommands, HasStructures, role_a, role_b};
ghost use Rattle.pair_structure.specs.Parts.{role_at};

use interconnection::Network;
use pair_structure::{Memory, PairStructure, Role};
use skeleton_extract::{Skeleton, extract};
use std::alloc::Global;

/// The commands of each kind's structure.
pub(crate) fn skeletons_of(
    alloc: Global,
    network: &Network,
    structures: &[PairStructure],
) -> Result<Vec<Skeleton>, Memory>
    requires { HasStructures network.now structures.now }
    ensures { IfOk result (λ skeletons. HasCommands network.now structures.now skeletons.items) }
{
    let mut skeletons = Vec::with_capacity(alloc, structures.len())?;
    for (kind, structure) in structures.iter().enumerate() {
        let skeleton = skeleton_of(alloc, network, kind, structure)?;
        skeletons.push(skeleton)?;
    }
    Ok(skeletons)
}

fn skeleton_of(
    alloc: Global,
    network: &Network,
    kind: usize,
    structure: &PairStructure,
) -> Result<Skeleton, Memory>
    requires kind { kind < length network.now.ends }
    requires over { IsOver (role_a network.now kind) (role_b network.now kind) structure.now }
    ensures { IfOk result (IsSkeleton (role_a network.now kind) (role_b network.now kind) structure.now) }
{
    let ends = network.ends()[kind];
    let a = role_at(network, ends.0);
    let b = role_at(network, ends.1);
    let skeleton = extract(alloc, structure, a, b)?;
    Ok(skeleton)
}

fn role_at(network: &Network, number: u8) -> &Role
    requires { number < length network.now.roles }
    ensures { result.now ≡ role_at network.now.roles number }
{
    &network.roles()[number as usize]
}

pub(crate) fn structure_copies(
    alloc: Global,
    structures: &[PairStructure],
) -> Result<Vec<PairStructure>, Memory>
    ensures { IfOk result (λ copies. copies.items ≡ structures.now) }
{
    let mut copies = Vec::with_capacity(alloc, structures.len())?;
    for structure in structures {
        copies.push(structure.copy(alloc)?)?;
    }
    Ok(copies)
}
