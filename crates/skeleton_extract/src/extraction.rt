ghost use Rattle.std.specs.Prelude.{◌≡◌, ◌<◌, IfOk, length};
ghost use Rattle.pair_structure.specs.Structure.{IsOver};
ghost use Rattle.skeleton_extract.specs.Commands.{AreListed, IsSkeleton};
ghost use Rattle.skeleton_extract.specs.inside.Gathered.{AreFollowed, AreGathered, command_of, number_of};

use crate::arc_numbers::ArcNumbers;
use crate::arranging::arrange;
use crate::{Command, Skeleton};
use pair_structure::{Lists, Memory, Move, PairStructure, Role, Side, local_of, opposite};
use std::alloc::{AllocError, Global};

/// The commands of the moves of a structure over the two roles. Two passes over the moves; moves times their logarithm, to put the
/// commands of each arc in order.
pub fn extract(alloc: Global, m: &PairStructure, a: &Role, b: &Role) -> Result<Skeleton, Memory>
    requires { IsOver a.now b.now m.now }
    ensures { IfOk result (IsSkeleton a.now b.now m.now) }
{
    let of_a = listed(alloc, m, Side::A, a)?;
    let of_b = listed(alloc, m, Side::B, b)?;
    Ok(Skeleton::of(of_a, of_b))
}

/// The commands of one side, by the numbers of its arcs.
fn listed(
    alloc: Global,
    m: &PairStructure,
    side: Side,
    role: &Role,
) -> Result<Lists<Command>, AllocError>
    requires { AreFollowed m.now side role.now.arcs }
    ensures { IfOk result (AreListed m.now side role.now.arcs) }
{
    let mut lists = gathered(alloc, m, side, role)?;
    arrange(alloc, &mut lists, role.arcs().len());
    Ok(lists)
}

/// The commands of one side in the order of the moves.
fn gathered(
    alloc: Global,
    m: &PairStructure,
    side: Side,
    role: &Role,
) -> Result<Lists<Command>, AllocError>
    requires { AreFollowed m.now side role.now.arcs }
    ensures { IfOk result (AreGathered m.now.states m.now.moves side role.now.arcs) }
{
    let numbers = ArcNumbers::of_role(role);
    let mut lists = Lists::empty(alloc, role.arcs().len())?;
    for step in m.moves() {
        if step.side == side {
            let arc = number_of(m, &numbers, step);
            lists.push(alloc, arc as usize, command_of(m, step))?;
        }
    }
    Ok(lists)
}

/// The number of the arc that the move takes.
fn number_of(m: &PairStructure, numbers: &ArcNumbers, step: &Move) -> u8
    requires from { step.now.from < length m.now.states }
    requires to { step.now.to < length m.now.states }
    ensures { result ≡ number_of m.now.states numbers.now.rows step.now }
{
    let from = m.states()[step.from as usize];
    let to = m.states()[step.to as usize];
    numbers.number(local_of(step.side, from), local_of(step.side, to))
}

/// What the move commands.
fn command_of(m: &PairStructure, step: &Move) -> Command
    requires from { step.now.from < length m.now.states }
    requires to { step.now.to < length m.now.states }
    ensures { result ≡ command_of m.now.states step.now }
{
    Command {
        other: local_of(opposite(step.side), m.states()[step.from as usize]),
        x: m.ordinal(step.from),
        set: m.ordinal(step.to),
    }
}
