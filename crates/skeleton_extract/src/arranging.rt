ghost use Rattle.std.specs.Prelude.{◌≡◌, ◌<◌, ◌↔◌, ℕ, Contains, length};
ghost use Rattle.skeleton_extract.specs.declared.command.Command.{Command};
ghost use Rattle.pair_structure.specs.Lists.{list_at};
ghost use Rattle.skeleton_extract.specs.Commands.{IsRising};
ghost use Rattle.skeleton_extract.specs.inside.Gathered.{AreArranged};

use crate::Command;
use pair_structure::Lists;
use std::alloc::Global;

/// Puts each of so many lists in its order, and drops commands that stand twice in it.
pub(crate) fn arrange(alloc: Global, lists: &mut Lists<Command>, count: usize)
    requires { count ≡ length lists.old }
    ensures { AreArranged count lists.old lists.new }
{
    for arc in 0..count {
        arrange_one(alloc, lists, arc);
    }
}

fn arrange_one(alloc: Global, lists: &mut Lists<Command>, arc: usize)
    requires { arc < length lists.old }
    ensures size { length lists.new ≡ length lists.old }
    ensures rising { IsRising (list_at lists.new arc) }
    ensures same { (c : Command) → Contains (list_at lists.new arc) c ↔ Contains (list_at lists.old arc) c }
    ensures elsewhere { (k : ℕ) → (arc ≡ k → ⊥) → list_at lists.new k ≡ list_at lists.old k }
{
    let mut commands = lists.replace(arc, Vec::new(alloc));
    arrange_commands(&mut commands);
    lists.replace(arc, commands);
}

fn arrange_commands(commands: &mut Vec<Command>)
    ensures rising { IsRising commands.new.items }
    ensures same { (c : Command) → Contains commands.new.items c ↔ Contains commands.old.items c }
{
    commands.sort_unstable();
    commands.dedup();
}
