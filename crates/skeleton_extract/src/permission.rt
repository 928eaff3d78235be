ghost use Rattle.std.specs.Prelude.{◌≡◌, ◌≤◌, true, false, length};
ghost use Rattle.std.specs.List.Sorted.{IsPartitionPoint};
ghost use Rattle.skeleton_extract.specs.declared.command.Command.{Command};
ghost use Rattle.skeleton_extract.specs.Commands.{IsRising};
ghost use Rattle.skeleton_extract.specs.Permission.{permitted_of};
ghost use Rattle.skeleton_extract.specs.inside.Place.{comes_before, comes_by};

use crate::Command;

/// The commands for this local state of the other side and this value, of commands that rise: they stand side by side, and binary search
/// finds both ends.
pub(crate) fn permitted_of(commands: &[Command], other: u8, x: u64) -> &[Command]
    requires { IsRising commands.now }
    ensures { result.now ≡ permitted_of commands.now other x }
{
    let rest = &commands[count_before(commands, other, x)..];
    &rest[..count_by(rest, other, x)]
}

fn count_before(commands: &[Command], other: u8, x: u64) -> usize
    requires { IsRising commands.now }
    ensures bound { result ≤ length commands.now }
    ensures point { IsPartitionPoint (λ (c : Command). comes_before other x c ≡ true) (λ (c : Command). comes_before other x c ≡ false) commands.now result }
{
    commands.partition_point(|c| comes_before(c, other, x))
}

fn count_by(commands: &[Command], other: u8, x: u64) -> usize
    requires { IsRising commands.now }
    ensures bound { result ≤ length commands.now }
    ensures point { IsPartitionPoint (λ (c : Command). comes_by other x c ≡ true) (λ (c : Command). comes_by other x c ≡ false) commands.now result }
{
    commands.partition_point(|c| comes_by(c, other, x))
}

fn comes_before(c: &Command, other: u8, x: u64) -> bool
    ensures { result ≡ comes_before other x c.now }
{
    c.other < other || (c.other == other && c.x < x)
}

fn comes_by(c: &Command, other: u8, x: u64) -> bool
    ensures { result ≡ comes_by other x c.now }
{
    c.other < other || (c.other == other && c.x <= x)
}
