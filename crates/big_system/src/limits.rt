//! How many processes a system has, and how many replies its caller makes.
ghost use Rattle.std.specs.Prelude.{◌↔◌, IsTrue};
ghost use Rattle.big_system.specs.Limits.{IsInLimits};

use firing_crew::MAX_ROOM;
use interconnection::MAX_PROCESSES;

/// Processes of a system, at least.
pub const MIN_PROCESSES: u32 = 3;

/// Whether there are 3 to 1,024 processes and 1 to 65,536 replies.
pub fn is_in_limits(count: u64, rounds: u64) -> bool
    ensures { IsTrue result ↔ IsInLimits count rounds }
{
    count >= MIN_PROCESSES as u64
        && count <= MAX_PROCESSES as u64
        && rounds > 0
        && rounds <= MAX_ROOM as u64
}
