//! Whether the numbers of a crew fit.
ghost use Rattle.std.specs.Prelude.{IfNone, IfSome};
ghost use Rattle.conjunctive_compose.specs.System.{process_count};
ghost use Rattle.firing_crew.specs.Crews.{IsFaultOf, MayWork};

use crate::{CrewFault, MAX_CALLERS, MAX_ROOM};
use conjunctive_compose::System;

/// What bars a crew of so many callers with so many replies each.
pub(crate) fn judge(system: &System, callers: u32, room: u32) -> Option<CrewFault>
    ensures some { IfSome result (IsFaultOf (process_count system.now) callers room) }
    ensures none { IfNone result (MayWork (process_count system.now) callers room) }
{
    let processes = system.network().processes().len();
    if callers == 0 || callers > MAX_CALLERS || callers as usize > processes {
        return Some(CrewFault::Callers);
    }
    if room == 0 || room > MAX_ROOM {
        return Some(CrewFault::Room);
    }
    None
}
