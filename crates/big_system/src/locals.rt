//! Where a run leaves the philosophers.
ghost use Rattle.std.specs.Prelude.{◌≡◌, ◌<◌, All, IfOk, length, replicate};
ghost use Rattle.big_system.specs.declared.philosopher.TheConstants.{NONCRITICAL};
ghost use Rattle.firing_journal.specs.Journal.{wishes_of};
ghost use Rattle.big_system.specs.inside.Locals.{IsPhilosophers, goal_of, locals_after};

use crate::philosopher::{CRITICAL, NONCRITICAL, TRYING};
use firing_journal::Entry;
use std::alloc::{AllocError, Global};

/// The local states of so many philosophers after these firings. Linear in the entries.
pub(crate) fn locals_after(
    alloc: Global,
    count: usize,
    entries: &[Entry],
) -> Result<Vec<u8>, AllocError>
    requires { All (IsPhilosophers count) entries.now }
    ensures { IfOk result (λ locals. locals.items ≡ locals_after (replicate count NONCRITICAL) (wishes_of entries.now)) }
{
    let mut locals = vec![in alloc; NONCRITICAL; count]?;
    for entry in entries {
        locals[entry.wish.process as usize] = goal_of(entry.wish.arc);
    }
    Ok(locals)
}

/// Where an arc of the philosopher leads.
fn goal_of(arc: u32) -> u8
    requires { arc < 3 }
    ensures { result ≡ goal_of arc }
{
    match arc {
        0 => TRYING,
        1 => CRITICAL,
        _ => NONCRITICAL,
    }
}
