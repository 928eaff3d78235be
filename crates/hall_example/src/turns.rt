//! What each caller does in a thread of its own.
ghost use Rattle.std.specs.Prelude.{All, IfOk};
ghost use Rattle.firing_hall.specs.Passes.{IsPassOf};

use conjunctive_compose::Wish;
use firing_hall::{Hall, Pass};
use firing_journal::Asked;
use std::alloc::AllocError;
use std::thread;
use std::thread::Threads;

/// How often the pass has fired.
fn count_fired(pass: &Pass) -> u32 {
    let mut count: u32 = 0;
    for asked in pass.asked() {
        if matches!(asked, Asked::Fired { .. }) {
            count = count.saturating_add(1);
        }
    }
    count
}

/// Switches the caller's lamp, if it was switched less than four times and if it is this lamp's turn.
fn switch(hall: &Hall, mut pass: Pass) -> Pass
    requires { IsPassOf hall.now pass }
    ensures { IsPassOf hall.now result }
{
    let count = count_fired(&pass);
    let (process, arc, pick) = (pass.caller(), count % 2, 0);
    let wish = Wish { process, arc, pick };
    if count < 4 && hall.system().fits(wish) {
        hall.fire(&mut pass, wish, 1_000_000);
    }
    pass
}

/// The passes after a wish of each, each in a thread of its own.
fn turn<R: Threads + Sync>(rt: &R, hall: &Hall, passes: Vec<Pass>) -> Result<Vec<Pass>, AllocError>
    requires { All (IsPassOf hall.now) passes.items }
    ensures { IfOk result (λ passes. All (IsPassOf hall.now) passes.items) }
{
    let work = |pass: Pass| -> Pass
        requires { IsPassOf hall.now pass }
        ensures { IsPassOf hall.entry.now result }
    { switch(hall, pass) };
    thread::map_vec(rt, passes, &work)
}

/// The passes after eight turns: in each the lamp whose turn it is is switched, so all is done then.
pub(crate) fn all_turns<R: Threads + Sync>(
    rt: &R,
    hall: &Hall,
    mut passes: Vec<Pass>,
) -> Result<Vec<Pass>, AllocError>
    requires { All (IsPassOf hall.now) passes.items }
    ensures { IfOk result (λ passes. All (IsPassOf hall.now) passes.items) }
{
    for _ in 0..8 {
        passes = turn(rt, hall, passes)?;
    }
    Ok(passes)
}
