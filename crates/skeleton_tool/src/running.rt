ghost use Rattle.std.specs.Prelude.{◌≡◌, ◌<◌, ◌↔◌, [], IfOk, IsTrue, length};
ghost use Rattle.conjunctive_compose.specs.System.{process_count};
ghost use Rattle.ctl_form.specs.Kind.{Solves};
ghost use Rattle.firing_crew.specs.Crews.{MayWork, orders_of};
ghost use Rattle.skeleton_tool.specs.Answer.{AnswersBoth};
ghost use Rattle.skeleton_tool.specs.Command.{spec_limit, solution_limit};
ghost use Rattle.skeleton_tool.specs.Run.{IsReportOf, Runs};
ghost use Rattle.skeleton_tool.specs.Taking.{shelf_seen, EndsAs, KeepsShelf};
ghost use Rattle.skeleton_tool.specs.Third.{IsSystemOf};
ghost use Rattle.solution_text.specs.SolutionText.{AreOver};

use crate::command::RunCall;
use crate::failing::solves_or_writes;
use crate::reading::take_both;
use crate::refusal::write_out_of_limits;
use crate::status::Status;
use crate::stop::Stop;
use crate::third::system_of;
use conjunctive_compose::System;
use ctl_text::Spec;
use edge_io::Shelf;
use firing_crew::{MAX_CALLERS, MAX_ROOM, Policy, crew};
use firing_journal::write_report;
use pair_structure::Memory;
use solution_text::Solution;
use std::alloc::Global;
use std::sync::Wait;
use std::thread::Threads;

/// Writes the report of so many callers that fire the system of the two files, each from a thread of its own, with so
/// many replies each; or that these numbers are out of their limits.
pub(crate) fn run<R: Threads + Wait + Sync, S: Shelf>(
    rt: &R,
    alloc: Global,
    call: RunCall<'_>,
    policy: &Policy,
    shelf: &mut S,
    text: &mut Vec<u8>,
) -> Result<Status, Stop>
    requires spec { S.may_ask shelf.old call.spec.now spec_limit }
    requires sol { S.may_ask shelf.old call.sol.now solution_limit }
    requires empty { text.old.items ≡ [] }
    ensures ends { EndsAs (AnswersBoth (Runs policy.now.turn call.entry.callers call.entry.room call.entry.seed) (shelf_seen S.files S.faults S.longs shelf.old shelf.new) call.entry.spec.now call.entry.sol.now) text.new.items result }
    ensures kept { KeepsShelf S.files S.faults S.longs S.may_ask shelf.old shelf.new }
{
    let (spec, sol) = take_both(alloc, call.spec, call.sol, shelf, text)?;
    let system = system_of(alloc, &spec, &sol)?;
    let status = tell_run(rt, alloc, &spec, &sol, system, call, policy, text)?;
    Ok(status)
}

/// Writes the report where the solution solves and the numbers are within their limits, or why there is none.
fn tell_run<R: Threads + Wait + Sync>(
    rt: &R,
    alloc: Global,
    spec: &Spec,
    sol: &Solution,
    system: System,
    call: RunCall<'_>,
    policy: &Policy,
    text: &mut Vec<u8>,
) -> Result<Status, Memory>
    requires over { AreOver spec.now.roles spec.now.kinds sol.now }
    requires system { IsSystemOf spec.now sol.now system }
    requires empty { text.old.items ≡ [] }
    ensures answer { IfOk result (λ status. Runs policy.now.turn call.entry.callers call.entry.room call.entry.seed spec.now sol.now status text.new.items) }
    ensures some { IfOk result (λ status. 0 < length text.new.items) }
{
    if !solves_or_writes(alloc, spec, sol, text)? {
        return Ok(Status::Fails);
    }
    if !may_work(spec, call.callers, call.room) {
        write_out_of_limits(text)?;
        return Ok(Status::OutOfLimits);
    }
    write_fired(
        rt,
        alloc,
        system,
        call.callers as u32,
        call.room as u32,
        call.seed,
        policy,
        text,
    )?;
    Ok(Status::Done)
}

/// Whether so many callers may fire the processes of the specification, with so many replies each.
fn may_work(spec: &Spec, callers: u64, room: u64) -> bool
    ensures { IsTrue result ↔ MayWork (length spec.now.processes) callers room }
{
    let processes = spec.network().processes().len() as u64;
    0 < callers
        && callers <= MAX_CALLERS as u64
        && callers <= processes
        && 0 < room
        && room <= MAX_ROOM as u64
}

/// Fires the system from so many callers, and writes their report.
fn write_fired<R: Threads + Wait + Sync>(
    rt: &R,
    alloc: Global,
    system: System,
    callers: u32,
    room: u32,
    seed: u64,
    policy: &Policy,
    text: &mut Vec<u8>,
) -> Result<(), Memory>
    requires fits { MayWork (process_count system) callers room }
    requires empty { text.old.items ≡ [] }
    ensures { IfOk result (λ _. IsReportOf system (orders_of callers room seed policy.now.turn) text.new.items) }
{
    let Ok(report) = crew(rt, alloc, system, callers, room, seed, policy) else {
        return Err(Memory);
    };
    write_report(alloc, &report, text)?;
    Ok(())
}
