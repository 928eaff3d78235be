//! Callers each in a thread of its own.
ghost use Rattle.std.specs.Prelude.{◌≡◌, ℕ, ◌<◌, IfErr, IfOk, length, slice_index_or};
ghost use Rattle.conjunctive_compose.specs.System.{process_count};
ghost use Rattle.firing_words.specs.Of.{system_of};
ghost use Rattle.firing_hall.specs.Opening.{ArePasses};
ghost use Rattle.conjunctive_compose.specs.Whole.{start_of};
ghost use Rattle.firing_crew.specs.Crews.{IsCrewReport, IsFaultOf, MayWork, orders_of};
ghost use Rattle.firing_crew.specs.inside.Jobs.{IsBegunJob, IsDoneJob};
ghost use Rattle.firing_crew.specs.inside.Working.{Follows};

use crate::jobs::{Job, make_jobs, part_jobs, run};
use crate::numbers::judge;
use crate::{CrewFault, Orders, Policy};
use conjunctive_compose::System;
use firing_hall::{Gate, Hall, OpenGate, Pass};
use firing_journal::Report;
use pair_structure::Memory;
use std::alloc::Global;
use std::sync::Wait;
use std::thread;
use std::thread::Threads;

/// Each job in a thread of its own.
fn run_all<R: Threads + Wait + Sync, G: Gate + Send + Drop>(
    rt: &R,
    hall: &Hall,
    orders: Orders,
    policy: &Policy,
    jobs: Vec<Job<G>>,
) -> Result<Vec<Job<G>>, Memory>
    requires follows { Follows hall.now orders policy.now.turn }
    requires begun { (c : ℕ) (d : _) → c < length jobs.items → IsBegunJob hall.now orders c (slice_index_or jobs.items c d) }
    ensures count { IfOk result (λ done. length done.items ≡ length jobs.items) }
    ensures done { IfOk result (λ done. (c : ℕ) (d : _) → c < length done.items → IsDoneJob hall.now orders c (slice_index_or done.items c d)) }
{
    let work = |job: Job<G>| -> Job<G>
        requires follows { Follows hall.now orders policy.now.turn }
        requires begun { IsBegunJob hall.now orders job.pass.caller job }
        ensures { IsDoneJob hall.entry.now orders job.pass.caller result }
    { run(rt, hall, orders, policy, job) };
    let done = thread::map_vec(rt, jobs, &work)?;
    Ok(done)
}

/// From the open of the hall to its close.
fn crew_in<R: Threads + Wait + Sync, G: Gate + Send + Drop>(
    rt: &R,
    alloc: Global,
    hall: Hall,
    orders: Orders,
    policy: &Policy,
    passes: Vec<Pass>,
    gates: Vec<G>,
    locals: &[u8],
) -> Result<(Report, Vec<G>), Memory>
    requires follows { Follows hall orders policy.now.turn }
    requires fits { MayWork (process_count (system_of hall.words)) orders.callers orders.room }
    requires passes { ArePasses hall orders.callers passes.items }
    requires gates { length gates.items ≡ orders.callers }
    requires locals { locals.now ≡ (start_of (system_of hall.words)).locals }
    ensures report { IfOk result (λ r. IsCrewReport (system_of hall.words) orders r.0) }
    ensures gates { IfOk result (λ r. length r.1.items ≡ orders.callers) }
{
    let jobs = make_jobs(alloc, &hall, orders, passes, gates, locals)?;
    let done = run_all(rt, &hall, orders, policy, jobs)?;
    let (passes, gates) = part_jobs(alloc, &hall, orders, done)?;
    match hall.close(alloc, passes) {
        Ok(report) => Ok((report, gates)),
        Err(_) => Err(Memory),
    }
}

/// The same from the open on.
fn crew_within<R: Threads + Wait + Sync, G: Gate + Send + Drop>(
    rt: &R,
    alloc: Global,
    system: System,
    orders: Orders,
    policy: &Policy,
    gates: Vec<G>,
) -> Result<(Report, Vec<G>), Memory>
    requires fits { MayWork (process_count system) orders.callers orders.room }
    requires turn { orders.turn ≡ policy.now.turn }
    requires gates { length gates.items ≡ orders.callers }
    ensures report { IfOk result (λ r. IsCrewReport system orders r.0) }
    ensures gates { IfOk result (λ r. length r.1.items ≡ orders.callers) }
{
    let start = system.start(alloc)?;
    match Hall::open(alloc, system, orders.callers, orders.room) {
        Ok((hall, passes)) => crew_in(
            rt,
            alloc,
            hall,
            orders,
            policy,
            passes,
            gates,
            &start.locals,
        ),
        Err(_) => Err(Memory),
    }
}

/// Fires the system from so many callers, each in a thread of its own, with so many replies of each; a caller's gate is called once in each
/// firing of it, when all its locks are held. A wish that is Busy after 64 lost tries is made again. The gates are handed back in their
/// order; after a fault they are dropped, and the system too. Whether and when it returns is not said: a call waits for the threads.
pub fn crew_at<R: Threads + Wait + Sync, G: Gate + Send + Drop>(
    rt: &R,
    alloc: Global,
    system: System,
    callers: u32,
    room: u32,
    seed: u64,
    policy: &Policy,
    gates: Vec<G>,
) -> Result<(Report, Vec<G>), CrewFault>
    requires gates { length gates.items ≡ callers }
    ensures err { IfErr result (IsFaultOf (process_count system) callers room) }
    ensures fits { IfOk result (λ _. MayWork (process_count system) callers room) }
    ensures report { IfOk result (λ r. IsCrewReport system (orders_of callers room seed policy.now.turn) r.0) }
    ensures gates { IfOk result (λ r. length r.1.items ≡ callers) }
{
    if let Some(fault) = judge(&system, callers, room) {
        return Err(fault);
    }
    let turn = policy.turn();
    let orders = Orders {
        callers,
        room,
        seed,
        turn,
    };
    match crew_within(rt, alloc, system, orders, policy, gates) {
        Ok(done) => Ok(done),
        Err(_) => Err(CrewFault::Memory),
    }
}

fn open_gates(alloc: Global, count: u32) -> Result<Vec<OpenGate>, Memory>
    ensures { IfOk result (λ gates. length gates.items ≡ count) }
{
    let mut gates = Vec::with_capacity(alloc, count as usize)?;
    for number in 0..count {
        prove!(number < count);
        gates.push_reserved(OpenGate);
    }
    Ok(gates)
}

/// The same with gates that do nothing.
pub fn crew<R: Threads + Wait + Sync>(
    rt: &R,
    alloc: Global,
    system: System,
    callers: u32,
    room: u32,
    seed: u64,
    policy: &Policy,
) -> Result<Report, CrewFault>
    ensures err { IfErr result (IsFaultOf (process_count system) callers room) }
    ensures fits { IfOk result (λ _. MayWork (process_count system) callers room) }
    ensures report { IfOk result (IsCrewReport system (orders_of callers room seed policy.now.turn)) }
{
    if let Some(fault) = judge(&system, callers, room) {
        return Err(fault);
    }
    let Ok(gates) = open_gates(alloc, callers) else {
        return Err(CrewFault::Memory);
    };
    let (report, _) = crew_at(rt, alloc, system, callers, room, seed, policy, gates)?;
    Ok(report)
}
