//! What each caller's thread is given, and what it hands back.
ghost use Rattle.std.specs.Prelude.{◌≡◌, ℕ, ◌<◌, IfOk, length, slice_index_or};
ghost use Rattle.conjunctive_compose.specs.System.{process_count};
ghost use Rattle.conjunctive_compose.specs.Whole.{start_of};
ghost use Rattle.firing_words.specs.Of.{system_of};
ghost use Rattle.firing_hall.specs.Opening.{ArePasses, IsFresh};
ghost use Rattle.firing_crew.specs.inside.Jobs.{AreDone, IsBegun, IsBegunJob, IsDoneJob};
ghost use Rattle.firing_crew.specs.inside.Working.{Follows};

use crate::work::work;
use crate::{Orders, Policy, Worker};
use firing_hall::{Gate, Hall, Pass};
use pair_structure::Memory;
use std::alloc::Global;
use std::sync::Wait;

/// A caller's pass, its worker, and its gate.
#[derive(Drop)]
pub(crate) struct Job<G> {
    pass: Pass,
    worker: Worker,
    gate: G,
}

/// Works until the pass is full.
pub(crate) fn run<R: Wait, G: Gate>(
    rt: &R,
    hall: &Hall,
    orders: Orders,
    policy: &Policy,
    job: Job<G>,
) -> Job<G>
    requires follows { Follows hall.now orders policy.now.turn }
    requires begun { IsBegunJob hall.now orders job.pass.caller job }
    ensures done { IsDoneJob hall.now orders job.pass.caller result }
{
    let Job {
        mut pass,
        mut worker,
        mut gate,
    } = job;
    work(rt, hall, orders, policy, &mut pass, &mut worker, &mut gate);
    Job { pass, worker, gate }
}

/// The worker of a caller with a fresh pass.
pub(crate) fn make_worker(
    alloc: Global,
    hall: &Hall,
    orders: Orders,
    pass: &Pass,
    caller: u32,
    locals: &[u8],
) -> Result<Worker, Memory>
    requires fresh { IsFresh hall.now caller pass.now }
    requires locals { locals.now ≡ (start_of (system_of hall.now.words)).locals }
    requires within { caller < process_count (system_of hall.now.words) }
    ensures { IfOk result (IsBegun hall.now orders caller pass.now) }
{
    let _network = hall.system().network();
    let worker = Worker::new(alloc, locals, orders.seed, caller)?;
    Ok(worker)
}

/// A job for each caller, in order.
pub(crate) fn make_jobs<G: Drop>(
    alloc: Global,
    hall: &Hall,
    orders: Orders,
    mut passes: Vec<Pass>,
    mut gates: Vec<G>,
    locals: &[u8],
) -> Result<Vec<Job<G>>, Memory>
    requires passes { ArePasses hall.now orders.callers passes.items }
    requires gates { length gates.items ≡ orders.callers }
    requires locals { locals.now ≡ (start_of (system_of hall.now.words)).locals }
    requires busy { (c : ℕ) → c < orders.callers → c < process_count (system_of hall.now.words) }
    ensures count { IfOk result (λ jobs. length jobs.items ≡ orders.callers) }
    ensures begun { IfOk result (λ jobs. (c : ℕ) (d : _) → c < length jobs.items → IsBegunJob hall.now orders c (slice_index_or jobs.items c d)) }
{
    let mut jobs = Vec::new(alloc);
    for caller in 0..orders.callers {
        let pass = passes.remove(0);
        let gate = gates.remove(0);
        let worker = make_worker(alloc, hall, orders, &pass, caller, locals)?;
        jobs.push(Job { pass, worker, gate })?;
    }
    Ok(jobs)
}

/// The passes and the gates of all callers, in order.
pub(crate) fn part_jobs<G: Drop>(
    alloc: Global,
    hall: &Hall,
    orders: Orders,
    mut jobs: Vec<Job<G>>,
) -> Result<(Vec<Pass>, Vec<G>), Memory>
    requires count { length jobs.items ≡ orders.callers }
    requires done { (c : ℕ) (d : _) → c < length jobs.items → IsDoneJob hall.now orders c (slice_index_or jobs.items c d) }
    ensures passes { IfOk result (λ r. AreDone hall.now orders r.0.items) }
    ensures gates { IfOk result (λ r. length r.1.items ≡ orders.callers) }
{
    let mut passes = Vec::new(alloc);
    let mut gates = Vec::new(alloc);
    for caller in 0..orders.callers {
        prove!(caller < orders.callers);
        let job = jobs.remove(0);
        let Job { pass, gate, .. } = job;
        passes.push(pass)?;
        gates.push(gate)?;
    }
    Ok((passes, gates))
}
