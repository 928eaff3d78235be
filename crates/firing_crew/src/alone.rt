//! One caller, in the thread of who asks.
ghost use Rattle.std.specs.Prelude.{◌≡◌, IfErr, IfOk};
ghost use Rattle.conjunctive_compose.specs.System.{process_count};
ghost use Rattle.conjunctive_compose.specs.Whole.{start_of};
ghost use Rattle.firing_words.specs.Of.{system_of};
ghost use Rattle.firing_hall.specs.Opening.{ArePasses};
ghost use Rattle.firing_crew.specs.Crews.{IsCrewReport, IsFaultOf, MayWork, orders_of};
ghost use Rattle.firing_crew.specs.inside.Working.{Follows};
ghost use Rattle.firing_crew.specs.inside.Jobs.{AreDone};

use crate::jobs::make_worker;
use crate::numbers::judge;
use crate::work::work_alone;
use crate::{CrewFault, Orders, Policy};
use conjunctive_compose::System;
use firing_hall::{Hall, Pass};
use firing_journal::Report;
use pair_structure::Memory;
use std::alloc::Global;

/// The one pass is filled.
fn fill(
    alloc: Global,
    hall: &Hall,
    orders: Orders,
    policy: &Policy,
    passes: &mut Vec<Pass>,
    locals: &[u8],
) -> Result<(), Memory>
    requires follows { Follows hall.now orders policy.now.turn }
    requires fits { MayWork (process_count (system_of hall.now.words)) 1 orders.room }
    requires one { orders.callers ≡ 1 }
    requires passes { ArePasses hall.now 1 passes.old.items }
    requires locals { locals.now ≡ (start_of (system_of hall.now.words)).locals }
    ensures { IfOk result (λ _. AreDone hall.now orders passes.new.items) }
{
    let mut pass = passes.remove(0);
    let mut worker = make_worker(alloc, hall, orders, &pass, 0, locals)?;
    work_alone(hall, orders, policy, &mut pass, &mut worker);
    passes.push(pass)?;
    Ok(())
}

fn solo_within(
    alloc: Global,
    system: System,
    orders: Orders,
    policy: &Policy,
) -> Result<Report, Memory>
    requires fits { MayWork (process_count system) 1 orders.room }
    requires one { orders.callers ≡ 1 }
    requires turn { orders.turn ≡ policy.now.turn }
    ensures { IfOk result (IsCrewReport system orders) }
{
    let start = system.start(alloc)?;
    let Ok((hall, mut passes)) = Hall::open(alloc, system, 1, orders.room) else {
        return Err(Memory);
    };
    fill(alloc, &hall, orders, policy, &mut passes, &start.locals)?;
    match hall.close(alloc, passes) {
        Ok(report) => Ok(report),
        Err(_) => Err(Memory),
    }
}

/// Fires the system from one caller with so many replies, without a thread and without waiting. The system is dropped after a fault. Time: a
/// step for each arc of a role and for each neighbour, at each reply.
pub fn solo(
    alloc: Global,
    system: System,
    room: u32,
    seed: u64,
    policy: &Policy,
) -> Result<Report, CrewFault>
    ensures err { IfErr result (IsFaultOf (process_count system) 1 room) }
    ensures fits { IfOk result (λ _. MayWork (process_count system) 1 room) }
    ensures report { IfOk result (IsCrewReport system (orders_of 1 room seed policy.now.turn)) }
{
    if let Some(fault) = judge(&system, 1, room) {
        return Err(fault);
    }
    let turn = policy.turn();
    let orders = Orders {
        callers: 1,
        room,
        seed,
        turn,
    };
    match solo_within(alloc, system, orders, policy) {
        Ok(report) => Ok(report),
        Err(_) => Err(CrewFault::Memory),
    }
}
