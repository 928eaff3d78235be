//! One caller's replies: wishes and looks by the rule, until its pass is full.
ghost use Rattle.std.specs.Prelude.{◌≡◌, ◌<◌, ◌+◌, ◌↔◌, [], Some, IsTrue, length};
ghost use Rattle.conjunctive_compose.specs.Firing.{WishFits};
ghost use Rattle.firing_words.specs.Of.{system_of};
ghost use Rattle.firing_hall.specs.Gates.{IsAnswered};
ghost use Rattle.firing_hall.specs.Halls.{NamesProcess};
ghost use Rattle.firing_hall.specs.Passes.{IsPassOf, kept_of, with_kept};
ghost use Rattle.firing_crew.specs.inside.Working.{Follows, Works};

use crate::{Orders, Policy, Worker};
use conjunctive_compose::Wish;
use firing_hall::{Gate, Hall, Pass, Reply};
use std::sync::Wait;

/// Tries at held locks that a firing may lose before its wish is made again.
const TRIES: u32 = 64;

fn is_answered(reply: Reply) -> bool
    ensures { IsTrue result ↔ IsAnswered reply }
{
    match reply {
        Reply::Full => false,
        Reply::Busy { .. } => false,
        _ => true,
    }
}

/// Makes the wish, again where it is Busy, until it is answered.
#[tactic(auto, using(crate::proofs::Standing::unanswered))]
fn fire_on<R: Wait, G: Gate>(
    rt: &R,
    hall: &Hall,
    pass: &mut Pass,
    wish: Wish,
    gate: &mut G,
) -> Reply
    requires of { IsPassOf hall.now pass.old }
    requires fits { WishFits (system_of hall.now.words) wish }
    ensures of { IsPassOf hall.now pass.new }
    ensures caller { pass.new.caller ≡ pass.old.caller }
    ensures asked { pass.new.asked.items ≡ with_kept pass.old.asked.items (kept_of wish result) }
    ensures answered { IsAnswered result }
    ensures named { NamesProcess (system_of hall.now.words) result }
{
    for _ in rt.forever() {
        let reply = hall.fire_at(pass, wish, TRIES, gate);
        if is_answered(reply) {
            return reply;
        }
    }
    unreachable!()
}

/// Makes the wish where no other caller is.
fn fire_alone(hall: &Hall, pass: &mut Pass, wish: Wish) -> Reply
    requires of { IsPassOf hall.now pass.old }
    requires fits { WishFits (system_of hall.now.words) wish }
    requires room { length pass.old.asked.items < hall.now.words.setting.room }
    requires alone { hall.now.words.setting.callers ≡ 1 }
    ensures of { IsPassOf hall.now pass.new }
    ensures caller { pass.new.caller ≡ pass.old.caller }
    ensures asked { pass.new.asked.items ≡ with_kept pass.old.asked.items (kept_of wish result) }
    ensures answered { IsAnswered result }
    ensures named { NamesProcess (system_of hall.now.words) result }
{
    hall.try_fire(pass, wish)
}

/// Looks at the neighbour that blocked the last wish.
fn look_on(hall: &Hall, orders: Orders, pass: &mut Pass, worker: &mut Worker, process: u32)
    requires works { Works hall.now orders pass.old worker.old }
    requires room { length pass.old.asked.items < hall.now.words.setting.room }
    requires look { worker.old.look ≡ Some process }
    ensures works { Works hall.now orders pass.new worker.new }
    ensures caller { pass.new.caller ≡ pass.old.caller }
    ensures more { length pass.new.asked.items ≡ length pass.old.asked.items + 1 }
{
    hall.look(pass, process);
    worker.look_away();
}

/// One reply more.
fn reply_on<R: Wait, G: Gate>(
    rt: &R,
    hall: &Hall,
    orders: Orders,
    policy: &Policy,
    pass: &mut Pass,
    worker: &mut Worker,
    gate: &mut G,
)
    requires follows { Follows hall.now orders policy.now.turn }
    requires works { Works hall.now orders pass.old worker.old }
    requires room { length pass.old.asked.items < hall.now.words.setting.room }
    ensures works { Works hall.now orders pass.new worker.new }
    ensures caller { pass.new.caller ≡ pass.old.caller }
    ensures more { length pass.new.asked.items ≡ length pass.old.asked.items + 1 }
{
    match worker.look() {
        Some(process) => look_on(hall, orders, pass, worker, process),
        None => {
            let system = hall.system();
            let wish = worker.wish(system, policy);
            let reply = fire_on(rt, hall, pass, wish, gate);
            worker.hear(system, orders.callers, wish, reply);
        }
    }
}

/// One reply more, where no other caller is.
fn reply_alone(hall: &Hall, orders: Orders, policy: &Policy, pass: &mut Pass, worker: &mut Worker)
    requires follows { Follows hall.now orders policy.now.turn }
    requires alone { hall.now.words.setting.callers ≡ 1 }
    requires works { Works hall.now orders pass.old worker.old }
    requires room { length pass.old.asked.items < hall.now.words.setting.room }
    ensures works { Works hall.now orders pass.new worker.new }
    ensures caller { pass.new.caller ≡ pass.old.caller }
    ensures more { length pass.new.asked.items ≡ length pass.old.asked.items + 1 }
{
    match worker.look() {
        Some(process) => look_on(hall, orders, pass, worker, process),
        None => {
            let system = hall.system();
            let wish = worker.wish(system, policy);
            let reply = fire_alone(hall, pass, wish);
            worker.hear(system, orders.callers, wish, reply);
        }
    }
}

/// All replies of a caller.
pub(crate) fn work<R: Wait, G: Gate>(
    rt: &R,
    hall: &Hall,
    orders: Orders,
    policy: &Policy,
    pass: &mut Pass,
    worker: &mut Worker,
    gate: &mut G,
)
    requires follows { Follows hall.now orders policy.now.turn }
    requires works { Works hall.now orders pass.old worker.old }
    requires empty { pass.old.asked.items ≡ [] }
    ensures works { Works hall.now orders pass.new worker.new }
    ensures caller { pass.new.caller ≡ pass.old.caller }
    ensures full { length pass.new.asked.items ≡ orders.room }
{
    for count in 0..orders.room {
        prove!(count < orders.room);
        reply_on(rt, hall, orders, policy, pass, worker, gate);
    }
}

/// All replies of a caller that is alone.
pub(crate) fn work_alone(
    hall: &Hall,
    orders: Orders,
    policy: &Policy,
    pass: &mut Pass,
    worker: &mut Worker,
)
    requires follows { Follows hall.now orders policy.now.turn }
    requires alone { hall.now.words.setting.callers ≡ 1 }
    requires works { Works hall.now orders pass.old worker.old }
    requires empty { pass.old.asked.items ≡ [] }
    ensures works { Works hall.now orders pass.new worker.new }
    ensures caller { pass.new.caller ≡ pass.old.caller }
    ensures full { length pass.new.asked.items ≡ orders.room }
{
    for count in 0..orders.room {
        prove!(count < orders.room);
        reply_alone(hall, orders, policy, pass, worker);
    }
}
