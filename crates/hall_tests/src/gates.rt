//! A caller that fires inside another's gate, while all locks of the other's plan are held.
ghost use Rattle.std.specs.Prelude.{◌≡◌, All, IfOk};
ghost use Rattle.firing_hall.specs.Passes.{IsPassOf};

use crate::acts::play;
use crate::halls::{closed, cut_last, opened, text_of, wish, with_last};
use conjunctive_compose::{System, Wish};
use firing_hall::{Gate, Hall, Pass, Reply};
use samples::{BOUND, FIRST, LAMP, TURN, system};
use std::alloc::Global;
use std::marker::Model;
use std::test::Fail;

/// Fires a wish inside another pass's gate, and keeps what it is told.
#[derive(Drop)]
struct Within<'a> {
    hall: &'a Hall,
    pass: Pass,
    wish: Wish,
    tries: u32,
    reply: Reply,
}

impl<'a> Model for Within<'a> {
    ghost use Rattle.firing_hall.specs.Passes.{IsPassOf};
    ghost use Rattle.firing_hall.specs.declared.firing.Hall.{Hall};

    ghost Value = { Hall };

    ghost view = { λ w. w.hall.now };

    ghost invariant = { λ w. IsPassOf w.hall.now w.pass };
}

impl<'a> Within<'a> {
    fn new(hall: &'a Hall, pass: Pass, wish: Wish, tries: u32) -> Within<'a>
        requires { IsPassOf hall.now pass }
        ensures { result ≡ hall.now }
    {
        Within {
            hall,
            pass,
            wish,
            tries,
            reply: Reply::Full,
        }
    }

    fn pass(self) -> (Pass, Reply)
        ensures { IsPassOf self.entry result.0 }
    {
        (self.pass, self.reply)
    }
}

impl<'a> Gate for Within<'a> {
    ghost opens = { λ before now. now ≡ before };

    fn held(&mut self)
        ensures { self.new ≡ self.old }
    {
        if self.tries > 0 && self.hall.system().fits(self.wish) {
            self.reply = self.hall.fire(&mut self.pass, self.wish, self.tries);
        }
    }
}

/// What the second pass is told inside the first one's gate, what the first one is told, and how many replies the second keeps; and both
/// passes.
fn both_told(
    alloc: Global,
    hall: &Hall,
    passes: Vec<Pass>,
    outer: Wish,
    inner: Wish,
    tries: u32,
) -> Result<(String, Vec<Pass>), Fail>
    requires { All (IsPassOf hall.now) passes.items }
    ensures { IfOk result (λ r. All (IsPassOf hall.now) r.1.items) }
{
    let (passes, second) = cut_last(hall, passes)?;
    let (passes, mut first) = cut_last(hall, passes)?;
    if !hall.system().fits(outer) {
        return Err(Fail::from("a wish that fits"));
    }
    let mut gate = Within::new(hall, second, inner, tries);
    let reply = hall.try_fire_at(&mut first, outer, &mut gate);
    let (second, within) = gate.pass();
    let text = format!(in alloc; "{within:?}, {reply:?}, {}", second.asked().len())?;
    let passes = with_last(hall, passes, first)?;
    let passes = with_last(hall, passes, second)?;
    Ok((text, passes))
}

/// What both are told, what the first then sees, and the report.
fn gate_told(
    alloc: Global,
    system: System,
    room: u32,
    outer: &str,
    inner: &str,
    tries: u32,
    acts: &str,
) -> Result<String, Fail> {
    let (hall, passes) = opened(alloc, system, 2, room)?;
    let (outer, inner) = (wish(outer), wish(inner));
    let (both, passes) = both_told(alloc, &hall, passes, outer, inner, tries)?;
    let (seen, passes) = play(alloc, &hall, passes, acts)?;
    let report = closed(alloc, hall, passes)?;
    let text = text_of(alloc, &report)?;
    Ok(format!(in alloc; "{both}: {seen}{text}")?)
}

/// Inside, another caller of the one edge loses each of its tries, and keeps no reply of it.
#[test]
fn is_busy_inside_the_gate_of_a_neighbour(rt: HostRuntime) -> Result<(), Fail> {
    let wanted =
        "Busy { lock: 0, holder: 0 }, Fired { number: 0 }, 0: journal 1/entry 0 0 1 0 0/done/report 1/caller 0/fired 1 0 0 0/caller 1/end/";
    let alloc = rt.alloc();
    for tries in 1..4 {
        let system = system(alloc, LAMP, TURN, "2*0", "0-1:0")?;
        let told = gate_told(alloc, system, 1, "1/0/0", "0/0/0", tries, "")?;
        assert_eq!(rt; told.as_str(), wanted);
    }
    Ok(())
}

/// Two processes that share a neighbour and no edge fire at the same time.
#[test]
fn fires_inside_the_gate_of_a_process_that_it_shares_no_edge_with(
    rt: HostRuntime,
) -> Result<(), Fail> {
    let wanted =
        "Fired { number: 0 }, Fired { number: 1 }, 1: Seen { moves: 1, state: 1 }, Seen { moves: 1, state: 2 }, journal 1/entry 0 1 2 0 0/entry 1 0 0 0 0/done/report 1/caller 0/fired 0 0 0 1/seenpair 0 1 1/seenpair 1 1 2/caller 1/fired 2 0 0 0/end/";
    let alloc = rt.alloc();
    let system = system(alloc, BOUND, FIRST, "3*0", "0-1:0 1-2:0")?;
    let acts = "0 pair 0, 0 pair 1";
    let told = gate_told(alloc, system, 3, "0/0/0", "2/0/0", 1, acts)?;
    assert_eq!(rt; told.as_str(), wanted);
    Ok(())
}
