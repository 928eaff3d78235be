//! Passes that are handed back: too few of them, all, and in another order; numbers of callers and of replies that no hall has.
ghost use Rattle.std.specs.Prelude.{◌≡◌, All, IfOk};
ghost use Rattle.firing_hall.specs.Passes.{IsPassOf};

use crate::acts::play;
use crate::halls::{closed, cut_last, opened, text_of, with_last};
use firing_hall::{CloseFault, Hall, HallFault, Pass};
use samples::{LAMP, TURN, system};
use std::alloc::Global;
use std::test::Fail;

/// The fault of a close, with hall and passes.
fn missing(
    alloc: Global,
    hall: Hall,
    passes: Vec<Pass>,
) -> Result<(Hall, Vec<Pass>, u32, u32), Fail>
    requires { All (IsPassOf hall) passes.items }
    ensures of { IfOk result (λ r. All (IsPassOf r.0) r.1.items) }
    ensures same { IfOk result (λ r. r.0 ≡ hall) }
{
    match hall.close(alloc, passes) {
        Err(
            CloseFault::Missing {
                hall,
                passes,
                have,
                need,
            },
        ) => Ok((hall, passes, have, need)),
        _ => Err(Fail::from("a pass is missing")),
    }
}

/// Three of four passes are too few; with the fourth the hall is closed.
#[test]
fn wants_all_passes(rt: HostRuntime) -> Result<(), Fail> {
    let alloc = rt.alloc();
    let system = system(alloc, LAMP, TURN, "2*0", "0-1:0")?;
    let (hall, passes) = opened(alloc, system, 4, 1)?;
    let (passes, last) = cut_last(&hall, passes)?;
    let (hall, passes, have, need) = missing(alloc, hall, passes)?;
    assert_eq!(rt; (have, need), (3, 4));
    let passes = with_last(&hall, passes, last)?;
    let report = closed(alloc, hall, passes)?;
    assert_eq!(rt; report.callers.len(), 4);
    Ok(())
}

/// The two passes in the other order.
fn turned(hall: &Hall, passes: Vec<Pass>) -> Result<Vec<Pass>, Fail>
    requires { All (IsPassOf hall.now) passes.items }
    ensures { IfOk result (λ turned. All (IsPassOf hall.now) turned.items) }
{
    let (passes, second) = cut_last(hall, passes)?;
    let (passes, first) = cut_last(hall, passes)?;
    let passes = with_last(hall, passes, second)?;
    with_last(hall, passes, first)
}

/// The report of two lamps' callers, with the passes handed back in this order or in the other.
fn lamps_told(alloc: Global, turn: bool) -> Result<String, Fail> {
    let system = system(alloc, LAMP, TURN, "2*0", "0-1:0")?;
    let (hall, passes) = opened(alloc, system, 2, 2)?;
    let acts = "1 fire 1/0/0, 0 fire 0/0/0, 1 look 0";
    let (_, passes) = play(alloc, &hall, passes, acts)?;
    let passes = if turn { turned(&hall, passes)? } else { passes };
    let report = closed(alloc, hall, passes)?;
    text_of(alloc, &report)
}

#[test]
fn closes_in_any_order(rt: HostRuntime) -> Result<(), Fail> {
    let text = lamps_told(rt.alloc(), false)?;
    assert_eq!(rt; lamps_told(rt.alloc(), true)?.as_str(), text.as_str());
    Ok(())
}

/// What the hall of these numbers is refused for.
fn fault(alloc: Global, callers: u32, room: u32) -> Result<&'static str, Fail> {
    let system = system(alloc, LAMP, TURN, "2*0", "0-1:0")?;
    match Hall::open(alloc, system, callers, room) {
        Ok(_) => Ok("none"),
        Err(HallFault::Callers { .. }) => Ok("callers"),
        Err(HallFault::Room { .. }) => Ok("room"),
        Err(HallFault::Memory { .. }) => Ok("memory"),
    }
}

#[test]
fn refuses_numbers_out_of_range(rt: HostRuntime) -> Result<(), Fail> {
    let alloc = rt.alloc();
    assert_eq!(rt; fault(alloc, 0, 0)?, "callers");
    assert_eq!(rt; fault(alloc, 65, 1)?, "callers");
    assert_eq!(rt; fault(alloc, 64, 0)?, "room");
    assert_eq!(rt; fault(alloc, 1, 65537)?, "room");
    assert_eq!(rt; fault(alloc, 64, 1)?, "none");
    Ok(())
}

/// Of 64 callers the last, the first and the last but one fire.
#[test]
fn tells_64_callers(rt: HostRuntime) -> Result<(), Fail> {
    let alloc = rt.alloc();
    let system = system(alloc, LAMP, TURN, "2*0", "0-1:0")?;
    let (hall, passes) = opened(alloc, system, 64, 1)?;
    let acts = "63 fire 1/0/0, 0 fire 0/0/0, 62 fire 1/1/0";
    let (told, passes) = play(alloc, &hall, passes, acts)?;
    let wanted = "Fired { number: 0 }, Fired { number: 1 }, Fired { number: 2 }, ";
    assert_eq!(rt; told.as_str(), wanted);
    let report = closed(alloc, hall, passes)?;
    let text = text_of(alloc, &report)?;
    let journal =
        "journal 1/entry 0 63 1 0 0/entry 1 0 0 0 0/entry 2 62 1 1 0/done/report 1/caller 0/fired 0 0 0 1/caller 1/";
    assert!(rt; text.as_str().starts_with(journal));
    assert!(rt;
        text.as_str()
            .ends_with("/caller 62/fired 1 1 0 2/caller 63/fired 1 0 0 0/end/")
    );
    Ok(())
}
