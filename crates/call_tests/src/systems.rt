//! Systems: what wishes are answered, one after another from the start, and what a whole state permits.

ghost use Rattle.std.specs.Prelude.{◌<◌, length, IfOk, IfSome};
ghost use Rattle.interconnection.specs.Graph.{IsBeside};
ghost use Rattle.conjunctive_compose.specs.Firing.{WishFits};
ghost use Rattle.conjunctive_compose.specs.Whole.{IsProper};

use crate::table::{agree, expect};
use conjunctive_compose::{System, Whole, Wish};
use interconnection::{Beside, Edge};
use pair_structure::{Side, local_of};
use samples::{
    BOUND, EITHER, EITHER_TURN, FIRST, FOUR, LAMP, PRIOR, TURN, cut, long, number, system,
};
use std::alloc::Global;
use std::test::Fail;

/// Processes, edges, and wishes as process, arc and pick; then the answers, and the whole state after them.
const PHILOSOPHERS: &str =
    "3*0 | 0-1:0 1-2:0 0-2:0 | 0/0/0 0/1/0 1/0/0 1/1/0 = Moved, Moved, Moved, Blocked { neighbour: 0 }, [2, 1, 0] [0, 0, 0]
3*0 | 1-2:0 0-2:0 0-1:0 | 1/0/0 0/0/0 2/0/0 2/1/0 = Moved, Moved, Moved, Blocked { neighbour: 0 }, [1, 1, 1] [0, 0, 1]
0 |  | 0/0/0 0/1/0 0/2/0 = Moved, Moved, Moved, [0] []";

const LAMPS: &str =
    "2*0 | 0-1:0 | 0/1/0 1/0/0 1/1/18446744073709551615 0/0/0 0/0/0 = Away { local: 0 }, Moved, Blocked { neighbour: 0 }, Moved, Away { local: 1 }, [1, 1] [0]";

/// Lamps that start off or on, each in its own start.
const EITHER_LAMPS: &str = "2*0 | 0-1:0 |  = [0, 0] [0]
0 0@1 | 0-1:0 |  = [0, 1] [0]
0 0@1 | 0-1:0 | 1/1/0 0/0/0 1/1/0 = Blocked { neighbour: 0 }, Moved, Moved, [1, 0] [0]
0 0@1 | 1-0:0 | 0/0/0 1/1/0 = Blocked { neighbour: 1 }, Moved, [0, 0] [0]
2*0@1 | 0-1:0 | 0/1/0 1/1/0 = Blocked { neighbour: 1 }, Moved, [1, 0] [0]";

/// Of four permitted commands the picked one is taken.
const PICKS: &str = "2*0 | 0-1:0 | 0/0/2 = Moved, [1, 0] [2]
2*0 | 0-1:0 | 0/0/5 = Moved, [1, 0] [1]
2*0 | 0-1:0 | 0/0/18446744073709551615 1/0/0 = Moved, Blocked { neighbour: 0 }, [1, 0] [3]";

/// Of two philosophers that wait, side a goes. Where one waits it stands behind the other in the peel order; where each
/// of three waits for the next there is none.
const PEELS: &str = "3*0 | 0-1:0 1-2:0 2-0:0 | = Some([0, 1, 2])
3*0 | 0-1:0 1-2:0 2-0:0 | 2/0/0 0/0/0 = Some([1, 2, 0])
3*0 | 0-1:0 1-2:0 2-0:0 | 0/0/0 1/0/0 2/0/0 = None";

fn wish(spelled: &str) -> Wish {
    let (process, rest) = cut(spelled, "/");
    let (arc, pick) = cut(rest, "/");
    Wish {
        process: number(process),
        arc: number(arc),
        pick: long(pick),
    }
}

fn answers(alloc: Global, system: &System, wishes: &str) -> Result<String, Fail> {
    let mut w = system.start(alloc)?;
    let mut text = String::new(alloc);
    for word in wishes.split_whitespace() {
        let wish = wish(word);
        if !system.fits(wish) {
            return Err(Fail::from("no such arc"));
        }
        let answer = system.step(&mut w, wish);
        text.push_str(format!(in alloc; "{answer:?}, ")?.as_str())?;
    }
    let (locals, shared) = (w.locals.as_slice(), w.shared.as_slice());
    text.push_str(format!(in alloc; "{locals:?} {shared:?}")?.as_str())?;
    Ok(text)
}

fn told(alloc: Global, lines: &str, spelled: &str, asked: &str) -> Result<String, Fail> {
    let (groups, rest) = cut(asked, "|");
    let (joins, wishes) = cut(rest, "|");
    let system = system(alloc, lines, spelled, groups, joins)?;
    answers(alloc, &system, wishes)
}

fn philosophers_told(alloc: Global, asked: &str) -> Result<String, Fail> {
    told(alloc, BOUND, FIRST, asked)
}

fn lamps_told(alloc: Global, asked: &str) -> Result<String, Fail> {
    told(alloc, LAMP, TURN, asked)
}

fn either_told(alloc: Global, asked: &str) -> Result<String, Fail> {
    told(alloc, EITHER, EITHER_TURN, asked)
}

fn picks_told(alloc: Global, asked: &str) -> Result<String, Fail> {
    told(alloc, BOUND, FOUR, asked)
}

#[test]
fn answers_wishes(rt: HostRuntime) -> Result<(), Fail> {
    expect(&rt, rt.alloc(), PHILOSOPHERS, philosophers_told)?;
    expect(&rt, rt.alloc(), LAMPS, lamps_told)?;
    expect(&rt, rt.alloc(), EITHER_LAMPS, either_told)?;
    expect(&rt, rt.alloc(), PICKS, picks_told)
}

/// The whole state that the wishes leave.
fn left(alloc: Global, system: &System, wishes: &str) -> Result<Whole, Fail>
    ensures { IfOk result (IsProper system.now) }
{
    let mut w = system.start(alloc)?;
    for word in wishes.split_whitespace() {
        let wish = wish(word);
        if !system.fits(wish) {
            return Err(Fail::from("no such arc"));
        }
        system.step(&mut w, wish);
    }
    Ok(w)
}

fn peel_told(alloc: Global, asked: &str) -> Result<String, Fail> {
    let (groups, rest) = cut(asked, "|");
    let (joins, wishes) = cut(rest, "|");
    let system = system(alloc, BOUND, PRIOR, groups, joins)?;
    let w = left(alloc, &system, wishes)?;
    let order = system.peel(alloc, &w)?;
    Ok(format!(in alloc; "{order:?}")?)
}

#[test]
fn peels_where_none_waits_in_a_circle(rt: HostRuntime) -> Result<(), Fail> {
    expect(&rt, rt.alloc(), PEELS, peel_told)
}

/// Whether the edge's other process permits the arc, where all of them exist.
fn permitted(system: &System, w: &Whole, process: u32, arc: u32, edge: u32) -> Option<bool>
    requires { IsProper system.now w.now }
{
    let pick = 0;
    if !system.fits(Wish { process, arc, pick })
        || edge as usize >= system.network().edges().len()
    {
        return None;
    }
    let ends = system.network().edges()[edge as usize];
    if ends.a == process || ends.b == process {
        return Some(system.permits(w, process, arc, edge));
    }
    None
}

fn permits_told(alloc: Global) -> Result<String, Fail> {
    let system = system(alloc, LAMP, TURN, "3*0", "0-1:0 1-2:0")?;
    let w = system.start(alloc)?;
    let first = permitted(&system, &w, 1, 0, 0);
    let second = permitted(&system, &w, 1, 0, 1);
    let third = permitted(&system, &w, 2, 0, 1);
    Ok(format!(in alloc; "{first:?} {second:?} {third:?}")?)
}

#[test]
fn permits_by_edge(rt: HostRuntime) -> Result<(), Fail> {
    agree(
        &rt,
        permits_told(rt.alloc()),
        "Some(true) Some(false) Some(true)",
    )
}

/// The state of the first edge's pair, and the count of moves of its structure.
fn pair_told(alloc: Global, system: &System, w: &Whole) -> Result<String, Fail>
    requires { IsProper system.now w.now }
{
    if system.network().edges().is_empty() || system.network().ends().is_empty() {
        return Err(Fail::from("no edge"));
    }
    let moves = system.structure(0).moves().len();
    Ok(format!(in alloc; "{} {moves}", system.pair_state(w, 0))?)
}

/// At the start, and after the wish.
fn pairs_told(alloc: Global, system: &System, spelled: &str) -> Result<String, Fail> {
    let mut w = system.start(alloc)?;
    let wish = wish(spelled);
    if !system.fits(wish) {
        return Err(Fail::from("no such arc"));
    }
    let before = pair_told(alloc, system, &w)?;
    system.step(&mut w, wish);
    let after = pair_told(alloc, system, &w)?;
    Ok(format!(in alloc; "{before}, {after}")?)
}

/// A wish of a lamp and a state of the pair; then the state after the firing, by the pair's state alone. None where the
/// arc leaves no such state, and Some(None) where the other lamp does not permit it.
const NEXT_PAIRS: &str = "1/0/0 0 = Some(Some(1))
0/0/0 0 = Some(None)
1/1/0 0 = None
1/0/0 4 = None
0/0/0 1 = Some(Some(2))
0/1/0 2 = Some(None)
1/1/0 2 = Some(Some(3))";

/// How the first edge looks to the process, if it is one of its two.
fn first_beside(edges: &[Edge], process: u32) -> Option<Beside>
    requires { 0 < length edges.now }
    ensures { IfSome result (λ b. IsBeside edges.now process b) }
{
    let ends = edges[0];
    if ends.a == process {
        return Some(Beside {
            process: ends.b,
            edge: 0,
            side: Side::A,
        });
    }
    if ends.b == process {
        return Some(Beside {
            process: ends.a,
            edge: 0,
            side: Side::B,
        });
    }
    None
}

/// What the pair of the first edge comes to.
fn next_of(system: &System, wish: Wish, state: u64) -> Option<Option<u64>>
    requires { WishFits system.now wish }
{
    let edges = system.network().edges();
    if edges.is_empty() {
        return None;
    }
    let Some(b) = first_beside(edges, wish.process) else {
        return None;
    };
    let states = system.structure(edges[b.edge as usize].kind).states();
    let arc = system.arc(wish.process, wish.arc);
    if state >= states.len() as u64 {
        return None;
    }
    if local_of(b.side, states[state as usize]) != arc.from {
        return None;
    }
    Some(system.next_pair(wish, &b, state))
}

fn next_told(alloc: Global, asked: &str) -> Result<String, Fail> {
    let system = system(alloc, LAMP, TURN, "2*0", "0-1:0")?;
    let (spelled, state) = cut(asked, " ");
    let wish = wish(spelled);
    if !system.fits(wish) {
        return Err(Fail::from("no such arc"));
    }
    Ok(format!(in alloc; "{:?}", next_of(&system, wish, long(state)))?)
}

#[test]
fn tells_the_next_pair_state(rt: HostRuntime) -> Result<(), Fail> {
    expect(&rt, rt.alloc(), NEXT_PAIRS, next_told)
}

/// The lamp of side b is switched on.
#[test]
fn tells_the_pair_state(rt: HostRuntime) -> Result<(), Fail> {
    let system = system(rt.alloc(), LAMP, TURN, "2*0", "0-1:0")?;
    agree(&rt, pairs_told(rt.alloc(), &system, "1/0/0"), "0 4, 1 4")
}

/// The lamp of side b is on, and that of side a is switched on.
#[test]
fn starts_in_the_pair_state_of_both_starts(rt: HostRuntime) -> Result<(), Fail> {
    let system = system(rt.alloc(), EITHER, EITHER_TURN, "0 0@1", "0-1:0")?;
    agree(&rt, pairs_told(rt.alloc(), &system, "0/0/0"), "1 4, 3 4")
}
