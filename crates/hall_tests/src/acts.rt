//! What passes do, spelled: `0 fire 1/0/5` for one try, `0 keep 1/0/5` for three, `0 look 1`, `0 pair 0`, parted by commas.
ghost use Rattle.std.specs.Prelude.{All, IfOk};
ghost use Rattle.firing_hall.specs.Passes.{IsPassOf};

use crate::halls::wish;
use conjunctive_compose::Wish;
use firing_hall::{Hall, Pass};
use samples::{cut, number};
use std::alloc::Global;
use std::test::Fail;

/// What the caller is told of its wish.
fn fire(alloc: Global, hall: &Hall, pass: &mut Pass, wish: Wish, tries: u32) -> Result<String, Fail>
    requires { IsPassOf hall.now pass.old }
    ensures { IsPassOf hall.now pass.new }
{
    if tries == 0 || !hall.system().fits(wish) {
        return Err(Fail::from("a wish that fits"));
    }
    let reply = hall.fire(pass, wish, tries);
    Ok(format!(in alloc; "{reply:?}")?)
}

fn try_fire(alloc: Global, hall: &Hall, pass: &mut Pass, wish: Wish) -> Result<String, Fail>
    requires { IsPassOf hall.now pass.old }
    ensures { IsPassOf hall.now pass.new }
{
    if !hall.system().fits(wish) {
        return Err(Fail::from("a wish that fits"));
    }
    let reply = hall.try_fire(pass, wish);
    Ok(format!(in alloc; "{reply:?}")?)
}

fn look(alloc: Global, hall: &Hall, pass: &mut Pass, process: u32) -> Result<String, Fail>
    requires { IsPassOf hall.now pass.old }
    ensures { IsPassOf hall.now pass.new }
{
    if process as usize >= hall.system().network().processes().len() {
        return Err(Fail::from("a process"));
    }
    let looked = hall.look(pass, process);
    Ok(format!(in alloc; "{looked:?}")?)
}

fn look_pair(alloc: Global, hall: &Hall, pass: &mut Pass, edge: u32) -> Result<String, Fail>
    requires { IsPassOf hall.now pass.old }
    ensures { IsPassOf hall.now pass.new }
{
    if edge as usize >= hall.system().network().edges().len() {
        return Err(Fail::from("an edge"));
    }
    let looked = hall.look_pair(pass, edge);
    Ok(format!(in alloc; "{looked:?}")?)
}

fn act(alloc: Global, hall: &Hall, pass: &mut Pass, spelled: &str) -> Result<String, Fail>
    requires { IsPassOf hall.now pass.old }
    ensures { IsPassOf hall.now pass.new }
{
    let (verb, rest) = cut(spelled, " ");
    match verb {
        "fire" => try_fire(alloc, hall, pass, wish(rest)),
        "keep" => fire(alloc, hall, pass, wish(rest), 3),
        "look" => look(alloc, hall, pass, number(rest)),
        "pair" => look_pair(alloc, hall, pass, number(rest)),
        _ => Err(Fail::from("an act")),
    }
}

fn act_by(
    alloc: Global,
    hall: &Hall,
    passes: &mut [Pass],
    caller: u32,
    spelled: &str,
) -> Result<String, Fail>
    requires { All (IsPassOf hall.now) passes.old }
    ensures { All (IsPassOf hall.now) passes.new }
{
    let at = caller as usize;
    if at >= passes.len() {
        return Err(Fail::from("a pass"));
    }
    act(alloc, hall, &mut passes[at], spelled)
}

/// What the callers are told, one after another.
fn told(alloc: Global, hall: &Hall, passes: &mut [Pass], acts: &str) -> Result<String, Fail>
    requires { All (IsPassOf hall.now) passes.old }
    ensures { All (IsPassOf hall.now) passes.new }
{
    let mut text = String::new(alloc);
    for spelled in acts.split_terminator(',') {
        let (caller, spelled) = cut(spelled.trim(), " ");
        let answer = act_by(alloc, hall, passes, number(caller), spelled)?;
        text.push_str(format!(in alloc; "{answer}, ")?.as_str())?;
    }
    Ok(text)
}

/// The same, with the passes.
pub(crate) fn play(
    alloc: Global,
    hall: &Hall,
    mut passes: Vec<Pass>,
    acts: &str,
) -> Result<(String, Vec<Pass>), Fail>
    requires { All (IsPassOf hall.now) passes.items }
    ensures { IfOk result (λ r. All (IsPassOf hall.now) r.1.items) }
{
    let text = told(alloc, hall, passes.as_mut_slice(), acts)?;
    Ok((text, passes))
}
