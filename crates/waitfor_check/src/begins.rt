ghost use Rattle.std.specs.Prelude.{◌≡◌, ◌<◌, ◌+◌, ◌∷◌, ◌↔◌, [], length, Contains, IfOk, IsTrue, OnOk};
ghost use Rattle.conjunctive_compose.specs.System.{edge_count};
ghost use Rattle.conjunctive_compose.specs.Whole.{IsProper, start_of};
ghost use Rattle.waitfor_check.specs.inside.Begins.{AreBegins, AreBeginsBelow, AreZeros, IsWith};

use crate::numbers::Numbers;
use crate::room::empty_lists;
use conjunctive_compose::{System, Whole};
use pair_structure::Memory;
use std::alloc::{AllocError, Global};

/// For each kind the states in which a pair of it may begin. Edges times the states in which one kind begins, which are
/// as many as pairs of starts of its two roles at most.
pub(crate) fn begins_of(alloc: Global, system: &System) -> Result<Vec<Numbers>, Memory>
    ensures { IfOk result (λ begins. AreBegins system.now begins.items) }
{
    let start = system.start(alloc)?;
    let mut begins = zeros_of(alloc, system)?;
    for e in 0..system.network().edges().len() {
        add_begin(system, &start, e as u32, &mut begins)?;
    }
    Ok(begins)
}

/// State 0 for each kind.
fn zeros_of(alloc: Global, system: &System) -> Result<Vec<Numbers>, AllocError>
    ensures { IfOk result (λ begins. AreBeginsBelow system.now 0 begins.items) }
{
    let mut begins = empty_lists(alloc, system.network().ends().len())?;
    put_zeros(&mut begins)?;
    Ok(begins)
}

fn put_zeros(lists: &mut [Numbers]) -> Result<(), AllocError>
    ensures { OnOk result (AreZeros lists.new) }
{
    for i in 0..lists.len() {
        put_zero(&mut lists[i])?;
    }
    Ok(())
}

fn put_zero(list: &mut Numbers) -> Result<(), AllocError>
    ensures { OnOk result (list.new ≡ 0 ∷ []) }
{
    list.clear();
    list.push(0)?;
    Ok(())
}

/// One edge more.
fn add_begin(
    system: &System,
    start: &Whole,
    edge: u32,
    begins: &mut [Numbers],
) -> Result<(), AllocError>
    requires proper { IsProper system.now start.now }
    requires start { start.now ≡ start_of system.now }
    requires edge { edge < edge_count system.now }
    requires begins { AreBeginsBelow system.now edge begins.old }
    ensures { OnOk result (AreBeginsBelow system.now (edge + 1) begins.new) }
{
    let state = system.pair_state(start, edge);
    let kind = system.network().edges()[edge as usize].kind;
    push_new(state, &mut begins[kind as usize])?;
    Ok(())
}

/// Appends the number where it is not there yet.
fn push_new(number: u64, list: &mut Numbers) -> Result<(), AllocError>
    ensures { OnOk result (IsWith number list.old list.new) }
{
    if !has_number(list.as_slice(), number) {
        list.push(number)?;
    }
    Ok(())
}

fn has_number(numbers: &[u64], number: u64) -> bool
    ensures { IsTrue result ↔ Contains numbers.now number }
{
    for i in 0..numbers.len() {
        if numbers[i] == number {
            return true;
        }
    }
    false
}
