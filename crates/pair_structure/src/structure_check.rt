ghost use Rattle.std.specs.Prelude.{◌≡◌, ◌<◌, ◌↔◌, ℕ, All, IsTrue, List, length, MatchOption};
ghost use Rattle.pair_structure.specs.inside.ArcTable.{IsInTable};
ghost use Rattle.pair_structure.specs.declared.side.Move.{Move};
ghost use Rattle.pair_structure.specs.inside.FirstFailing.{IsFirstFailing};
ghost use Rattle.pair_structure.specs.Structure.{IsPairStructure};
ghost use Rattle.pair_structure.specs.inside.StructureCheck.{AreLabelled, AreMoves, IsLabelBelow};
ghost use Rattle.pair_structure.specs.StructureFault.{IsFirstStructureFault};

use crate::move_check::{
    first_moving_other, first_not_rising, first_off_arcs, first_out_of_range, first_without_move,
};
use crate::start_check::have_starts;
use crate::{LocalArc, Move, Role, StructureFault};

/// The first fault that stands against states and moves over two roles. Linear in states and moves; takes no memory.
#[tactic(auto, using(crate::proofs::StructureFaultLaws::IsPairStructure_from_checks))]
pub(crate) fn fault_of(
    a: &Role,
    b: &Role,
    states: &[(u8, u8)],
    moves: &[Move],
) -> Option<StructureFault>
    ensures { MatchOption result (IsPairStructure a.now b.now states.now moves.now) (IsFirstStructureFault a.now b.now states.now moves.now) }
{
    if let Some(fault) = label_fault(a, b, states) {
        return Some(fault);
    }
    if let Some(fault) = move_fault(a, b, states, moves) {
        return Some(fault);
    }
    match first_without_move(states.len() as u64, moves) {
        Some(state) => Some(StructureFault::NoMove { state }),
        None => None,
    }
}

/// Whether states and moves are a structure over two roles. Linear in states and moves; takes no memory.
#[tactic(auto, using(crate::proofs::StructureFaultLaws::none_against))]
pub(crate) fn is_structure(a: &Role, b: &Role, states: &[(u8, u8)], moves: &[Move]) -> bool
    ensures { IsTrue result ↔ IsPairStructure a.now b.now states.now moves.now }
{
    match fault_of(a, b, states, moves) {
        Some(_fault) => false,
        None => true,
    }
}

fn label_fault(a: &Role, b: &Role, states: &[(u8, u8)]) -> Option<StructureFault>
    ensures { MatchOption result (AreLabelled a.now b.now states.now)
        (λ fault. (moves : List Move) → IsFirstStructureFault a.now b.now states.now moves fault) }
{
    if states.is_empty() {
        return Some(StructureFault::Empty);
    }
    if !have_starts(a, b, states) {
        return Some(StructureFault::Start);
    }
    match first_off_label(a.locals().len(), b.locals().len(), states) {
        Some(state) => Some(StructureFault::LocalRange { state }),
        None => None,
    }
}

fn first_off_label(a: usize, b: usize, states: &[(u8, u8)]) -> Option<u64>
    ensures { IsFirstFailing (IsLabelBelow a b states.now) (length states.now) result }
{
    for (s, label) in states.iter().enumerate() {
        if label.0 as usize >= a || label.1 as usize >= b {
            return Some(s as u64);
        }
    }
    None
}

#[tactic(auto, using(crate::proofs::StructureFaultLaws::falls_at))]
fn move_fault(a: &Role, b: &Role, states: &[(u8, u8)], moves: &[Move]) -> Option<StructureFault>
    requires { AreLabelled a.now b.now states.now }
    ensures { MatchOption result (AreMoves a.now b.now states.now moves.now)
        (IsFirstStructureFault a.now b.now states.now moves.now) }
{
    if let Some(move_no) = first_out_of_range(states.len() as u64, moves) {
        return Some(StructureFault::MoveRange { move_no });
    }
    if let Some(move_no) = first_off_arcs(small_arcs(a), small_arcs(b), states, moves) {
        return Some(StructureFault::NotAnArc { move_no });
    }
    if let Some(move_no) = first_moving_other(states, moves) {
        return Some(StructureFault::OtherSideMoved { move_no });
    }
    match first_not_rising(moves) {
        Some(move_no) => Some(StructureFault::NotRising { move_no }),
        None => None,
    }
}

/// The arcs, with the fact that both ends of each have a row in a table.
fn small_arcs(role: &Role) -> &[LocalArc]
    ensures arcs { result.now ≡ role.now.arcs }
    ensures in_table { All IsInTable role.now.arcs }
{
    // `locals` tells that this is a role; `arcs` does not.
    let _locals = role.locals();
    role.arcs()
}
