ghost use Rattle.std.specs.Prelude.{◌≡◌, ◌<◌, ◌+◌, ◌++◌, ◌^◌, All, IfOk, OnOk, length, map};
ghost use Rattle.pair_structure.specs.declared.side.Move.{Move};
ghost use Rattle.pair_structure.specs.Structure.{IsOver, start_count};
ghost use Rattle.ctl_form.specs.NormalParts.{NormalParts};
ghost use Rattle.unravel.specs.inside.Joined.{whole_of};
ghost use Rattle.unravel.specs.inside.Joining.{HaveRoots, IsJoined, moved, place_of, start_labels, start_row, with_joined};

use crate::unravelling::made;
use pair_structure::{Memory, Move, PairStructure, Role, arrange};
use std::alloc::{AllocError, Global};

/// Structures that become one: the start states stand first, and each in turn gets the states and moves of a structure that begins there.
#[derive(Drop)]
pub(crate) struct Joining {
    pub(crate) states: Vec<(u8, u8)>,
    pub(crate) moves: Vec<Move>,
    pub(crate) begun: u64,
}

impl Joining {
    /// The start states of the two roles, without moves.
    #[tactic(auto, using(crate::proofs::StartLabels::first_joined))]
    pub(crate) fn new(alloc: Global, a: &Role, b: &Role) -> Result<Joining, Memory>
        ensures joined { IfOk result (λ j. IsJoined a.now b.now 0 (whole_of j)) }
        ensures begun { IfOk result (λ j. j.begun ≡ 0) }
        ensures some { IfOk result (λ _. 0 < start_count a.now b.now) }
    {
        let states = labels_of(alloc, a.starts(), b.starts())?;
        Ok(Joining {
            states,
            moves: Vec::new(alloc),
            begun: 0,
        })
    }

    /// The next start state gets the states and moves of this structure, which begins there.
    pub(crate) fn add(&mut self, m: &PairStructure) -> Result<(), Memory>
        requires room { self.old.begun < length self.old.states.items }
        requires some { 0 < length m.now.states }
        ensures whole { OnOk result (whole_of self.new ≡ with_joined self.old.begun (whole_of self.old) m.now) }
        ensures begun { OnOk result (self.new.begun ≡ self.old.begun + 1) }
    {
        let size = self.states.len() as u64;
        self.states.extend_from_slice(&m.states()[1..])?;
        push_moves(&mut self.moves, self.begun, size, m.moves())?;
        self.begun += 1;
        Ok(())
    }

    /// The structure over the two roles, where each start state had its turn.
    pub(crate) fn made(self, alloc: Global, a: &Role, b: &Role) -> Result<PairStructure, Memory>
        requires some { 0 < start_count a.now b.now }
        requires joined { IsJoined a.now b.now (start_count a.now b.now) (whole_of self) }
        ensures over { IfOk result (IsOver a.now b.now) }
        ensures roots { (n : NormalParts) → HaveRoots n (start_count a.now b.now) (whole_of self) → IfOk result (HaveRoots n (start_count a.now b.now)) }
    {
        let mut moves = self.moves;
        arrange(&mut moves);
        made(alloc, a, b, &self.states, &moves)
    }
}

fn labels_of(alloc: Global, a: &[u8], b: &[u8]) -> Result<Vec<(u8, u8)>, AllocError>
    ensures { IfOk result (λ labels. labels.items ≡ start_labels a.now b.now) }
{
    let mut labels = Vec::new(alloc);
    for start in a {
        push_row(&mut labels, *start, b)?;
    }
    Ok(labels)
}

fn push_row(labels: &mut Vec<(u8, u8)>, a: u8, b: &[u8]) -> Result<(), AllocError>
    ensures { OnOk result (labels.new.items ≡ labels.old.items ++ start_row a b.now) }
{
    for start in b {
        labels.push((a, *start))?;
    }
    Ok(())
}

fn push_moves(
    moves: &mut Vec<Move>,
    begun: u64,
    size: u64,
    steps: &[Move],
) -> Result<(), AllocError>
    requires { All (λ (x : Move). (size + x.from < 2 ^ 64) × (size + x.to < 2 ^ 64)) steps.now }
    ensures { OnOk result (moves.new.items ≡ moves.old.items ++ map (moved begun size) steps.now) }
{
    for step in steps {
        moves.push(moved(begun, size, *step))?;
    }
    Ok(())
}

/// The move between the places of its two states.
fn moved(begun: u64, size: u64, step: Move) -> Move
    requires from { size + step.from < 2 ^ 64 }
    requires to { size + step.to < 2 ^ 64 }
    ensures { result ≡ moved begun size step }
{
    Move {
        from: place_of(begun, size, step.from),
        side: step.side,
        to: place_of(begun, size, step.to),
    }
}

/// Where a state stands of the structure that is joined next.
fn place_of(begun: u64, size: u64, state: u64) -> u64
    requires { size + state < 2 ^ 64 }
    ensures { result ≡ place_of begun size state }
{
    if state == 0 {
        begun
    } else {
        size + (state - 1)
    }
}
