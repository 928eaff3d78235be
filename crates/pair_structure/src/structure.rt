ghost use Rattle.std.specs.Prelude.{◌≡◌, ◌≢◌, ◌↔◌, ◌<◌, ◌≤◌, ℕ, filter, length, IsTrue, IfOk, IfErr, MatchOption};
ghost use Rattle.pair_structure.specs.Ordinal.{ordinal_of, IsStateAt, leaves};
ghost use Rattle.pair_structure.specs.Structure.{Structure, GoesOn, IsPairStructure, IsOver, IsRising, start_count};
ghost use Rattle.pair_structure.specs.StructureFault.{IsFirstStructureFault};

use crate::label_index::LabelIndex;
use crate::moves_of::moves_of;
use crate::structure_check::{fault_of, is_structure};
use crate::{Memory, Move, Role, Side, StructureFault};
use std::alloc::Global;
use std::marker::Model;

/// A pair structure: states that are labelled with a local state of each of two roles, and moves between them.
#[derive(Debug, Drop)]
pub struct PairStructure {
    states: LabelIndex,
    moves: Vec<Move>,
}

impl Model for PairStructure {
    ghost use Rattle.pair_structure.specs.Structure.{Structure, GoesOn, IsRising};

    ghost Value = { Structure };

    ghost view = { λ m. record { states = m.states; moves = m.moves.items } };

    ghost invariant = { λ m. GoesOn (record { states = m.states; moves = m.moves.items }) × IsRising m.moves.items };
}

impl PairStructure {
    /// The structure with these states and moves over the two roles, or the first fault that stands against them. Linear in states and moves.
    #[tactic(auto, using(crate::proofs::StructureFaultLaws::none_against))]
    pub fn make(
        alloc: Global,
        a: &Role,
        b: &Role,
        states: &[(u8, u8)],
        moves: &[Move],
    ) -> Result<PairStructure, StructureFault>
        ensures structure { IfOk result (λ m. m ≡ record { states = states.now; moves = moves.now }) }
        ensures lawful { IfOk result (λ m. IsPairStructure a.now b.now states.now moves.now) }
        ensures fault { IfErr result (λ fault. fault ≢ StructureFault.Memory → IsFirstStructureFault a.now b.now states.now moves.now fault) }
        ensures refused { IfErr result (λ fault. fault ≢ StructureFault.Memory → IsPairStructure a.now b.now states.now moves.now → ⊥) }
    {
        if let Some(fault) = fault_of(a, b, states, moves) {
            return Err(fault);
        }
        match PairStructure::of(alloc, states, moves) {
            Ok(m) => Ok(m),
            Err(Memory) => Err(StructureFault::Memory),
        }
    }

    /// The structure with these states and moves, with no word of roles. Linear in states and moves.
    pub fn of(alloc: Global, states: &[(u8, u8)], moves: &[Move]) -> Result<PairStructure, Memory>
        requires goes_on { GoesOn (record { states = states.now; moves = moves.now }) }
        requires rising { IsRising moves.now }
        ensures { IfOk result (λ m. m ≡ record { states = states.now; moves = moves.now }) }
    {
        Ok(PairStructure {
            states: LabelIndex::of(alloc, states)?,
            moves: Vec::from_slice(alloc, moves)?,
        })
    }

    /// The label of each state: a local state of side a, and one of side b.
    pub fn states(&self) -> &[(u8, u8)]
        ensures states { result.now ≡ self.now.states }
        ensures goes_on { GoesOn self.now }
    {
        self.states.labels()
    }

    /// The moves, rising.
    pub fn moves(&self) -> &[Move]
        ensures moves { result.now ≡ self.now.moves }
        ensures rising { IsRising self.now.moves }
    {
        &self.moves
    }

    /// The moves of one side from a state. Logarithmic in moves.
    pub fn moves_of(&self, state: u64, side: Side) -> &[Move]
        requires { state < length self.now.states }
        ensures { result.now ≡ filter (leaves state side) self.now.moves }
    {
        moves_of(&self.moves, state, side)
    }

    /// How many states with the label of this one have a lower number.
    pub fn ordinal(&self, state: u64) -> u64
        requires { state < length self.now.states }
        ensures { result ≡ ordinal_of self.now.states state }
    {
        self.states.ordinal(state)
    }

    /// The state with this label and this ordinal, if there is one.
    pub fn state_at(&self, a: u8, b: u8, x: u64) -> Option<u64>
        ensures { MatchOption result ((s : ℕ) → IsStateAt self.now.states (a, b) x s → ⊥) (IsStateAt self.now.states (a, b) x) }
    {
        self.states.state_at(a, b, x)
    }

    /// Whether this is a structure over the two roles. Linear in states and moves.
    pub fn is_over(&self, a: &Role, b: &Role) -> bool
        ensures { IsTrue result ↔ IsOver a.now b.now self.now }
    {
        is_structure(a, b, self.states(), self.moves())
    }

    /// How many start states there are over the two roles: one for each start of a with each of b. They come first.
    #[tactic(auto, using(crate::proofs::StartRows::starts_within))]
    pub fn start_count(&self, a: &Role, b: &Role) -> u64
        requires { IsOver a.now b.now self.now }
        ensures count { result ≡ start_count a.now b.now }
        ensures some { 0 < result }
        ensures within { result ≤ length self.now.states }
    {
        // There are as many states at least, and so the product fits.
        let _count = self.states().len();
        a.starts().len() as u64 * b.starts().len() as u64
    }

    /// An equal structure.
    pub fn copy(&self, alloc: Global) -> Result<PairStructure, Memory>
        ensures { IfOk result (λ m. m ≡ self.now) }
    {
        PairStructure::of(alloc, self.states(), self.moves())
    }
}
