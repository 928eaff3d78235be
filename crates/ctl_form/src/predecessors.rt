ghost use Rattle.std.specs.Prelude.{◌≡◌, ◌<◌, ◌++◌, ◌∷◌, [], ℕ, length, IfOk, OnOk, slice_index};
ghost use Rattle.pair_structure.specs.StructureFault.{move_at};
ghost use Rattle.ctl_form.specs.inside.Predecessors.{EndsAt, AreLinked, AddsSources};
ghost use Rattle.ctl_form.specs.Predecessors.{ArePredecessors};

use pair_structure::{Memory, Move, PairStructure};
use std::alloc::Global;

/// The states from which a move leads to each state, in one flat list: those of state t stand from `begins[t]` up to `begins[t + 1]`.
#[derive(Debug, Drop)]
pub struct Predecessors {
    pub begins: Vec<usize>,
    pub sources: Vec<u64>,
}

/// `ends` has for each state how many moves stand up to the last that leads to it; `before` has for each move the same of the moves before
/// it that lead to the same state.
#[derive(Drop)]
struct Links {
    ends: Vec<usize>,
    before: Vec<usize>,
}

impl Predecessors {
    /// Linear in states and moves.
    pub fn of(alloc: Global, m: &PairStructure) -> Result<Predecessors, Memory>
        ensures { IfOk result (λ p. ArePredecessors m.now p.begins.items p.sources.items) }
    {
        let states = m.states().len();
        let moves = m.moves();
        let links = linked(alloc, states, moves)?;
        let mut made = Predecessors::none(alloc, states + 1, moves.len())?;
        for state in 0..states {
            made.push_state(moves, &links, state)?;
        }
        Ok(made)
    }

    /// The part of no state yet, with room for so many of each.
    fn none(alloc: Global, begins: usize, sources: usize) -> Result<Predecessors, Memory>
        ensures { IfOk result (λ p. (p.begins.items ≡ 0 ∷ []) × (p.sources.items ≡ [])) }
    {
        let mut begins = Vec::with_capacity(alloc, begins)?;
        begins.push(0usize)?;
        let sources = Vec::with_capacity(alloc, sources)?;
        Ok(Predecessors { begins, sources })
    }

    /// The part of one more state.
    fn push_state(&mut self, moves: &[Move], links: &Links, state: usize) -> Result<(), Memory>
        requires state { state < length links.now.ends.items }
        requires long { length links.now.before.items ≡ length moves.now }
        requires linked { (j : ℕ) → j < length moves.now → EndsAt moves.now (move_at moves.now j).to (slice_index links.now.before.items j) j }
        requires ends { EndsAt moves.now state (slice_index links.now.ends.items state) (length moves.now) }
        ensures sources { OnOk result (AddsSources moves.now state 0 self.old.sources.items self.new.sources.items) }
        ensures begins { OnOk result (self.new.begins.items ≡ self.old.begins.items ++ length self.new.sources.items ∷ []) }
    {
        let end = links.ends[state];
        push_sources(moves, &links.before, state as u64, end, &mut self.sources)?;
        self.begins.push(self.sources.len())?;
        Ok(())
    }
}

fn linked(alloc: Global, states: usize, moves: &[Move]) -> Result<Links, Memory>
    requires { (j : ℕ) → j < length moves.now → (move_at moves.now j).to < states }
    ensures { IfOk result (λ links. AreLinked states moves.now (length moves.now) links.ends.items links.before.items) }
{
    let mut ends = vec![in alloc; 0usize; states]?;
    let mut before = Vec::with_capacity(alloc, moves.len())?;
    for place in 0..moves.len() {
        let to = moves[place].to as usize;
        before.push(ends[to])?;
        ends[to] = place + 1;
    }
    Ok(Links { ends, before })
}

/// Adds the state that each move to `to` leaves, the last of the moves first.
fn push_sources(
    moves: &[Move],
    before: &[usize],
    to: u64,
    end: usize,
    sources: &mut Vec<u64>,
) -> Result<(), Memory>
    requires long { length before.now ≡ length moves.now }
    requires linked { (j : ℕ) → j < length moves.now → EndsAt moves.now (move_at moves.now j).to (slice_index before.now j) j }
    requires ends { EndsAt moves.now to end (length moves.now) }
    ensures { OnOk result (AddsSources moves.now to 0 sources.old.items sources.new.items) }
{
    let mut end = end;
    while end > 0 {
        let place = end - 1;
        sources.push(moves[place].from)?;
        end = before[place];
    }
    Ok(())
}
