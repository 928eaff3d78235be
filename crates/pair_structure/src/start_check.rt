ghost use Rattle.std.specs.Prelude.{◌≡◌, ◌↔◌, ◌<◌, ℕ, IsTrue, MatchOption, drop, length};
ghost use Rattle.pair_structure.specs.inside.StartRow.{IsRow};
ghost use Rattle.pair_structure.specs.Structure.{HaveStarts};

use crate::Role;

/// Whether the start states come first. Linear in the start states.
pub(crate) fn have_starts(a: &Role, b: &Role, states: &[(u8, u8)]) -> bool
    ensures { IsTrue result ↔ HaveStarts a.now b.now states.now }
{
    let starts = b.starts();
    let mut rest = states;
    for start in a.starts() {
        match after_row(*start, starts, rest) {
            Some(after) => rest = after,
            None => return false,
        }
    }
    true
}

/// The states after those with this start of side a and each of side b, if the states begin with them.
#[tactic(auto, using(crate::proofs::StartRows::row_within))]
fn after_row<'a>(a: u8, b: &[u8], states: &'a [(u8, u8)]) -> Option<&'a [(u8, u8)]>
    ensures { MatchOption result (IsRow a b.now states.now → ⊥) (λ rest. IsRow a b.now states.now × (rest.now ≡ drop (length b.now) states.now)) }
{
    if begins_row(a, b, states) {
        Some(&states[b.len()..])
    } else {
        None
    }
}

fn begins_row(a: u8, b: &[u8], states: &[(u8, u8)]) -> bool
    ensures { IsTrue result ↔ IsRow a b.now states.now }
{
    for (j, start) in b.iter().enumerate() {
        if states.get(j) != Some(&(a, *start)) {
            return false;
        }
    }
    true
}
