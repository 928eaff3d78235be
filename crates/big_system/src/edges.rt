//! The edges of the pairs, whose kinds are drawn.
ghost use Rattle.std.specs.Prelude.{◌≡◌, length, IfOk};
ghost use Rattle.big_system.specs.Systems.{edge_by, edges_of};

use firing_crew::{first_state, next_word};
use interconnection::Edge;
use std::alloc::{AllocError, Global};

/// An edge for each pair. A word is drawn for each, as for caller 0.
pub(crate) fn edges_of(
    alloc: Global,
    seed: u64,
    pairs: &[(u32, u32)],
) -> Result<Vec<Edge>, AllocError>
    ensures edges { IfOk result (λ edges. edges.items ≡ edges_of seed pairs.now) }
    ensures count { IfOk result (λ edges. length edges.items ≡ length pairs.now) }
{
    let mut edges = Vec::with_capacity(alloc, pairs.len())?;
    let mut word = first_state(seed, 0);
    for pair in pairs {
        word = next_word(word);
        edges.push(edge_by(word, *pair))?;
    }
    Ok(edges)
}

/// The edge of the kind that the word says.
fn edge_by(word: u64, pair: (u32, u32)) -> Edge
    ensures { result ≡ edge_by word pair }
{
    Edge {
        a: pair.0,
        b: pair.1,
        kind: (word % 2) as u8,
    }
}
