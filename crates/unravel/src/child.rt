ghost use Rattle.std.specs.Prelude.{◌≡◌, ◌<◌, ℕ, None, IfSome, length, slice_index};
ghost use Rattle.tableau_graph.specs.Graph.{graph_of};
ghost use Rattle.tableau_graph.specs.TableauParts.{edges_at};
ghost use Rattle.deletion_rules.specs.Deletion.{LivesOr};
ghost use Rattle.deletion_rules.specs.inside.Picking.{IsBest};
ghost use Rattle.deletion_rules.specs.Pruned.{lives_at, rank_at};
ghost use Rattle.unravel.specs.inside.Choice.{best_from, better, is_lower};

use crate::tableau::tableau_of;
use deletion_rules::Ranks;

/// The living child of the OR node at which the until has the lowest rank. Linear in the children.
pub(crate) fn best_child(ranks: &Ranks, or: u64, member: u32) -> u64
    requires or { or < length ranks.now.tableau.ors }
    requires living { LivesOr (graph_of ranks.now.tableau) (lives_at ranks.now) or }
    ensures { IsBest (lives_at ranks.now) (λ n. rank_at ranks.now n member) (edges_at ranks.now.tableau.children or) result }
{
    match best_of(ranks, children(ranks, or), member) {
        Some(best) => best,
        None => unreachable!(),
    }
}

/// The children of an OR node.
pub(crate) fn children(ranks: &Ranks, or: u64) -> &[u64]
    requires { or < length ranks.now.tableau.ors }
    ensures same { result.now ≡ edges_at ranks.now.tableau.children or }
    ensures within { (k : ℕ) → k < length result.now → slice_index result.now k < length ranks.now.tableau.ands }
{
    tableau_of(ranks).children(or)
}

fn best_of(ranks: &Ranks, nodes: &[u64], member: u32) -> Option<u64>
    requires { (k : ℕ) → k < length nodes.now → slice_index nodes.now k < length ranks.now.tableau.ands }
    ensures { result ≡ best_from (lives_at ranks.now) (λ n. rank_at ranks.now n member) None nodes.now }
{
    let mut best = None;
    for node in nodes {
        best = better(ranks, best, *node, member);
    }
    best
}

fn better(ranks: &Ranks, best: Option<u64>, node: u64, member: u32) -> Option<u64>
    requires node { node < length ranks.now.tableau.ands }
    requires best { IfSome best (λ b. b < length ranks.now.tableau.ands) }
    ensures better { result ≡ better (lives_at ranks.now) (λ n. rank_at ranks.now n member) best node }
    ensures node { IfSome result (λ b. b < length ranks.now.tableau.ands) }
{
    let Some(so_far) = best else {
        return if ranks.lives_and(node) {
            Some(node)
        } else {
            None
        };
    };
    if ranks.lives_and(node) && is_lower(ranks.rank(node, member), ranks.rank(so_far, member)) {
        return Some(node);
    }
    best
}

fn is_lower(x: Option<u64>, y: Option<u64>) -> bool
    ensures { result ≡ is_lower x y }
{
    let Some(j) = x else {
        return false;
    };
    match y {
        Some(k) => j < k,
        None => true,
    }
}
