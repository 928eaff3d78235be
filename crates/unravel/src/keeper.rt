ghost use Rattle.std.specs.Prelude.{◌≡◌, ◌<◌, cond, false, length};
ghost use Rattle.ctl_form.specs.declared.limits.TheConstants.{MAX_MEMBERS};
ghost use Rattle.pair_structure.specs.declared.side.Side.TheVariants.{A, B};
ghost use Rattle.closure_sets.specs.ClosureParts.{after, count};
ghost use Rattle.ctl_form.specs.declared.part.Part.TheVariants.{Until};
ghost use Rattle.closure_sets.specs.Label.{part_of};
ghost use Rattle.deletion_rules.specs.inside.Picking.{or_zero};
ghost use Rattle.deletion_rules.specs.Pruned.{rank_at};
ghost use Rattle.tableau_graph.specs.Graph.{graph_of};
ghost use Rattle.unravel.specs.inside.Choice.{falls_by, has_lower, is_below, is_lower_at, keep_of};
ghost use Rattle.deletion_rules.specs.Targets.{IsTarget};

use crate::child::children;
use crate::tableau::tableau_of;
use deletion_rules::{Ranks, Target};
use pair_structure::Side;

/// The OR node through which the node pursues a target E[f U g]: that of side a, if the rank falls there, and else that of side b.
pub(crate) fn kept_or(ranks: &Ranks, and: u64, target: Target) -> u64
    requires and { and < length ranks.now.tableau.ands }
    requires target { IsTarget ranks.now.tableau.closure target }
    requires some { target.all ≡ false }
    ensures { result ≡ (graph_of ranks.now.tableau).next_or and (keep_of ranks.now and target.member) }
{
    let side = kept_side(ranks, and, target);
    let keep = next_time(ranks, side, target);
    tableau_of(ranks).next_or(and, keep)
}

fn next_time(ranks: &Ranks, side: Side, target: Target) -> u32
    requires target { IsTarget ranks.now.tableau.closure target }
    ensures same { result ≡ after ranks.now.tableau.closure side target.member }
    ensures member { result < count ranks.now.tableau.closure }
    ensures small { result < MAX_MEMBERS }
{
    let closure = tableau_of(ranks).closure();
    closure.tell_members();
    closure.after(side, target.member)
}

fn kept_side(ranks: &Ranks, and: u64, target: Target) -> Side
    requires and { and < length ranks.now.tableau.ands }
    requires target { IsTarget ranks.now.tableau.closure target }
    requires some { target.all ≡ false }
    ensures { result ≡ cond (falls_by ranks.now and target.member A) A B }
{
    if falls_by(ranks, and, target, Side::A) {
        Side::A
    } else {
        Side::B
    }
}

fn falls_by(ranks: &Ranks, and: u64, target: Target, side: Side) -> bool
    requires and { and < length ranks.now.tableau.ands }
    requires target { IsTarget ranks.now.tableau.closure target }
    requires some { target.all ≡ false }
    ensures { result ≡ falls_by ranks.now and target.member side }
{
    let next = next_time(ranks, side, target);
    if !has_member(ranks, and, next) {
        return false;
    }
    let rank = ranks.rank(and, target.member).unwrap_or(0);
    let or = tableau_of(ranks).next_or(and, next);
    has_lower(ranks, or, target.member, rank)
}

pub(crate) fn has_member(ranks: &Ranks, and: u64, member: u32) -> bool
    requires and { and < length ranks.now.tableau.ands }
    requires member { member < MAX_MEMBERS }
    ensures { result ≡ (graph_of ranks.now.tableau).row and member }
{
    tableau_of(ranks).ands()[and as usize].row.has(member)
}

/// Whether some living child of the OR node has a lower rank.
fn has_lower(ranks: &Ranks, or: u64, member: u32, rank: u64) -> bool
    requires { or < length ranks.now.tableau.ors }
    ensures { result ≡ has_lower ranks.now member rank or }
{
    for child in children(ranks, or) {
        if is_lower_at(ranks, member, rank, *child) {
            return true;
        }
    }
    false
}

fn is_lower_at(ranks: &Ranks, member: u32, rank: u64, and: u64) -> bool
    requires { and < length ranks.now.tableau.ands }
    ensures { result ≡ is_lower_at ranks.now member rank and }
{
    ranks.lives_and(and) && is_below(rank, ranks.rank(and, member))
}

fn is_below(rank: u64, lower: Option<u64>) -> bool
    ensures { result ≡ is_below rank lower }
{
    match lower {
        Some(r) => r < rank,
        None => false,
    }
}
