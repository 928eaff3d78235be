//! The memory of a report, which is taken before the passes are joined.
ghost use Rattle.std.specs.Prelude.{◌≡◌, ◌⊎◌, ◌≤◌, ◌-◌, ◌^◌, IfOk, length, map};
ghost use Rattle.firing_hall.specs.inside.Taking.{IsBlank, kept_in, total};

use crate::pass::Pass;
use firing_journal::{Asked, Entry};
use pair_structure::Memory;
use std::alloc::Global;

/// The memory of a report: nothing stands in it yet.
#[derive(Drop)]
pub(crate) struct Blank {
    pub(crate) entries: Vec<Entry>,
    pub(crate) lists: Vec<Vec<Asked>>,
}

/// How many replies the passes keep, or the greatest number.
fn count_kept(passes: &[Pass]) -> usize
    ensures { (kept_in passes.now ≤ result) ⊎ (result ≡ 2 ^ 64 - 1) }
{
    let mut count: usize = 0;
    for i in 0..passes.len() {
        count = count.saturating_add(passes[i].asked.len());
    }
    count
}

fn no_lists(alloc: Global, count: usize) -> Result<Vec<Vec<Asked>>, Memory>
    ensures size { IfOk result (λ lists. length lists.items ≡ count) }
    ensures nothing { IfOk result (λ lists. total (map (λ v. v.items) lists.items) ≡ 0) }
{
    let mut lists = Vec::with_capacity(alloc, count)?;
    for _ in 0..count {
        lists.push_reserved(Vec::new(alloc));
    }
    Ok(lists)
}

/// A report with nothing in it, and room for what the passes keep.
pub(crate) fn make_blank(alloc: Global, passes: &[Pass], callers: u32) -> Result<Blank, Memory>
    ensures { IfOk result (IsBlank callers (kept_in passes.now)) }
{
    let lists = no_lists(alloc, callers as usize)?;
    let entries = Vec::with_capacity(alloc, count_kept(passes))?;
    Ok(Blank { entries, lists })
}
