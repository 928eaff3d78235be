//! Room for what the passes keep, which is made before the words.
ghost use Rattle.std.specs.Prelude.{◌≡◌, All, IfOk, length};
ghost use Rattle.firing_hall.specs.inside.Dealing.{HasRoom};

use firing_journal::Asked;
use pair_structure::Memory;
use std::alloc::Global;

/// A list for each caller: nothing stands in it, and there is room for so many replies.
pub(crate) fn make_lists(alloc: Global, callers: u32, room: u32) -> Result<Vec<Vec<Asked>>, Memory>
    ensures lists { IfOk result (λ lists. All (HasRoom room) lists.items) }
    ensures as_many { IfOk result (λ lists. length lists.items ≡ callers) }
{
    let mut lists = Vec::with_capacity(alloc, callers as usize)?;
    for _ in 0..callers {
        let list = Vec::with_capacity(alloc, room as usize)?;
        lists.push_reserved(list);
    }
    Ok(lists)
}
