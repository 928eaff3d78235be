ghost use Rattle.std.specs.Prelude.{◌≡◌, length, IfOk};
ghost use Rattle.waitfor_check.specs.inside.Walk.{HasRoom};

use crate::numbers::Numbers;
use interconnection::Shape;
use std::alloc::{AllocError, Global};

/// Room for walks over the steps of one star: for each leaf the states that it may reach, and the star state that is
/// tried.
#[derive(Debug, Drop)]
pub(crate) struct Room {
    pub(crate) lists: Vec<Numbers>,
    pub(crate) target: Vec<u64>,
}

impl Room {
    /// Room for the leaves of this shape.
    pub(crate) fn new(alloc: Global, shape: &Shape) -> Result<Room, AllocError>
        ensures { IfOk result (HasRoom (length shape.now.leaves)) }
    {
        let leaves = shape.leaves.len();
        let lists = empty_lists(alloc, leaves)?;
        let target = vec![in alloc; 0; leaves]?;
        Ok(Room { lists, target })
    }
}

/// So many empty lists.
pub(crate) fn empty_lists(alloc: Global, count: usize) -> Result<Vec<Numbers>, AllocError>
    ensures { IfOk result (λ lists. length lists.items ≡ count) }
{
    let mut lists = Vec::with_capacity(alloc, count)?;
    for _number in 0..count {
        lists.push(Numbers::new(alloc))?;
    }
    Ok(lists)
}
