ghost use Rattle.std.specs.Prelude.{◌≡◌, ◌<◌, ◌↔◌, ℕ, Contains, IfOk, IsTrue, length, replicate};
ghost use Rattle.deletion_rules.specs.inside.Cursors.{EachIs, HasPassed};

use pair_structure::Memory;
use std::alloc::Global;

/// Whether the flags of all items are so. The cursor goes on to the first item of which it is not, so that over all calls each item is passed
/// once, as long as flags that are so stay so.
pub(crate) fn is_through(items: &[u64], flags: &[bool], value: bool, cursor: &mut usize) -> bool
    requires items { (x : ℕ) → Contains items.now x → x < length flags.now }
    requires before { HasPassed items.now flags.now value cursor.old }
    ensures through { IsTrue result ↔ EachIs flags.now value items.now }
    ensures after { HasPassed items.now flags.now value cursor.new }
{
    while *cursor < items.len() && flags[items[*cursor] as usize] == value {
        *cursor += 1;
    }
    *cursor == items.len()
}

/// So many flags.
pub(crate) fn flags(alloc: Global, count: usize, value: bool) -> Result<Vec<bool>, Memory>
    ensures { IfOk result (λ flags. flags.items ≡ replicate count value) }
{
    Ok(vec![in alloc; value; count]?)
}

/// So many cursors, all of them at the first item of their list.
pub(crate) fn cursors(alloc: Global, count: usize) -> Result<Vec<usize>, Memory>
    ensures { IfOk result (λ cursors. cursors.items ≡ replicate count 0) }
{
    Ok(vec![in alloc; 0usize; count]?)
}
