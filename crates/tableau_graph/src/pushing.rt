ghost use Rattle.std.specs.Prelude.{◌≡◌, ◌++◌, OnErr, OnOk};
ghost use Rattle.std.specs.Option.{option_to_list};

use pair_structure::Memory;

/// Puts the item behind the others, if there is one. At want of memory the list stays as it was.
pub fn push_some<T: Drop>(items: &mut Vec<T>, item: Option<T>) -> Result<(), Memory>
    ensures pushed { OnOk result (items.new.items ≡ items.old.items ++ option_to_list item) }
    ensures kept { OnErr result (items.new.items ≡ items.old.items) }
{
    if let Some(item) = item {
        items.push(item)?;
    }
    Ok(())
}
