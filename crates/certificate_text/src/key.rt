ghost use Rattle.std.specs.Prelude.{◌≡◌, ◌++◌, IfOk, OnOk, map};
ghost use Rattle.interconnection.specs.Shape.{rank};
ghost use Rattle.waitfor_check.specs.inside.ShapeKeys.{key_of};

use interconnection::Shape;
use pair_structure::Side;
use std::alloc::{AllocError, Global};

/// The role, and the places of the leaves in the order of labels.
pub(crate) fn key_of(alloc: Global, shape: &Shape) -> Result<Vec<u64>, AllocError>
    ensures { IfOk result (λ key. key.items ≡ key_of shape.now) }
{
    let mut key = Vec::with_capacity(alloc, shape.leaves.len() + 1)?;
    key.push(shape.role as u64)?;
    push_ranks(&shape.leaves, &mut key)?;
    Ok(key)
}

fn push_ranks(leaves: &[(u8, Side)], key: &mut Vec<u64>) -> Result<(), AllocError>
    ensures { OnOk result (key.new.items ≡ key.old.items ++ map rank leaves.now) }
{
    for leaf in leaves {
        key.push(rank(*leaf))?;
    }
    Ok(())
}

/// The place of a label in the order of labels.
pub(crate) fn rank(label: (u8, Side)) -> u64
    ensures { result ≡ rank label }
{
    let side = match label.1 {
        Side::A => 0,
        Side::B => 1,
    };
    2 * (label.0 as u64) + side
}
