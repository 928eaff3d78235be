//! Which processes are joined: a grid of a square number of them, else a ring.
ghost use Rattle.std.specs.Prelude.{◌≡◌, ◌<◌, ◌≤◌, ◌+◌, ◌*◌, ◌++◌, ℕ, length, IfOk, MatchOption, OnOk};
ghost use Rattle.interconnection.specs.declared.limits.TheConstants.{MAX_PROCESSES};
ghost use Rattle.big_system.specs.Graphs.{ArePairs, IsWidth, grid_pairs, pair_along, pair_down, pairs_of_cell, ring_pairs};
ghost use Rattle.big_system.specs.declared.limits.TheConstants.{MIN_PROCESSES};

use std::alloc::{AllocError, Global};

/// The pairs that are joined, the lower number first. Linear in the processes.
pub(crate) fn pairs_of(alloc: Global, count: u32) -> Result<Vec<(u32, u32)>, AllocError>
    requires enough { MIN_PROCESSES ≤ count }
    requires few { count ≤ MAX_PROCESSES }
    ensures pairs { IfOk result (λ pairs. ArePairs count pairs.items) }
    ensures few { IfOk result (λ pairs. length pairs.items ≤ 2 * count) }
{
    match width_of(count) {
        Some(width) => {
            let pairs = grid_pairs(alloc, width, count)?;
            Ok(pairs)
        }
        None => ring_pairs(alloc, count),
    }
}

/// The width of the square that so many cells form, if they do.
fn width_of(count: u32) -> Option<u32>
    requires enough { MIN_PROCESSES ≤ count }
    requires few { count ≤ MAX_PROCESSES }
    ensures width { MatchOption result ((width : ℕ) → IsWidth count width → ⊥) (IsWidth count) }
{
    for width in 0..count {
        if width * width == count {
            return Some(width);
        }
    }
    None
}

/// The pairs of a grid.
fn grid_pairs(alloc: Global, width: u32, count: u32) -> Result<Vec<(u32, u32)>, AllocError>
    requires enough { MIN_PROCESSES ≤ count }
    requires few { count ≤ MAX_PROCESSES }
    requires width { IsWidth count width }
    ensures pairs { IfOk result (λ pairs. pairs.items ≡ grid_pairs width count) }
    ensures few { IfOk result (λ pairs. length pairs.items ≤ 2 * count) }
{
    let mut pairs = Vec::with_capacity(alloc, 2 * count as usize)?;
    for cell in 0..count {
        push_cell(width, count, cell, &mut pairs)?;
    }
    Ok(pairs)
}

/// Appends the pairs of a cell: with the one after it in its row, then with the one below it.
fn push_cell(
    width: u32,
    count: u32,
    cell: u32,
    pairs: &mut Vec<(u32, u32)>,
) -> Result<(), AllocError>
    requires some { 0 < width }
    requires narrow { width ≤ count }
    requires few { count ≤ MAX_PROCESSES }
    requires within { cell < count }
    ensures pairs { OnOk result (pairs.new.items ≡ pairs.old.items ++ pairs_of_cell width count cell) }
    ensures few { OnOk result (length pairs.new.items ≤ length pairs.old.items + 2) }
{
    push_along(width, cell, pairs)?;
    push_down(width, count, cell, pairs)?;
    Ok(())
}

fn push_along(width: u32, cell: u32, pairs: &mut Vec<(u32, u32)>) -> Result<(), AllocError>
    requires some { 0 < width }
    requires within { cell < MAX_PROCESSES }
    ensures pairs { OnOk result (pairs.new.items ≡ pairs.old.items ++ pair_along width cell) }
    ensures few { OnOk result (length pairs.new.items ≤ length pairs.old.items + 1) }
{
    if cell % width + 1 < width {
        pairs.push((cell, cell + 1))?;
    }
    Ok(())
}

fn push_down(
    width: u32,
    count: u32,
    cell: u32,
    pairs: &mut Vec<(u32, u32)>,
) -> Result<(), AllocError>
    requires narrow { width ≤ count }
    requires few { count ≤ MAX_PROCESSES }
    requires within { cell < count }
    ensures pairs { OnOk result (pairs.new.items ≡ pairs.old.items ++ pair_down width count cell) }
    ensures few { OnOk result (length pairs.new.items ≤ length pairs.old.items + 1) }
{
    if cell + width < count {
        pairs.push((cell, cell + width))?;
    }
    Ok(())
}

/// The pairs of a ring.
fn ring_pairs(alloc: Global, count: u32) -> Result<Vec<(u32, u32)>, AllocError>
    requires enough { MIN_PROCESSES ≤ count }
    requires few { count ≤ MAX_PROCESSES }
    ensures pairs { IfOk result (λ pairs. pairs.items ≡ ring_pairs count) }
    ensures few { IfOk result (λ pairs. length pairs.items ≤ 2 * count) }
{
    let mut pairs = Vec::with_capacity(alloc, count as usize)?;
    for k in 0..count - 1 {
        pairs.push((k, k + 1))?;
    }
    pairs.push((0, count - 1))?;
    Ok(pairs)
}
