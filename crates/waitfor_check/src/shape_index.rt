ghost use Rattle.std.specs.Prelude.{◌≡◌, ◌<◌, ◌↔◌, ◌++◌, length, map, Contains, IfOk, IsTrue, OnOk};
ghost use Rattle.interconnection.specs.Graph.{degree_of};
ghost use Rattle.interconnection.specs.Shape.{IsFirstShape, IsShapeOf, rank};
ghost use Rattle.waitfor_check.specs.inside.ShapeKeys.{HasAllKeys, IsIndex, IsReached, key_of, star_key};
ghost use Rattle.waitfor_check.specs.inside.Walk.{AreSorted};

use crate::numbers::{Numbers, compare_numbers, has_numbers};
use crate::star::Star;
use interconnection::{Network, Shape};
use pair_structure::{Memory, Side};
use std::alloc::{AllocError, Global};

/// The keys of all stars' shapes, sorted. Stars times their logarithm.
pub(crate) fn index_of(alloc: Global, stars: &[Star]) -> Result<Vec<Numbers>, Memory>
    ensures { IfOk result (λ keys. IsIndex stars.now keys.items) }
{
    let mut keys = keys_of(alloc, stars)?;
    keys.sort_unstable_by(|a, b| compare_numbers(a, b));
    Ok(keys)
}

fn keys_of(alloc: Global, stars: &[Star]) -> Result<Vec<Numbers>, AllocError>
    ensures { IfOk result (λ keys. keys.items ≡ map star_key stars.now) }
{
    let mut keys = Vec::with_capacity(alloc, stars.len())?;
    for star in stars {
        keys.push(key_of(alloc, &star.shape)?)?;
    }
    Ok(keys)
}

fn key_of(alloc: Global, shape: &Shape) -> Result<Numbers, AllocError>
    ensures { IfOk result (λ key. key ≡ key_of shape.now) }
{
    let mut key = Numbers::new(alloc);
    key.push(shape.role as u64)?;
    push_ranks(&shape.leaves, &mut key)?;
    Ok(key)
}

fn push_ranks(leaves: &[(u8, Side)], key: &mut Numbers) -> Result<(), AllocError>
    ensures { OnOk result (key.new ≡ key.old ++ map rank leaves.now) }
{
    for leaf in leaves {
        key.push(rank(*leaf))?;
    }
    Ok(())
}

pub(crate) fn rank(label: (u8, Side)) -> u64
    ensures { result ≡ rank label }
{
    let side = match label.1 {
        Side::A => 0,
        Side::B => 1,
    };
    2 * (label.0 as u64) + side
}

/// Whether each shape of the process has its key among these. One binary search for each shape up to the first that has
/// none.
pub(crate) fn has_all_keys(
    alloc: Global,
    network: &Network,
    keys: &[Numbers],
    k: u32,
) -> Result<bool, Memory>
    requires process { k < length network.now.processes }
    requires keys { AreSorted keys.now }
    ensures { IfOk result (λ all. IsTrue all ↔ (0 < degree_of network.now.edges k → HasAllKeys network.now k keys.now)) }
{
    let Some(first) = network.first_shape(alloc, k)? else {
        return Ok(true);
    };
    let all = walk_shapes(alloc, network, keys, k, first)?;
    Ok(all)
}

fn walk_shapes(
    alloc: Global,
    network: &Network,
    keys: &[Numbers],
    k: u32,
    first: Shape,
) -> Result<bool, Memory>
    requires process { k < length network.now.processes }
    requires keys { AreSorted keys.now }
    requires first { IsFirstShape network.now k first }
    ensures { IfOk result (λ all. IsTrue all ↔ HasAllKeys network.now k keys.now) }
{
    let mut shape = first;
    for _ in 0..keys.len() {
        let key = key_of(alloc, &shape)?;
        if !has_numbers(keys, key.as_slice()) {
            return Ok(false);
        }
        if !network.next_shape(k, &mut shape) {
            return Ok(true);
        }
    }
    Ok(false)
}
