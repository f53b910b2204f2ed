//! Calls of the map of a volume, put together.

ghost use Rattle.std.specs.Prelude.{◌≡◌, ◌*◌, ◌%◌, ◌^◌, ◌<◌, ◌≤◌, length, OnErr};
ghost use Rattle.jfs_map_rows.specs.Stays.{StaysReserved};

use jfs_bits::{Pxd, PxdList};
use jfs_bmap::{BlockMap, ReserveError};
use std::alloc::{AllocError, Global};

/// The map of a volume of so many blocks in groups of 8,192, of which those in `set` have owners.
pub fn map_of(alloc: Global, set: &[u8], blocks: u32) -> Result<BlockMap, AllocError>
    requires some { 0 < blocks }
    requires most { blocks ≤ 2 ^ 20 }
    requires size { blocks ≤ 8 * length set.now }
    requires words { length set.now % 4 ≡ 0 }
{
    map_in_groups(alloc, set, blocks, 13)
}

/// The map of a volume of so many blocks in groups of `2^l2`, of which those in `set` have owners.
pub fn map_in_groups(
    alloc: Global,
    set: &[u8],
    blocks: u32,
    l2: u32,
) -> Result<BlockMap, AllocError>
    requires some { 0 < blocks }
    requires most { blocks ≤ 2 ^ 20 }
    requires size { blocks ≤ 8 * length set.now }
    requires words { length set.now % 4 ≡ 0 }
    requires least { 13 ≤ l2 }
    requires greatest { l2 < 32 }
{
    BlockMap::from_set(alloc, set, blocks, 1 << l2)
}

/// Reserves blocks and gives them owners.
pub fn take(map: &mut BlockMap, alloc: Global, hint: u32, n: u32) -> Result<PxdList, ReserveError>
    ensures unchanged { OnErr result (map.new ≡ map.old) }
    ensures stays { StaysReserved map.old map.new }
{
    let list = map.reserve(alloc, hint, n)?;
    map.own(&list);
    Ok(list)
}

/// Reserves blocks one by one, and gives them owners.
pub fn take_each(map: &mut BlockMap, alloc: Global, n: u32) -> Result<PxdList, ReserveError> {
    let list = map.reserve_each(alloc, n)?;
    map.own(&list);
    Ok(list)
}

/// Reserves blocks and gives them back.
pub fn try_out(
    map: &mut BlockMap,
    alloc: Global,
    hint: u32,
    n: u32,
) -> Result<PxdList, ReserveError>
    ensures { StaysReserved map.old map.new }
{
    let list = map.reserve(alloc, hint, n)?;
    map.give_back(&list);
    Ok(list)
}

/// Reserves blocks twice, then gives the first ones owners and the others back.
pub fn take_first_of_two(
    map: &mut BlockMap,
    alloc: Global,
    first: u32,
    second: u32,
) -> Result<PxdList, ReserveError> {
    let taken = map.reserve(alloc, 0, first)?;
    match map.reserve(alloc, 0, second) {
        Ok(other) => {
            map.own(&taken);
            map.give_back(&other);
            Ok(taken)
        }
        Err(why) => {
            map.give_back(&taken);
            Err(why)
        }
    }
}

/// Releases the runs of a list for an entry.
pub fn release_all(map: &mut BlockMap, list: &PxdList, entry: u64) -> Result<(), AllocError>
    ensures { StaysReserved map.old map.new }
{
    if let Ok(n) = u32::try_from(list.len()) {
        map.make_room(n)?;
        map.release(list, entry);
    }
    Ok(())
}

/// Releases one run for an entry.
pub fn release_run(
    map: &mut BlockMap,
    alloc: Global,
    run: Pxd,
    entry: u64,
) -> Result<(), AllocError>
    ensures { StaysReserved map.old map.new }
{
    let mut list = PxdList::new(alloc);
    list.push(run)?;
    release_all(map, &list, entry)
}

/// Reserves the lowest run of four blocks and gives it an owner.
pub fn take_four(map: &mut BlockMap) -> Option<Pxd>
    ensures { StaysReserved map.old map.new }
{
    let run = map.run_of_four()?;
    map.own_run(&run);
    Some(run)
}

/// Reserves the lowest run of four blocks and gives it back.
pub fn try_four(map: &mut BlockMap) -> Option<Pxd>
    ensures { StaysReserved map.old map.new }
{
    let run = map.run_of_four()?;
    map.give_back_run(&run);
    Some(run)
}
