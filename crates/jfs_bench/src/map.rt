//! How fast blocks are reserved on small and on great volumes: empty, nearly full, and nearly full of busy blocks.

ghost use Rattle.std.specs.Prelude.{◌≡◌, ◌<◌, ◌≤◌, ◌^◌, ◌/◌, ◌%◌, length, IfOk};

use jfs_bits::{Pxd, PxdList, set_run};
use jfs_bmap::BlockMap;
use std::alloc::{AllocError, Global};
use std::io;
use std::time::Instant;

/// The reservations that are timed.
const TIMED: u32 = 100000;

/// The blocks of one reservation.
const WANTED: u32 = 8;

/// The blocks of an allocation group.
const GROUP: u32 = 65536;

/// What the blocks of a volume are in use for: none is, or about 95 of 100 at random places are.
#[derive(Clone, Copy, PartialEq, Eq)]
enum Use {
    None,
    Owned,
    Busy,
}

impl Use {
    fn name(self) -> &'static str {
        match self {
            Use::None => "empty",
            Use::Owned => "nearly full",
            Use::Busy => "nearly full of busy blocks",
        }
    }
}

/// A bit for each block, set for those in use.
fn pattern(alloc: Global, blocks: u32, taken: Use) -> Result<Vec<u8>, AllocError>
    requires most { blocks ≤ 2 ^ 23 }
    requires words { blocks % 32 ≡ 0 }
    ensures { IfOk result (λ set. length set.items ≡ blocks / 8) }
{
    let mut set = vec![in alloc; 0u8; (blocks / 8) as usize]?;
    let mut seed = 1u64;
    if taken != Use::None {
        for b in 0..blocks {
            seed = seed
                .wrapping_mul(6364136223846793005)
                .wrapping_add(1442695040888963407);
            if (seed >> 33) % 20 != 0 {
                set_run(set.as_mut_slice(), b, 1);
            }
        }
    }
    Ok(set)
}

/// Releases all owned blocks for an entry; they are busy then.
fn release_all(map: &mut BlockMap, alloc: Global, blocks: u32) -> Result<(), AllocError> {
    let mut list = PxdList::new(alloc);
    list.push(Pxd {
        len: blocks,
        addr: 0,
    })?;
    map.make_room(1)?;
    map.release(&list, 1);
    Ok(())
}

/// Reserves blocks so many times, wanted at places all over the volume, and gives them back.
fn reserve_often(map: &mut BlockMap, alloc: Global, blocks: u32) -> u32
    requires { 0 < blocks }
{
    let mut seed = 1u64;
    let mut reserved = 0;
    for _call in 0..TIMED {
        seed = seed
            .wrapping_mul(6364136223846793005)
            .wrapping_add(1442695040888963407);
        let hint = (seed >> 33) as u32 % blocks;
        if let Ok(list) = map.reserve(alloc, hint, WANTED) {
            map.give_back(&list);
            reserved += 1;
        }
    }
    reserved
}

/// Prints how long it took to make the map of a volume of so many blocks, and to reserve blocks there.
fn time_volume(rt: &HostRuntime, blocks: u32, taken: Use) -> io::Result<()>
    requires some { 0 < blocks }
    requires most { blocks ≤ 2 ^ 23 }
    requires words { blocks % 32 ≡ 0 }
{
    let set = pattern(rt.alloc(), blocks, taken)?;
    let start = Instant::now(rt)?;
    let mut map = BlockMap::from_set(rt.alloc(), set.as_slice(), blocks, GROUP)?;
    let made = start.elapsed(rt)?.as_micros();
    if taken == Use::Busy {
        release_all(&mut map, rt.alloc(), blocks)?;
    }
    let start = Instant::now(rt)?;
    let reserved = reserve_often(&mut map, rt.alloc(), blocks);
    let micros = start.elapsed(rt)?.as_micros();
    let name = taken.name();
    println!(rt;
        "{blocks} blocks, {name}: made in {made} us, {reserved} reservations in {micros} us"
    )
}

/// Releases so many runs for entries of their own, that of the last entry first.
fn release_each(map: &mut BlockMap, alloc: Global, runs: u32) -> Result<(), AllocError> {
    map.make_room(runs)?;
    for i in 0..runs {
        let mut list = PxdList::new(alloc);
        list.push(Pxd {
            len: WANTED,
            addr: 10 * u64::from(i),
        })?;
        map.release(&list, u64::from(runs - i));
    }
    Ok(())
}

/// The map of a volume of so many blocks, each of which has an owner.
fn full_map(alloc: Global, blocks: u32) -> Result<BlockMap, AllocError>
    requires some { 0 < blocks }
    requires most { blocks ≤ 2 ^ 23 }
    requires words { blocks % 32 ≡ 0 }
{
    let set = vec![in alloc; 255u8; (blocks / 8) as usize]?;
    BlockMap::from_set(alloc, set.as_slice(), blocks, GROUP)
}

/// Prints how long it took to settle so many runs one at a time.
fn time_settle(rt: &HostRuntime, runs: u32) -> io::Result<()> {
    let mut map = full_map(rt.alloc(), 1048576)?;
    release_each(&mut map, rt.alloc(), runs)?;
    let start = Instant::now(rt)?;
    for entry in 0..runs {
        map.settle(u64::from(entry) + 1);
    }
    let micros = start.elapsed(rt)?.as_micros();
    let busy = map.busy();
    println!(rt; "{runs} runs settled one at a time in {micros} us, {busy} blocks busy")
}

/// Prints a line for each size of volume and each pattern, and for few and many runs that wait to be settled.
pub fn time_map(rt: &HostRuntime) -> io::Result<()> {
    for blocks in [4096, 262144, 8388608] {
        for taken in [Use::None, Use::Owned, Use::Busy] {
            time_volume(rt, blocks, taken)?;
        }
    }
    for runs in [1000, 10000, 100000] {
        time_settle(rt, runs)?;
    }
    Ok(())
}
