//! What a call reserves, on a map of 200 blocks of which those below 44 have owners.

ghost use Rattle.std.specs.Prelude.{◌<◌, ◌≤◌};

use crate::given::inodes_of;
use jfs_bits::{Pxd, PxdList, set_run};
use jfs_bmap::BlockMap;
use jfs_claim::{Claim, ClaimError, FreshInode, Want, look_for_inode, look_for_space, take};
use jfs_imap::{InodeMap, Pick};
use jfs_plain::Refusal;
use std::alloc::{AllocError, Global};
use std::test::*;

/// What the blocks behind the first 44 are.
#[derive(Clone, Copy)]
pub enum Owners {
    /// None has an owner.
    None,
    /// So many at their front are busy.
    Busy(u8),
    /// Each fourth one has an owner, from block 44 on.
    Fourths,
}

/// A map of so many blocks in groups of 8,192, of which the first 44 have owners, and so many behind them; or else each fourth one behind them.
fn map_of(alloc: Global, blocks: u32, more: u8, fourths: bool) -> Result<BlockMap, AllocError>
    requires some { 0 < blocks }
    requires most { blocks ≤ 224 }
{
    let mut set = [0u8; 28];
    set_run(&mut set, 0, 44 + u32::from(more.min(180)));
    if fourths {
        for k in 11..56 {
            set_run(&mut set, 4 * k, 1);
        }
    }
    BlockMap::from_set(alloc, &set, blocks, 8192)
}

/// The map of so many blocks.
pub fn map_with(alloc: Global, blocks: u32, owners: Owners) -> Option<BlockMap>
    requires some { 0 < blocks }
    requires most { blocks ≤ 224 }
{
    match owners {
        Owners::None => map_of(alloc, blocks, 0, false).ok(),
        Owners::Fourths => map_of(alloc, blocks, 0, true).ok(),
        Owners::Busy(n) => busy_behind(alloc, map_of(alloc, blocks, n, false).ok()?, n),
    }
}

/// The map where so many blocks behind the first 44 were released for an entry that isn't durable.
fn busy_behind(alloc: Global, map: BlockMap, n: u8) -> Option<BlockMap> {
    let mut map = map;
    let mut list = PxdList::new(alloc);
    list.push(Pxd {
        len: u32::from(n),
        addr: 44,
    })
    .ok()?;
    map.make_room(1).ok()?;
    if list.len() > map.spare() as usize {
        return None;
    }
    map.release(&list, 9);
    Some(map)
}

/// A map of 200 blocks.
fn two_hundred(alloc: Global) -> Option<BlockMap> {
    map_with(alloc, 200, Owners::None)
}

/// What is told where so many blocks of a map of 200 are wanted; `None` outside is want of memory.
fn space(alloc: Global, need: u32) -> Option<Result<(), Refusal>> {
    let map = two_hundred(alloc)?;
    Some(look_for_space(&map, need))
}

// 156 blocks have no owner; 64 are always kept.
#[test]
fn space_is_looked_for(rt: HostRuntime) {
    assert!(rt; space(rt.alloc(), 92) == Some(Ok(())));
    assert!(rt; space(rt.alloc(), 93) == Some(Err(Refusal::NoSpace { free: 156 })));
}

const EIGHT: FreshInode = FreshInode {
    number: 8,
    needs_extent: false,
};

/// Whether inode 8 is picked, and is the one for a new object.
fn is_eight(map: &BlockMap, inodes: &InodeMap) -> bool {
    inodes.pick() == Pick::Number(8) && look_for_inode(map, inodes) == Ok(EIGHT)
}

// Inode 8 is the lowest free one.
#[test]
fn an_inode_is_looked_for(rt: HostRuntime) {
    let map = two_hundred(rt.alloc()).expect(&rt, "memory");
    let inodes = inodes_of(rt.alloc()).expect(&rt, "memory");
    assert!(rt; is_eight(&map, &inodes));
}

/// The run's first block, and the first and the last of the blocks.
fn places(claim: &Claim) -> (u64, u64, u64) {
    let run = match claim.run {
        Some(run) => run.addr,
        None => 0,
    };
    (run, addr_at(&claim.blocks, 0), addr_at(&claim.blocks, 7))
}

fn addr_at(list: &PxdList, i: usize) -> u64 {
    match list.get(i) {
        Some(run) => run.addr,
        None => 0,
    }
}

/// What is reserved, and how many blocks are free then, and once all is given back.
fn taken(alloc: Global, map: &mut BlockMap, want: Want) -> Result<Taken, ClaimError> {
    let claim = take(alloc, map, want)?;
    let free = map.free();
    claim.undo(map);
    Ok((places(&claim), free, map.free()))
}

/// What was reserved, and the counts, in a row.
type Taken = ((u64, u64, u64), u32, u32);

/// Whether a run of four is wanted, how many blocks, and what is reserved, or nothing where the log is to be written first.
static WANTS: [(bool, u32, Option<Taken>); 4] = [
    (true, 8, Some(((44, 48, 55), 144, 156))),
    (false, 8, Some(((0, 44, 51), 148, 156))),
    (false, 157, None),
    (true, 153, None),
];

/// Whether just this is reserved.
fn is_taken(alloc: Global, map: &mut BlockMap, want: Want, wanted: Option<Taken>) -> bool {
    match (taken(alloc, map, want), wanted) {
        (Ok(came), Some(wanted)) => came == wanted,
        (Err(ClaimError::NeedsLog), None) => true,
        _ => false,
    }
}

// The run is taken before the blocks; more blocks than are free wait for the log.
#[test]
fn blocks_are_reserved(rt: HostRuntime) {
    let alloc = rt.alloc();
    let mut map = two_hundred(alloc).expect(&rt, "memory");
    for (run, blocks, wanted) in WANTS.iter() {
        let want = Want {
            run: *run,
            blocks: *blocks,
        };
        assert!(rt; is_taken(alloc, &mut map, want, *wanted));
    }
}
