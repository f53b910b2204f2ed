//! Whether there is space, and an inode, before anything is reserved.

ghost use Rattle.std.specs.Prelude.{◌≡◌};
ghost use Rattle.jfs_room.specs.bmap.specs.States.{unowned_count};
ghost use Rattle.jfs_claim.specs.Look.{space_for, inode_by, LooksFor, WhateverInodes, IfAtRest, TellsSpace, TellsInode};

use jfs_imap::{InodeMap, Pick};
use jfs_plain::Refusal;
use jfs_room::bmap::BlockMap;

/// The blocks that are always kept.
const KEPT: u64 = 64;

/// Whether a call that may need so many blocks finds space. It is `NoSpace` exactly where fewer blocks than these and the 64 that are always kept have no owner, with their
/// number; reserved and busy blocks have none. Nothing is reserved.
pub fn look_for_space(blocks: &BlockMap, need: u32) -> Result<(), Refusal>
    ensures exactly { result ≡ space_for (unowned_count blocks.now) need }
    // On a volume whose maps agree it is what the room tells.
    ensures room { WhateverInodes blocks.now (λ room. TellsSpace room need result) }
{
    space_for(blocks.unowned(), need)
}

/// Whether so many blocks without an owner are enough.
fn space_for(free: u32, need: u32) -> Result<(), Refusal>
    ensures { result ≡ space_for free need }
{
    if u64::from(free) < u64::from(need) + KEPT {
        return Err(Refusal::NoSpace { free });
    }
    Ok(())
}

/// The number that a new object gets.
#[derive(Clone, Copy, PartialEq, Eq, Debug)]
pub struct FreshInode {
    pub number: u32,
    /// Its extent isn't there: it is the first inode of the extent that the lowest place without one gets, which is `number / 32`.
    pub needs_extent: bool,
}

/// The number that a new object gets: the lowest free one of the inode extents that are there; else the first one of an extent to be made. It is `NoInodes` exactly where none
/// is free and no extent can be made: each place has one, or no aligned run of four blocks is there for it once all busy blocks are settled. Nothing is reserved.
pub fn look_for_inode(blocks: &BlockMap, inodes: &InodeMap) -> Result<FreshInode, Refusal>
    ensures exactly { LooksFor blocks.now inodes.now result }
    // On a volume whose maps agree and are at rest it is the room's.
    ensures room { IfAtRest blocks.now inodes.now (λ room. TellsInode room result) }
{
    inode_by(inodes.pick(), blocks.has_four_once_settled())
}

/// The number by what the inode map picks, and by whether there is a run for one more extent.
fn inode_by(pick: Pick, run: bool) -> Result<FreshInode, Refusal>
    ensures { result ≡ inode_by pick run }
{
    match pick {
        Pick::Number(number) => Ok(FreshInode {
            number,
            needs_extent: false,
        }),
        // Numbers have 32 bits.
        Pick::NeedsExtent { place } if place < 1 << 27 && run => Ok(FreshInode {
            number: 32 * place,
            needs_extent: true,
        }),
        _ => Err(Refusal::NoInodes),
    }
}
