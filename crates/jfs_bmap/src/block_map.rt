//! The block map of a mounted volume.

ghost use Rattle.std.specs.Prelude.{◌≡◌, ◌+◌, ◌*◌, ◌%◌, ◌^◌, ◌≤◌, ◌↔◌, length, IfOk, IsTrue};
ghost use Rattle.jfs_bmap.specs.Set.{HasFreeRun};
ghost use Rattle.jfs_bmap.specs.States.{fresh, all_settled, free_count, busy_count, unowned_count, is_used, is_owned};
ghost use Rattle.jfs_bmap.specs.MapFile.{AreGroups, IsMapPage, is_in_use, pages_of};

use crate::entries::Piece;
use crate::freed::Freed;
use crate::map_pages::MapPages;
use jfs_disk::Page;
use std::alloc::{AllocError, Global};
use std::cmp::Reverse;
use std::collections::BinaryHeap;
use std::marker::Model;

/// What each block of a volume is in use for: free, owned, reserved for an entry that is being made, or busy, that is freed by an
/// entry that isn't durable yet. Three sets of map pages, each within the next: the owned blocks, which the volume's pages tell;
/// these and the reserved ones, which is what is in use once all busy blocks are settled; and all used ones, which a search passes
/// over.
#[derive(Drop)]
pub struct BlockMap {
    pub(crate) alloc: Global,
    /// The blocks of an allocation group.
    pub(crate) agsize: u32,
    /// The blocks that have owners.
    pub(crate) owned: MapPages,
    /// The blocks that are owned or reserved.
    pub(crate) held: MapPages,
    /// The blocks that are owned, reserved or busy.
    pub(crate) used: MapPages,
    /// The entry that each busy block waits for; no piece is made before there is room for a run.
    pub(crate) entries: Vec<Piece>,
    /// The runs that entries released and that aren't settled, the one of the lowest entry first.
    pub(crate) freed: BinaryHeap<Reverse<Freed>>,
    /// How many more runs `freed` takes without memory.
    pub(crate) spare: u32,
}

impl Model for BlockMap {
    ghost use Rattle.std.specs.Prelude.{◌<◌, ◌≤◌, ◌+◌, ◌*◌, length, vec_len};
    ghost use Rattle.std.specs.BinaryHeap.{heap_items, heap_len, heap_capacity};
    ghost use Rattle.jfs_bmap.specs.Set.{each_below};
    ghost use Rattle.jfs_bmap.specs.MapFile.{AreGroups};
    ghost use Rattle.jfs_bmap.specs.States.{Blocks};
    ghost use Rattle.jfs_bmap.specs.Kept.{Parts, state_in, AreKept};

    ghost Value = { Blocks };

    ghost view = { λ m. record {
      states = each_below (length m.owned) (state_in (record { owned = m.owned; held = m.held; used = m.used; entries = m.entries.items; heap = heap_items m.freed }));
      agsize = m.agsize;
      spare = m.spare;
    } };

    ghost invariant = { λ m.
        AreKept (record { owned = m.owned; held = m.held; used = m.used; entries = m.entries.items; heap = heap_items m.freed })
        × (heap_len m.freed + m.spare ≤ heap_capacity m.freed)
        × AreGroups (length m.owned) m.agsize
        × (0 < m.spare → length m.owned ≤ 8192 * vec_len m.entries) };
}

impl BlockMap {
    /// The map of a volume of so many blocks in groups of `agsize`, of which those in `set` have owners: a bit for each block, in
    /// words as in the maps. `Err` is want of memory.
    pub fn from_set(
        alloc: Global,
        set: &[u8],
        blocks: u32,
        agsize: u32,
    ) -> Result<BlockMap, AllocError>
        requires most { blocks ≤ 2 ^ 23 }
        requires size { blocks ≤ 8 * length set.now }
        requires words { length set.now % 4 ≡ 0 }
        requires groups { AreGroups blocks agsize }
        ensures { IfOk result (λ map. map ≡ fresh set.now blocks agsize) }
    {
        let owned = MapPages::from_set(alloc, set, blocks)?;
        let held = owned.copied(alloc)?;
        let used = owned.copied(alloc)?;
        Ok(BlockMap {
            alloc,
            agsize,
            owned,
            held,
            used,
            entries: Vec::new(alloc),
            freed: BinaryHeap::new(alloc),
            spare: 0,
        })
    }

    /// The number of blocks of the volume.
    pub fn blocks(&self) -> u32
        ensures value { result ≡ length self.now.states }
        ensures most { result ≤ 2 ^ 23 }
    {
        self.owned.blocks()
    }

    /// The number of free blocks.
    pub fn free(&self) -> u32
        ensures value { result ≡ free_count self.now }
        ensures most { free_count self.now + busy_count self.now ≤ length self.now.states }
    {
        self.used.free()
    }

    /// The number of busy blocks.
    pub fn busy(&self) -> u32
        ensures { result ≡ busy_count self.now }
    {
        self.held.free() - self.used.free()
    }

    /// The number of blocks without an owner: those that are free, reserved or busy.
    pub fn unowned(&self) -> u32
        ensures { result ≡ unowned_count self.now }
    {
        self.owned.free()
    }

    /// Whether an aligned run of four blocks is free once every busy block is settled. Visits no busy block.
    pub fn has_four_once_settled(&self) -> bool
        ensures { IsTrue result ↔ HasFreeRun (is_used (all_settled self.now)) 2 }
    {
        self.held.find(2).is_some()
    }

    /// How many runs can be released without memory.
    pub fn spare(&self) -> u32
        ensures { result ≡ self.now.spare }
    {
        self.spare
    }

    /// The number of pages of the map's file.
    pub fn pages(&self) -> u32
        ensures { result ≡ pages_of (length self.now.states) }
    {
        self.owned.file_pages()
    }

    /// Whether page `n` of the map's file is in use. The pages of levels above the highest in use, 1 and 2, aren't: `format` alone
    /// writes them.
    pub fn is_in_use(&self, n: u32) -> bool
        ensures { result ≡ is_in_use (length self.now.states) n }
    {
        self.owned.is_in_use(n)
    }

    /// Writes page `n` of the map's file in its canonical form, those blocks set that have owners: the map's control page, the
    /// control pages of levels 2, 1 and 0, then the dmaps; one past the last has no block. Takes no memory. (JFS Layout, block map.)
    pub fn write_page(&self, n: u32, page: &mut Page)
        ensures { IsMapPage (length self.now.states) self.now.agsize (is_owned self.now) n page.new.0 }
    {
        self.owned.write_page(self.agsize, n, page);
    }
}
