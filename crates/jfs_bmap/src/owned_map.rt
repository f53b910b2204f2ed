//! The map's file over the blocks that have owners.

ghost use Rattle.std.specs.Prelude.{◌≡◌, ◌*◌, ◌%◌, ◌^◌, ◌≤◌, length, IfOk};
ghost use Rattle.jfs_bmap.specs.Set.{taken_at};
ghost use Rattle.jfs_bmap.specs.MapFile.{AreGroups, IsMapPage, is_in_use, pages_of};
ghost use Rattle.jfs_bmap.specs.OwnedBlocks.{owned_of};

use crate::map_pages::MapPages;
use jfs_disk::Page;
use std::alloc::{AllocError, Global};
use std::marker::Model;

/// The blocks of a volume that have owners, as the pages of a map's file tell them: one set of pages, where a [`crate::BlockMap`] has three. A page for each
/// 8,192 blocks is kept.
#[derive(Drop)]
pub struct OwnedMap {
    agsize: u32,
    pages: MapPages,
}

impl Model for OwnedMap {
    ghost use Rattle.std.specs.Prelude.{length};
    ghost use Rattle.jfs_bmap.specs.MapFile.{AreGroups};
    ghost use Rattle.jfs_bmap.specs.OwnedBlocks.{OwnedBlocks};

    ghost Value = { OwnedBlocks };

    ghost view = { λ m. record { owned = m.pages; agsize = m.agsize } };

    ghost invariant = { λ m. AreGroups (length m.pages) m.agsize };
}

impl OwnedMap {
    /// The map of a volume of so many blocks in groups of `agsize`, of which those in `set` have owners: a bit for each block, in
    /// words as in the maps. `Err` is want of memory.
    pub fn from_set(
        alloc: Global,
        set: &[u8],
        blocks: u32,
        agsize: u32,
    ) -> Result<OwnedMap, AllocError>
        requires most { blocks ≤ 2 ^ 23 }
        requires size { blocks ≤ 8 * length set.now }
        requires words { length set.now % 4 ≡ 0 }
        requires groups { AreGroups blocks agsize }
        ensures { IfOk result (λ map. map ≡ owned_of set.now blocks agsize) }
    {
        Ok(OwnedMap {
            agsize,
            pages: MapPages::from_set(alloc, set, blocks)?,
        })
    }

    /// The number of blocks of the volume.
    pub fn blocks(&self) -> u32
        ensures value { result ≡ length self.now.owned }
        ensures most { result ≤ 2 ^ 23 }
    {
        self.pages.blocks()
    }

    /// The number of pages of the map's file.
    pub fn pages(&self) -> u32
        ensures { result ≡ pages_of (length self.now.owned) }
    {
        self.pages.file_pages()
    }

    /// Whether page `n` of the map's file is in use.
    pub fn is_in_use(&self, n: u32) -> bool
        ensures { result ≡ is_in_use (length self.now.owned) n }
    {
        self.pages.is_in_use(n)
    }

    /// Writes page `n` of the map's file in its canonical form, those blocks set that have owners. Takes no memory. (JFS Layout, block map.)
    pub fn write_page(&self, n: u32, page: &mut Page)
        ensures { IsMapPage (length self.now.owned) self.now.agsize (taken_at self.now.owned) n page.new.0 }
    {
        self.pages.write_page(self.agsize, n, page);
    }
}
