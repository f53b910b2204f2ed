//! A volume as it is mounted.

ghost use Rattle.std.specs.Prelude.{◌≡◌, ◌<◌, ◌≤◌, ◌+◌, ◌-◌, ◌*◌, ◌^◌, [], None, length};
ghost use Rattle.jfs_bmap.specs.MapFile.{pages_of};
ghost use Rattle.jfs_map_files.specs.Files.{AreFilesOf};
ghost use Rattle.jfs_volume.specs.Busy.{IsIdle};
ghost use Rattle.jfs_disk.specs.Crash.{last_of};
ghost use Rattle.jfs_disk.specs.Moment.{IsResting};
ghost use Rattle.jfs_pages.specs.Kept.{dirty_in, image_in};
ghost use Rattle.jfs_volume.specs.Start.{StandsFresh};

use crate::volume::Volume;
use crate::waiting::WaitingText;
use jfs_disk::Disk;
use jfs_map_files::{MapFiles, Maps};
use jfs_pages::PageCache;
use std::alloc::Global;

impl<D: Disk> Volume<D> {
    /// A volume over a cache of the low part, with its two maps, their files, and a log of so many ring pages that was just made: nothing is dirty, and nothing has happened yet. It takes no memory.
    pub fn start(
        alloc: Global,
        cache: PageCache<D>,
        maps: Maps,
        files: MapFiles,
        ring: u32,
    ) -> Volume<D>
        requires clean { dirty_in cache.kept ≡ [] }
        requires idle { IsIdle maps.blocks }
        requires files { AreFilesOf cache.blocks (pages_of (length maps.blocks.states)) maps.inodes.iags files }
        requires ring { (254 ≤ ring) × (ring < 2 ^ 16) }

        // Where nothing is pending on the low part, of which the cache has all pages, the volume stands for a fresh half.
        ensures fresh { cache.blocks ≡ D.page_count cache.disk → (D.tells_crashes → IsResting (last_of (D.past cache.disk)))
            → StandsFresh D.tells D.tells_crashes ring (image_in cache.blocks (D.image cache.disk) cache.kept) maps.blocks maps.inodes result }
        ensures counts { (result.appended ≡ 0) × (result.taken ≡ 0) × (result.told ≡ 0) × (result.points ≡ 1) }
        ensures disk { (result.disk ≡ D.image cache.disk) × (result.past ≡ D.past cache.disk) × (result.faults ≡ D.fault_count cache.disk) × (result.blocks ≡ cache.blocks) }
        ensures parts { (result.map ≡ maps.blocks) × (result.inodes ≡ maps.inodes) × (result.limit ≡ maps.file_limit) × (result.files ≡ files) × (result.count ≡ D.page_count cache.disk) × (result.room ≡ D.room cache.disk) × (result.halted ≡ None) }
        ensures text { (result.text.ring ≡ ring) × (result.text.place ≡ 4080 * (ring - 1) + 36) × (result.text.bytes ≡ []) }
    {
        Volume {
            alloc,
            cache,
            maps,
            files,
            appended: 0,
            taken: 0,
            told: 0,
            points: 1,
            known: 1,
            entries: Vec::new(alloc),
            text: WaitingText::new(alloc, ring),
            freed: Vec::new(alloc),
            forgotten: 0,
            halted: None,
        }
    }
}
