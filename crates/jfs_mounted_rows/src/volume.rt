//! A volume in memory, formatted and mounted: its file system part has 3,008 blocks, of which 0 to 32 are in use, and its inode extent stands on pages 29 to 32.

ghost use Rattle.std.specs.Prelude.{◌≡◌, ◌≤◌, ◌+◌, length, IfSome};
ghost use Rattle.jfs_map_files.specs.Places.{AreWithin};
ghost use Rattle.jfs_map_files.specs.Files.{AreFilesOf};
ghost use Rattle.jfs_volume.specs.Busy.{IsIdle};

use jfs_bits::{Moment, put_u32, set_run};
use jfs_bmap::BlockMap;
use jfs_disk::{Disk, Fail, Kind, MemDisk, Page, Part, SureDisk};
use jfs_format::format;
use jfs_imap::InodeMap;
use jfs_inode_rows::places_of;
use jfs_map_files::{MapFile, MapFiles, Maps};
use jfs_mount_disk::{Begun, NotBegun, begin};
use jfs_name::Path;
use jfs_pages::PageCache;
use jfs_plain::{Call, Refusal, Reply, Request};
use jfs_super::{Super, read_super};
use jfs_volume::{Outcome, Volume};
use std::alloc::Global;
use uuid::Uuid;

const BLOCKS: u32 = 3008;

/// The number of pages of the disk.
pub const PAGES: u32 = 4096;

/// The time of the formatting.
const MADE: Moment = Moment { sec: 1000, nano: 7 };

/// A disk on which a volume was made.
pub fn formatted(alloc: Global) -> Option<SureDisk> {
    let mut disk = SureDisk::new(alloc, PAGES).ok()?;
    match format(&mut disk, Uuid::from_bytes([7; 16]), b"rows", MADE) {
        Ok(()) => Some(disk),
        Err(_) => None,
    }
}

/// The same on a disk of which these calls of a part fail.
pub fn faulty(alloc: Global, part: Part, kind: Kind, first: u64, last: u64) -> Option<MemDisk> {
    let mut disk = MemDisk::new(alloc, PAGES);
    match format(&mut disk, Uuid::from_bytes([7; 16]), b"rows", MADE) {
        Ok(()) => {}
        Err(_) => return None,
    }
    let mut fails = Vec::new(alloc);
    match fails.push(Fail {
        part,
        kind,
        first,
        last,
    }) {
        Ok(()) => Some(disk.with_fails(fails)),
        Err(_) => None,
    }
}

/// The superblock of a disk of so many pages, or of its first ones.
pub fn super_of<D: Disk>(disk: &mut D) -> Option<Super> {
    let mut page = Page::zeros();
    if disk.pages() < 9 || disk.read(8, &mut page).is_err() {
        return None;
    }
    read_super(&page, PAGES).ok()
}

/// The two maps of a new volume.
fn maps_of(alloc: Global) -> Option<Maps>
    ensures size { IfSome result (λ m. length m.blocks.states ≡ 3008) }
    ensures idle { IfSome result (λ m. IsIdle m.blocks) }
    ensures iags { IfSome result (λ m. m.inodes.iags ≡ 1) }
{
    let mut used = [0u8; 1024];
    set_run(&mut used, 0, 33);
    let blocks = match BlockMap::from_set(alloc, &used, BLOCKS, 8192) {
        Ok(blocks) => blocks,
        Err(_) => return None,
    };
    let mut set = [0u8; 512];
    put_u32(&mut set, 0, 0xf800_0000);
    let list = places_of(alloc, &[(0, 29)], 1).ok()?;
    let inodes = InodeMap::from_parts(alloc, &set, &list, 1, 8192, 1).ok()?;
    Some(Maps {
        blocks,
        inodes,
        file_limit: 268_435_456,
    })
}

/// Where the pages of a map's file lie that begins at a block.
fn file_at(alloc: Global, first: u32, pages: u32) -> Option<MapFile>
    requires { first + pages ≤ 3008 }
    ensures within { IfSome result (λ f. AreWithin 3008 f.places) }
    ensures pages { IfSome result (λ f. length f.places ≡ pages) }
{
    let mut places = Vec::new(alloc);
    for n in 0..pages {
        places.push(first + n).ok()?;
    }
    Some(MapFile::new(places))
}

/// The block map's file has five pages from block 16 on, the inode map's two from block 27 on.
fn files_of(alloc: Global) -> Option<MapFiles>
    ensures { IfSome result (AreFilesOf 3008 5 1) }
{
    let blocks = file_at(alloc, 16, 5)?;
    let inodes = file_at(alloc, 27, 2)?;
    Some(MapFiles { blocks, inodes })
}

/// A volume over the low part of its disk.
fn started<D: Disk + Drop>(alloc: Global, begun: Begun<D>, ring: u32) -> Option<Volume<D>> {
    let Begun { low, log: _ } = begun;
    if low.pages() < BLOCKS || ring < 254 || ring > 32_768 {
        return None;
    }
    let maps = maps_of(alloc)?;
    let files = files_of(alloc)?;
    let cache = PageCache::new(alloc, low, BLOCKS);
    Some(Volume::start(alloc, cache, maps, files, ring))
}

/// What a mount writes, on a disk whose superblock is accepted; and that superblock.
pub fn begin_on<D: Disk + Drop>(disk: D) -> Option<(Super, Result<Begun<D>, NotBegun<D>>)> {
    let mut disk = disk;
    let mut page = Page::zeros();
    let pages = disk.pages();
    if pages < 9 || disk.read(8, &mut page).is_err() {
        return None;
    }
    match read_super(&page, pages) {
        Ok(s) => Some((s, begin(disk, &s))),
        Err(_) => None,
    }
}

/// The volume on a disk that was formatted.
pub fn mount_on<D: Disk + Drop>(alloc: Global, disk: D) -> Option<Volume<D>> {
    let (s, answer) = begin_on(disk)?;
    match answer {
        Ok(begun) => started(alloc, begun, s.logpxd.len.saturating_sub(2)),
        Err(_) => None,
    }
}

/// A call that changes nothing joins, where numbers are left.
pub fn join<D: Disk>(alloc: Global, volume: &mut Volume<D>, line: u32) -> Option<Outcome> {
    let request = Request {
        call: Call::Stat {
            path: Path::new(alloc),
        },
        lazy: false,
    };
    if volume.appended() > 1000 {
        return None;
    }
    Some(volume.join_reply(3, line, &request, Reply::Refused(Refusal::NotFound)))
}
