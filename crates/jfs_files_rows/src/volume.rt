//! A volume in memory, made by `format`: its file system part has 3,008 blocks, the block map's file begins at block 16, and the inode map's at block 27.

ghost use Rattle.std.specs.Prelude.{◌≡◌, ◌≤◌, IfSome};

use jfs_bits::{Moment, Pxd, clear_run, get_u32, put_u32, set_run};
use jfs_bmap::BlockMap;
use jfs_check::check;
use jfs_disk::{Disk, Page, SureDisk};
use jfs_files::{DataList, Maps};
use jfs_format::format;
use jfs_imap::InodeMap;
use jfs_inode_rows::places_of;
use jfs_ranges::{Edit, Tx, apply, touches};
use jfs_super::read_super;
use std::alloc::{AllocError, Global};
use uuid::Uuid;

pub const BLOCKS: u32 = 3008;

/// No file of a new volume may be larger, in bytes.
pub const LIMIT: u64 = 60_000;

/// The time of the formatting.
pub const MADE: Moment = Moment { sec: 1000, nano: 7 };

/// The disk, the most bytes of a file, a bit for each block that has an owner, and the inode extents, each with its place and its first block.
#[derive(Drop)]
pub struct TestVolume {
    pub disk: SureDisk,
    pub limit: u64,
    used: [u8; 1024],
    places: Vec<(u32, u64)>,
}

/// A new volume.
pub fn new_volume(alloc: Global) -> Option<TestVolume> {
    let mut disk = SureDisk::new(alloc, 4096).ok()?;
    if format(&mut disk, Uuid::from_bytes([7; 16]), b"data", MADE).is_err() {
        return None;
    }
    let mut used = [0; 1024];
    // blocks 0 to 32, and none behind the volume
    set_run(&mut used, 0, 33);
    let mut places = Vec::new(alloc);
    places.push((0, 29)).ok()?;
    Some(TestVolume {
        disk,
        limit: LIMIT,
        used,
        places,
    })
}

/// A page of a disk, or zeros.
pub fn page_of(disk: &mut SureDisk, n: u32) -> Page {
    let mut page = Page::zeros();
    if n < disk.pages() && disk.read(n, &mut page).is_err() {
        return Page::zeros();
    }
    page
}

/// Whether the page was written.
pub fn put_page(disk: &mut SureDisk, n: u32, page: &Page) -> bool {
    n < disk.pages() && disk.write(n, page).is_ok()
}

/// Whether the inode of so many in the extent that begins at a block has a link.
fn has_links(disk: &mut SureDisk, first: u64, k: u32) -> bool {
    if first >= 4096 {
        return false;
    }
    let page = page_of(disk, first as u32 + k / 8);
    get_u32(&page.0, 512 * (k % 8) as usize + 40) != 0
}

/// A bit for each of 4,096 inodes: set for inodes 0 to 3, and for each that has a link.
fn inodes_in_use(disk: &mut SureDisk, places: &[(u32, u64)]) -> [u8; 512] {
    let mut set = [0; 512];
    for (place, first) in places {
        for k in 0..32 {
            if *place < 128 && (32 * *place + k < 4 || has_links(disk, *first, k)) {
                set_run(&mut set, 32 * *place + k, 1);
            }
        }
    }
    set
}

/// The block map, in allocation groups of 8,192 blocks.
fn block_map(alloc: Global, set: &[u8; 1024]) -> Result<BlockMap, AllocError> {
    BlockMap::from_set(alloc, set, 3008, 8192)
}

/// The two maps of the volume, as a mount gives them.
pub fn maps_of(alloc: Global, volume: &mut TestVolume) -> Option<Maps>
    ensures { IfSome result (λ maps. maps.inodes.iags ≡ 1) }
{
    let blocks = block_map(alloc, &volume.used).ok()?;
    let set = inodes_in_use(&mut volume.disk, volume.places.as_slice());
    let list = places_of(alloc, volume.places.as_slice(), 1).ok()?;
    let inodes = InodeMap::from_parts(alloc, &set, &list, 1, 8192, 1).ok()?;
    Some(Maps {
        blocks,
        inodes,
        file_limit: volume.limit,
    })
}

/// Takes a run, or frees it.
fn mark(used: &mut [u8; 1024], run: &Pxd, taken: bool) {
    if run.addr > 3008 || run.len > 3008 {
        return;
    }
    if taken {
        set_run(used, run.addr as u32, run.len);
    } else {
        clear_run(used, run.addr as u32, run.len);
    }
}

/// A new inode extent: 128 lines of an inode page from its first line on, with the number of its first inode from byte 8 on.
fn add_extent(volume: &mut TestVolume, page: u32, bytes: &[u8]) -> bool {
    if bytes.len() < 12 {
        return false;
    }
    let run = Pxd {
        len: 4,
        addr: u64::from(page),
    };
    mark(&mut volume.used, &run, true);
    volume
        .places
        .push((get_u32(bytes, 8) / 32, run.addr))
        .is_ok()
}

/// Writes blocks of files.
pub fn put_data(volume: &mut TestVolume, blocks: &DataList) -> bool {
    for data in blocks.as_slice() {
        if !put_page(&mut volume.disk, data.block, &data.page) {
            return false;
        }
    }
    true
}

/// Does what a transaction says: to pages, and to both sets.
pub fn append(volume: &mut TestVolume, tx: &Tx) -> bool {
    for n in 0..BLOCKS {
        if touches(tx, n) {
            let mut page = page_of(&mut volume.disk, n);
            apply(tx, n, &mut page);
            if !put_page(&mut volume.disk, n, &page) {
                return false;
            }
        }
    }
    for edit in tx.as_slice() {
        match edit {
            Edit::Alloc(run) => mark(&mut volume.used, run, true),
            Edit::Free(run) => mark(&mut volume.used, run, false),
            Edit::Lines { page, bytes, .. } => {
                if bytes.len() == 16_384 && !add_extent(volume, *page, bytes.as_slice()) {
                    return false;
                }
            }
            Edit::NoRedo { .. } => {}
        }
    }
    true
}

/// Puts numbers of 4 bytes into page 29, which has the inodes 0 to 7.
pub fn put_words(volume: &mut TestVolume, words: &[(usize, u32)]) -> bool {
    let mut page = page_of(&mut volume.disk, 29);
    for (at, value) in words {
        if *at > 4092 {
            return false;
        }
        put_u32(&mut page.0, *at, *value);
    }
    put_page(&mut volume.disk, 29, &page)
}

/// Gives a run of blocks an owner.
pub fn own(volume: &mut TestVolume, first: u32, len: u32) {
    if first <= BLOCKS && len <= BLOCKS - first {
        set_run(&mut volume.used, first, len);
    }
}

/// Leaves so many blocks at the end without an owner, of 2,900 at most, where none from block 100 on has one.
pub fn fill_to(volume: &mut TestVolume, free: u32) {
    if free > 2900 {
        return;
    }
    set_run(&mut volume.used, 33, BLOCKS - 33);
    clear_run(&mut volume.used, BLOCKS - free, free);
}

/// Writes the block map home.
fn write_blocks(volume: &mut TestVolume, blocks: &BlockMap) -> bool {
    let mut page = Page::zeros();
    for n in 0..blocks.pages().min(11) {
        if blocks.is_in_use(n) {
            blocks.write_page(n, &mut page);
            if !put_page(&mut volume.disk, 16 + n, &page) {
                return false;
            }
        }
    }
    true
}

/// Writes the inode map home.
fn write_inodes(volume: &mut TestVolume, inodes: &InodeMap) -> bool
    requires { 1 ≤ inodes.now.iags }
{
    let mut page = Page::zeros();
    for n in 0..2 {
        inodes.write_page(n, &mut page);
        if !put_page(&mut volume.disk, 27 + n, &page) {
            return false;
        }
    }
    true
}

/// Writes the maps home.
pub fn write_maps(alloc: Global, volume: &mut TestVolume) -> bool {
    match maps_of(alloc, volume) {
        Some(maps) => write_blocks(volume, &maps.blocks) && write_inodes(volume, &maps.inodes),
        None => false,
    }
}

/// How many findings a check of the volume has, once its maps are written home.
pub fn findings_of(alloc: Global, volume: &mut TestVolume) -> Option<usize> {
    if !write_maps(alloc, volume) {
        return None;
    }
    let page = page_of(&mut volume.disk, 8);
    let pages = volume.disk.pages();
    if pages < 9 {
        return None;
    }
    let s = read_super(&page, pages).ok()?;
    let checked = check(alloc, &mut volume.disk, &s).ok()?;
    Some(checked.findings.len())
}
