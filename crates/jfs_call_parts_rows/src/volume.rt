//! Volumes that were formatted, with objects put into them. Their file system part has 3,008 blocks; the root directory, inode 2, has mode 0755, and the inodes 0 to 7 stand on page 29, each in 512
//! bytes. Of a tree's root, 224 bytes behind an inode's start, byte 17 is the number of its entries, and of a directory's 18 that of its free slots.

ghost use Rattle.std.specs.Prelude.{◌≤◌, ◌<◌, ◌≡◌, ◌∷◌, ℕ, [], length, get_or, IfOk, IfSome, IsTrue};

use jfs_bits::{Moment, Pxd, PxdList, put_u32};
use jfs_data_steps::DataList;
use jfs_disk::{Disk, Page, SureDisk};
use jfs_format::format;
use jfs_imap::InodeMap;
use jfs_inode_rows::places_of;
use jfs_name::{Name, Path};
use jfs_ranges::{Edit, Tx, apply, touches};
use std::alloc::{AllocError, Global};
use uuid::Uuid;

/// The blocks of the file system part.
pub const BLOCKS: u32 = 3008;

/// When all was made.
pub const MADE: Moment = Moment { sec: 1000, nano: 7 };

/// The bytes of the file, in five blocks from block 300 on.
pub const SIZE: u64 = 20_000;

/// A place in page 29, and a number of 4 bytes there.
pub type Word = (usize, u32);

/// Three objects: the root directory, which has three links, names `a` a file of 20,000 bytes, inode 4, `b` a symbolic link of three, inode 5, and `d` an empty directory, inode 6.
#[rattlefmt::skip]
static OBJECTS: [Word; 41] = [
    (1064, 3), (1264, 0x0405_0383), (1272, 0x0003_0201), (1280, 4), (1284, 0x0061_01ff), (1312, 5), (1316, 0x0062_01ff), (1344, 6), (1348, 0x0064_01ff),
    (2056, 4), (2072, 20_000), (2080, 5), (2088, 1), (2100, 0x81a4), (2120, 1000), (2124, 7), (2288, 0x0003_0083), (2292, 18), (2312, 5), (2316, 300),
    (2568, 5), (2584, 3), (2600, 1), (2612, 0xa1ff), (2632, 1000), (2636, 7),
    (3080, 6), (3112, 2), (3124, 0x41ed), (3144, 1000), (3148, 7), (3312, 0x0108_0083), (3316, 2), (3328, 0x0102), (3360, 0x0103), (3392, 0x0104), (3424, 0x0105), (3456, 0x0106),
    (3488, 0x0107), (3520, 0x0108), (3552, 0x01ff),
];

/// The inode map of one inode extent at an address, of which the inodes are in use that a word tells, the first one by the highest bit.
pub fn map_at(alloc: Global, addr: u64, used: u32) -> Result<InodeMap, AllocError> {
    let mut set = [0u8; 512];
    put_u32(&mut set, 0, used);
    let list = places_of(alloc, &[(0, addr)], 1)?;
    InodeMap::from_parts(alloc, &set, &list, 1, 8192, 1)
}

/// The inode map of the volume with three objects: inodes 0 to 6 are in use.
pub fn map_of_objects(alloc: Global) -> Result<InodeMap, AllocError> {
    map_at(alloc, 29, 0xfe00_0000)
}

/// The name of one unit.
pub fn name_of(alloc: Global, unit: u16) -> Option<Name>
    ensures { IfSome result (λ name. length name ≤ 255) }
{
    let mut name = Name::new(alloc);
    name.push(unit).ok()?;
    Some(name)
}

/// The path of one name of one unit; the root's for 0.
pub fn path_of(alloc: Global, unit: u16) -> Option<Path> {
    let mut path = Path::new(alloc);
    if unit != 0 {
        path.push(name_of(alloc, unit)?).ok()?;
    }
    Some(path)
}

/// Whether no name of a path is longer than a name may be.
pub fn is_short(path: &[Name]) -> bool
    ensures { IsTrue result → (i : ℕ) → i < length path.now → length (get_or path.now i []) ≤ 255 }
{
    for i in 0..path.len() {
        if path[i].len() > 255 {
            return false;
        }
    }
    true
}

/// Eight free blocks.
pub fn eight(alloc: Global) -> Result<PxdList, AllocError>
    ensures { IfOk result (λ fresh. fresh ≡ record { len = 8; addr = 400 } ∷ []) }
{
    let mut fresh = PxdList::new(alloc);
    fresh.push(Pxd { len: 8, addr: 400 })?;
    Ok(fresh)
}

/// A new volume.
pub fn formatted(alloc: Global) -> Option<SureDisk> {
    let mut disk = SureDisk::new(alloc, 4096).ok()?;
    match format(&mut disk, Uuid::from_bytes([7; 16]), b"data", MADE) {
        Ok(()) => Some(disk),
        Err(_) => None,
    }
}

/// A new volume with these words on page 29 instead of its own.
pub fn volume_with(alloc: Global, words: &[Word]) -> Option<SureDisk> {
    let mut disk = formatted(alloc)?;
    let mut page = page_of(&mut disk, 29);
    for (at, value) in words {
        if *at > 4092 {
            return None;
        }
        put_u32(&mut page.0, *at, *value);
    }
    if put_page(&mut disk, 29, &page) {
        Some(disk)
    } else {
        None
    }
}

/// The file's bytes in its block `k`.
pub fn fill_of(k: u32) -> u8 {
    65 + (k % 5) as u8
}

/// The volume with three objects. The file's block `k` is filled with one byte.
pub fn volume_of_objects(alloc: Global) -> Option<SureDisk> {
    let mut disk = volume_with(alloc, &OBJECTS)?;
    for k in 0..5 {
        if !put_page(&mut disk, 300 + k, &Page([fill_of(k); 4096])) {
            return None;
        }
    }
    Some(disk)
}

/// A page of a disk, or zeros.
pub fn page_of(disk: &mut SureDisk, n: u32) -> Page {
    let mut page = Page::zeros();
    if n < disk.pages() && disk.read(n, &mut page).is_err() {
        return Page::zeros();
    }
    page
}

/// Whether the page was written.
pub fn put_page(disk: &mut SureDisk, n: u32, page: &Page) -> bool {
    n < disk.pages() && disk.write(n, page).is_ok()
}

/// Puts data, and then does what a transaction says to pages.
pub fn append(disk: &mut SureDisk, data: &DataList, tx: &Tx) -> bool {
    for d in data.as_slice() {
        if !put_page(disk, d.block, &d.page) {
            return false;
        }
    }
    for n in 0..BLOCKS {
        if touches(tx, n) {
            let mut page = page_of(disk, n);
            apply(tx, n, &mut page);
            if !put_page(disk, n, &page) {
                return false;
            }
        }
    }
    true
}

/// How many blocks a transaction frees.
pub fn freed_by(tx: &Tx) -> u32 {
    let mut sum = 0u32;
    for edit in tx.as_slice() {
        if let Edit::Free(run) = edit {
            sum = sum.saturating_add(run.len);
        }
    }
    sum
}
