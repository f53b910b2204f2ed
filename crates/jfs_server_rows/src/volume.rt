//! A new volume in memory on which the clients' scripts are run. Its file system part has 3,008 blocks, and its log begins at page 3,072 and has 1,024 pages.

ghost use Rattle.std.specs.Prelude.{◌≤◌, IfSome};
ghost use Rattle.jfs_run.specs.Tasks.{plan_of, IsPlan};
ghost use Rattle.jfs_super.specs.Rules.{IsAccepted};
ghost use Rattle.jfs_super.specs.Super.{FitsSuper};

use crate::gates::Rounds;
use crate::scripts::{Work, scripts_of};
use jfs_bits::Moment;
use jfs_disk::{Choice, Disk, Fail, MemDisk, Page, PageList};
use jfs_format::format;
use jfs_image::tree_of;
use jfs_io::Gate;
use jfs_plain::{Line, PlainTree};
use jfs_redo::redo;
use jfs_run::{Ran, run_lines};
use jfs_super::{Super, VolumeState, read_super};
use std::alloc::Global;
use std::sync::Wait;
use std::thread::Threads;
use uuid::Uuid;

/// The number of pages of the disk.
pub const PAGES: u32 = 4096;

/// The time of the formatting, and that of the runs.
pub const MADE: Moment = Moment { sec: 1000, nano: 7 };

pub const NOW: Moment = Moment { sec: 2000, nano: 9 };

/// Makes a new volume on a disk.
pub fn is_formatted<D: Disk>(disk: &mut D) -> bool {
    format(disk, Uuid::from_bytes([7; 16]), b"rows", MADE).is_ok()
}

/// A disk with a new volume, on which these calls fail from now on.
fn formatted(alloc: Global, fails: &[Fail]) -> Option<MemDisk> {
    let mut disk = MemDisk::new(alloc, PAGES);
    if !is_formatted(&mut disk) {
        return None;
    }
    Some(disk.with_fails(Vec::from_slice(alloc, fails).ok()?))
}

/// The superblock of a disk.
fn superblock<D: Disk>(disk: &mut D) -> Option<Super>
    ensures accepted { IfSome result (λ s. IsAccepted s (D.page_count disk.new)) }
    ensures fits { IfSome result FitsSuper }
{
    let pages = disk.pages();
    let mut page = Page::zeros();
    if pages < 9 || disk.read(8, &mut page).is_err() {
        return None;
    }
    read_super(&page, pages).ok()
}

/// So many clients run their scripts on a new volume, some calls of whose disk fail, through this gate. It is left, or unmounted unless one of them stopped it.
pub fn ran<R: Threads + Wait + Sync>(
    rt: &R,
    alloc: Global,
    work: Work,
    clients: u32,
    fails: &[Fail],
    is_left: bool,
    gate: &Rounds,
) -> Option<Ran<MemDisk>> {
    let scripts = scripts_of(alloc, work, clients)?;
    ran_on(rt, alloc, &scripts, formatted(alloc, fails)?, is_left, gate)
}

/// The scripts are run on the new volume of a disk.
pub fn ran_on<D: Disk + Send + Drop, G: Gate + Sync, R: Threads + Wait + Sync>(
    rt: &R,
    alloc: Global,
    scripts: &[Vec<Line>],
    disk: D,
    is_left: bool,
    gate: &G,
) -> Option<Ran<D>>
    requires { IsPlan (plan_of scripts.now) }
{
    let mut disk = disk;
    let pages = disk.pages();
    let mut page = Page::zeros();
    if pages < 9 || disk.read(8, &mut page).is_err() {
        return None;
    }
    let s = read_super(&page, pages).ok()?;
    if s.state != VolumeState::CLEAN {
        return None;
    }
    Some(run_lines(rt, alloc, disk, &s, scripts, NOW, is_left, gate))
}

/// The pages that runs write once the volume is mounted: those of objects lie at the front, and the log's text begins on its ring's last page, which is the disk's, and goes on at the ring's first ones.
static WRITTEN: [(u32, u32); 3] = [(0, 512), (3072, 3328), (4095, 4096)];

/// The disk after a crash that lost each write since the last sync.
pub fn crashed(alloc: Global, disk: MemDisk) -> Option<MemDisk> {
    let mut lost = Vec::new(alloc);
    for (first, end) in WRITTEN.iter() {
        for page in *first..*end {
            let choice = Choice {
                page,
                base: 0,
                top: 0,
                sectors: 0,
            };
            lost.push(choice).ok()?;
        }
    }
    Some(disk.crashed(&lost))
}

/// The tree of a disk's volume. Where it wasn't unmounted, it is redone.
pub fn redone_tree(alloc: Global, disk: MemDisk) -> Option<PlainTree> {
    let mut disk = disk;
    let s = superblock(&mut disk)?;
    if s.state == VolumeState::MOUNTED && redo(alloc, &mut disk, &s).is_err() {
        return None;
    }
    tree_of(alloc, &pages_of(alloc, &mut disk)?).ok()?
}

/// All pages of a disk.
fn pages_of<D: Disk>(alloc: Global, disk: &mut D) -> Option<PageList> {
    let mut pages = PageList::new(alloc);
    for n in 0..disk.pages() {
        let mut page = Page::zeros();
        if n >= disk.pages() {
            return None;
        }
        disk.read(n, &mut page).ok()?;
        pages.push(page).ok()?;
    }
    Some(pages)
}
