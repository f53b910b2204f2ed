//! Mounts of new volumes, and mounts that are refused or fail.

use crate::made::{ONE_FILE, Word, volume_with};
use crate::volume::faulty;
use jfs_bits::Rule;
use jfs_disk::{Disk, Fault, Kind, Page, Part};
use jfs_mount::BadMount;
use jfs_mounted::{MountError, MountRefused, Mounted, mount};
use jfs_super::{VolumeState, read_super};
use std::alloc::Global;
use std::test::*;

/// The mount of a disk with an accepted superblock in state 0.
fn mounted<D: Disk + Drop>(alloc: Global, disk: D) -> Option<Result<Mounted<D>, MountRefused<D>>> {
    let mut disk = disk;
    let pages = disk.pages();
    if pages < 9 {
        return None;
    }
    let mut page = Page::zeros();
    if disk.read(8, &mut page).is_err() {
        return None;
    }
    match read_super(&page, pages) {
        Ok(s) => {
            if s.state != VolumeState::CLEAN {
                return None;
            }
            Some(mount(alloc, disk, &s))
        }
        Err(_) => None,
    }
}

/// The ring of a volume that was mounted, its dirty pages, its entries, what its log has made durable, and whether it has halted.
type Told = (u32, usize, u64, u64, bool);

fn told(alloc: Global, words: &[Word]) -> Option<Told> {
    let disk = volume_with(alloc, words)?;
    match mounted(alloc, disk)? {
        Ok(m) => Some((
            m.volume.ring(),
            m.volume.dirty(),
            m.volume.appended(),
            m.log.durable(),
            m.volume.halted().is_some(),
        )),
        Err(_) => None,
    }
}

#[test]
fn volumes_are_mounted(rt: HostRuntime) {
    let alloc = rt.alloc();
    // The log has 1,024 pages, two of which aren't the ring's; nothing is dirty, and nothing has happened.
    assert!(rt; told(alloc, &[]) == Some((1022, 0, 0, 0, false)));
    assert!(rt; told(alloc, &ONE_FILE) == Some((1022, 0, 0, 0, false)));
}

/// The state that a superblock on page 8 of the disk says, and the magic number of the log's on page 3,073.
fn marks<D: Disk>(disk: &mut D) -> Option<(u32, u32)> {
    if disk.pages() < 3074 {
        return None;
    }
    let mut page = Page::zeros();
    if disk.read(8, &mut page).is_err() {
        return None;
    }
    let state = jfs_bits::get_u32(&page.0, 40);
    if disk.read(3073, &mut page).is_err() {
        return None;
    }
    Some((state, jfs_bits::get_u32(&page.0, 0)))
}

/// Why a new volume with these words instead of its own isn't mounted, and the marks of the disk that is handed back.
fn refusal(alloc: Global, words: &[Word]) -> Option<(MountError, Option<(u32, u32)>)> {
    let disk = volume_with(alloc, words)?;
    match mounted(alloc, disk)? {
        Ok(_) => None,
        Err(refused) => {
            let mut disk = refused.disk;
            Some((refused.why, marks(&mut disk)))
        }
    }
}

#[rattlefmt::skip]
static REFUSED: [(&'static [Word], Rule, u32, u64); 6] = [
    (&[(11, 1288, 4)], Rule::Bmap, 11, 4),
    (&[(13, 264, 1)], Rule::Imap, 13, 1),
    (&[(16, 0, 3007)], Rule::Mapsize, 16, 3007),
    (&[(27, 4, 0)], Rule::Nextiag, 27, 0),
    (&[(28, 3072, 3)], Rule::Extents, 28, 29),
    (&[(29, 1076, 0x81ed)], Rule::Root, 29, 0x81ed),
];

/// The disk that is handed back is in state 0.
#[test]
fn broken_volumes_are_refused(rt: HostRuntime) {
    let alloc = rt.alloc();
    for (words, rule, page, value) in REFUSED.iter() {
        let bad = BadMount {
            rule: *rule,
            page: *page,
            value: *value,
        };
        let why = refusal(alloc, words);
        assert!(rt;
            why == Some((MountError::BadImage(bad), Some((0, 0x8765_4321)))),
            "{words:?}"
        );
    }
}

/// What a mount answers where a call fails: the error, and the pages, the count of faults and the state of the disk that is handed back.
fn failure(
    alloc: Global,
    part: Part,
    kind: Kind,
    number: u64,
) -> Option<(MountError, u32, u64, u32)> {
    let disk = faulty(alloc, part, kind, number, number)?;
    match mounted(alloc, disk)? {
        Ok(_) => None,
        Err(refused) => {
            let mut disk = refused.disk;
            let (pages, faults) = (disk.pages(), disk.faults());
            let (state, _) = marks(&mut disk)?;
            Some((refused.why, pages, faults, state))
        }
    }
}

/// A call that fails, and the state of the disk that is handed back.
static FAULTS: [(Part, Kind, u64, u32); 7] = [
    // The superblock is read first, and then the pages of the maps.
    (Part::Whole, Kind::Read, 2, 0),
    (Part::Whole, Kind::Read, 9, 0),
    // The first page of the ring, the log's superblock, and its sync.
    (Part::High, Kind::Write, 1, 0),
    (Part::High, Kind::Write, 1023, 0),
    (Part::High, Kind::Sync, 1, 0),
    // Page 8, and its sync: the disk that is handed back shows state 1.
    (Part::Low, Kind::Read, 1, 0),
    (Part::Low, Kind::Sync, 1, 1),
];

fn is_told(alloc: Global, part: Part, kind: Kind, number: u64, state: u32) -> bool {
    let why = MountError::Disk(Fault { part, count: 1 });
    failure(alloc, part, kind, number) == Some((why, 4096, 1, state))
}

#[test]
fn faults_are_told(rt: HostRuntime) {
    for (part, kind, number, state) in FAULTS.iter() {
        assert!(rt;
            is_told(rt.alloc(), *part, *kind, *number, *state),
            "{number}"
        );
    }
}

/// No other call is made.
static LATER: [(Part, Kind, u64); 4] = [
    (Part::High, Kind::Write, 1024),
    (Part::High, Kind::Sync, 2),
    (Part::Low, Kind::Write, 2),
    (Part::Low, Kind::Sync, 2),
];

/// Whether a volume is mounted on a disk of which this call would fail.
fn is_mounted(alloc: Global, part: Part, kind: Kind, number: u64) -> Option<bool> {
    let disk = faulty(alloc, part, kind, number, number)?;
    Some(mounted(alloc, disk)?.is_ok())
}

#[test]
fn later_calls_do_not_fail(rt: HostRuntime) {
    for (part, kind, number) in LATER.iter() {
        assert!(rt;
            is_mounted(rt.alloc(), *part, *kind, *number) == Some(true),
            "{number}"
        );
    }
}
