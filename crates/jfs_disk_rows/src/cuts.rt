//! Disks that are cut into parts and joined again.

ghost use Rattle.std.specs.Prelude.{◌≡◌, ◌≤◌, IfSome};
ghost use Rattle.jfs_disk.specs.Memory.{page_count_of};

use crate::row::{crash, failing, fill, is_filled, reads};
use jfs_disk::{Choice, Disk, DiskError, Fail, Kind, MemDisk, Part, SureDisk};
use std::test::*;

/// Cuts a disk of four pages before page 2, writes page 0 of its low part, and pages 0 and 1 of its high part, which fails at the second write, and joins both.
fn cut_and_joined(disk: MemDisk) -> Option<MemDisk>
    requires { page_count_of disk ≡ 4 }
    ensures { IfSome result (λ joined. page_count_of joined ≡ 4) }
{
    let (mut low, mut high) = disk.cut(2).ok()?;
    let mut good = low.pages() == 2 && high.pages() == 2;
    good &= is_filled(&mut high, 1, 3);
    good &= fill(&mut low, 0, 5).is_ok();
    good &= fill(&mut high, 0, 6).is_ok();
    good &= fill(&mut high, 1, 7) == Err(DiskError::Failed);
    let joined = MemDisk::join(low, high);
    if good { Some(joined) } else { None }
}

/// Page 0 and page 3 tear.
static CHOICES: [Choice; 2] = [
    Choice {
        page: 0,
        base: 0,
        top: 0,
        sectors: 0,
    },
    Choice {
        page: 3,
        base: 0,
        top: 3,
        sectors: 1,
    },
];

// Pages 0 to 3 of a disk that is cut before page 2. The second write on the high part fails. Page 3 then has the contents
// 00 and 03 from before the cut, 03 again, which a read gives after the failed write, and 07.
#[test]
fn parts_keep_their_pending_writes(rt: HostRuntime) {
    let fail = Fail {
        part: Part::High,
        kind: Kind::Write,
        first: 2,
        last: 2,
    };
    let mut disk = failing(rt.alloc(), 4, fail).expect(&rt, "memory");
    assert!(rt; fill(&mut disk, 1, 1).is_ok() && fill(&mut disk, 3, 3).is_ok());
    let joined = cut_and_joined(disk).expect(&rt, "a joined disk");
    assert!(rt; (joined.pages(), joined.faults(), joined.lost_writes()) == (4, 1, 0));
    let mut crashed = crash(joined, &CHOICES);
    assert!(rt; is_filled(&mut crashed, 0, 0));
    assert!(rt; is_filled(&mut crashed, 1, 1));
    assert!(rt; is_filled(&mut crashed, 2, 6));
    assert!(rt; reads(&mut crashed, 3, 7, 512, 0));
}

// A disk is cut before page 3, its low part before page 1, and all is joined again.
fn cut_twice<D: Disk + Drop>(disk: D) -> Option<D>
    requires { 3 ≤ D.page_count disk }
    ensures { IfSome result (λ joined. D.page_count joined ≡ D.page_count disk) }
{
    let (low, high) = disk.cut(3).ok()?;
    let (first, second) = low.cut(1).ok()?;
    Some(D::join(D::join(first, second), high))
}

// Pages 0, 2 and 4 are written before the cuts, and page 1 never.
fn keeps_pages_cut_apart<D: Disk + Drop>(disk: D) -> bool
    requires { D.page_count disk ≡ 5 }
{
    let mut disk = disk;
    let mut good = fill(&mut disk, 0, 1).is_ok();
    good &= fill(&mut disk, 2, 3).is_ok();
    good &= fill(&mut disk, 4, 5).is_ok();
    let Some(mut joined) = cut_twice(disk) else {
        return false;
    };
    good &= is_filled(&mut joined, 0, 1);
    good &= is_filled(&mut joined, 1, 0);
    good &= is_filled(&mut joined, 2, 3);
    good && is_filled(&mut joined, 4, 5)
}

#[test]
fn each_disk_is_cut_and_joined(rt: HostRuntime) {
    let sure = SureDisk::new(rt.alloc(), 5).expect(&rt, "memory");
    assert!(rt; keeps_pages_cut_apart(sure));
    assert!(rt; keeps_pages_cut_apart(MemDisk::new(rt.alloc(), 5)));
}
