//! Runs on disks whose calls fail.

use crate::runs::{Wanted, after, after_redo, has_counts, says};
use crate::volume::formatted;
use jfs_disk::{Fail, Kind, MemDisk, Part};
use jfs_run::RunEnd;
use jfs_super::VolumeState;
use std::alloc::Global;
use std::test::*;

const TWO: &'static [u8] = b"mkdir /a 0755\nmkdir /b 0755\nlist /\n";

/// A disk with a new volume of which this call of a part fails.
fn faulty(alloc: Global, part: Part, kind: Kind, number: u64) -> Option<MemDisk> {
    let fail = Fail {
        part,
        kind,
        first: number,
        last: number,
    };
    formatted(alloc, &[fail])
}

static NOTHING: Wanted = Wanted {
    end: RunEnd::Disk,
    text: "",
    told: &[],
};

// The mount reads the superblock's page again: the test's own read is the first.
#[test]
fn nothing_was_mounted(rt: HostRuntime) {
    let alloc = rt.alloc();
    let disk = faulty(alloc, Part::Whole, Kind::Read, 2).expect(&rt, "a disk");
    let mut disk = after(&rt, alloc, disk, TWO, false, &NOTHING).expect(&rt, "a run");
    assert!(rt; says(&mut disk, 1, VolumeState::CLEAN));
    assert!(rt; has_counts(alloc, &mut disk, 2975, 4));
}

static HALTED: Wanted = Wanted {
    end: RunEnd::Disk,
    text: "1 1.1 ok -\n2 1.2 refused 12 ReadOnly log 1 -\n3 1.3 names 1 a -\n",
    told: &[],
};

static ONE_NAME: Wanted = Wanted {
    end: RunEnd::Done,
    text: "1 1.1 names 1 a -\n",
    told: &[],
};

// The log's first sync is the mount's, the second that of the first commit. The volume halts: what may change it is refused, what reads isn't.
#[test]
fn a_commit_fails(rt: HostRuntime) {
    let alloc = rt.alloc();
    let disk = faulty(alloc, Part::High, Kind::Sync, 2).expect(&rt, "a disk");
    let mut disk = after(&rt, alloc, disk, TWO, false, &HALTED).expect(&rt, "a run");
    assert!(rt; says(&mut disk, 1, VolumeState::MOUNTED));
    // its group was written, and a read gives it
    assert!(rt; after_redo(&rt, alloc, disk, b"list /\n", &ONE_NAME).is_some());
}

static BOTH: Wanted = Wanted {
    end: RunEnd::Disk,
    text: "1 1.1 ok +\n2 1.2 ok +\n3 1.3 names 2 a b -\n",
    told: &[1, 2],
};

static TWO_NAMES: Wanted = Wanted {
    end: RunEnd::Done,
    text: "1 1.1 names 2 a b -\n",
    told: &[],
};

// The low part's first sync is the mount's, the second that of the unmount's syncpoint: the volume stays mounted.
#[test]
fn an_unmount_fails(rt: HostRuntime) {
    let alloc = rt.alloc();
    let disk = faulty(alloc, Part::Low, Kind::Sync, 2).expect(&rt, "a disk");
    let mut disk = after(&rt, alloc, disk, TWO, false, &BOTH).expect(&rt, "a run");
    assert!(rt; says(&mut disk, 1, VolumeState::MOUNTED));
    assert!(rt; after_redo(&rt, alloc, disk, b"list /\n", &TWO_NAMES).is_some());
}

static UNSYNCED: Wanted = Wanted {
    end: RunEnd::Disk,
    text: "1 1.1 ok +\n2 1.2 refused 13 IoFault low 1 -\n3 1.3 refused 12 ReadOnly low 1 -\n",
    told: &[1],
};

// `sync` syncs the low part, for the second time, and is refused for its fault.
#[test]
fn a_sync_fails(rt: HostRuntime) {
    let alloc = rt.alloc();
    let disk = faulty(alloc, Part::Low, Kind::Sync, 2).expect(&rt, "a disk");
    let script = b"mkdir /a 0755\nsync\nlazy rmdir /a\n";
    assert!(rt; after(&rt, alloc, disk, script, false, &UNSYNCED).is_some());
}

static ONE: Wanted = Wanted {
    end: RunEnd::Disk,
    text: "1 1.1 ok +\n",
    told: &[1],
};

// The sync behind the joined parts fails: the image is whole, and says that it was unmounted.
#[test]
fn the_last_sync_fails(rt: HostRuntime) {
    let alloc = rt.alloc();
    let disk = faulty(alloc, Part::Whole, Kind::Sync, 1).expect(&rt, "a disk");
    let mut disk = after(&rt, alloc, disk, b"mkdir /a 0755\n", false, &ONE).expect(&rt, "a run");
    assert!(rt; says(&mut disk, 1, VolumeState::CLEAN));
    assert!(rt; has_counts(alloc, &mut disk, 2975, 5));
}
