//! Runs of scripts: how each ends, the text of its history, what is told, and the disk.

ghost use Rattle.jfs_script.specs.History.{IsRisingFrom};

use crate::scripts::ALL_KINDS;
use crate::volume::{PAGES, formatted, is_redone, lines_of, ran, superblock};
use jfs_check::check;
use jfs_disk::{Disk, MemDisk};
use jfs_run::{Ran, RunEnd};
use jfs_script::write_history;
use jfs_super::VolumeState;
use std::alloc::Global;
use std::sync::Wait;
use std::test::*;
use std::thread::Threads;

/// The text of a run's history.
fn text_of<D>(alloc: Global, ran: &Ran<D>) -> Option<String>
    requires { IsRisingFrom 1 ran.now.told.items }
{
    let mut out = Vec::new(alloc);
    match write_history(alloc, ran.history.as_slice(), ran.told.as_slice(), &mut out) {
        Ok(()) => String::from_utf8(out).ok(),
        Err(_) => None,
    }
}

/// How a run ends, the text of its history, and the entries that are told.
pub struct Wanted {
    pub end: RunEnd,
    pub text: &'static str,
    pub told: &'static [u64],
}

/// The disk after a script is run that ends so; `None` where it doesn't.
pub fn after<R: Threads + Wait + Sync>(
    rt: &R,
    alloc: Global,
    disk: MemDisk,
    script: &[u8],
    is_left: bool,
    wanted: &Wanted,
) -> Option<MemDisk> {
    let lines = lines_of(alloc, script)?;
    let ran = ran(rt, alloc, disk, &lines, is_left)?;
    let text = text_of(alloc, &ran)?;
    let is_so = ran.end == wanted.end && ran.told.as_slice() == wanted.told;
    if is_so && text.as_str() == wanted.text {
        Some(ran.disk)
    } else {
        None
    }
}

/// The same of a volume that wasn't unmounted, once it is redone.
pub fn after_redo<R: Threads + Wait + Sync>(
    rt: &R,
    alloc: Global,
    disk: MemDisk,
    script: &[u8],
    wanted: &Wanted,
) -> Option<MemDisk> {
    let mut disk = disk;
    if !is_redone(alloc, &mut disk) {
        return None;
    }
    after(rt, alloc, disk, script, false, wanted)
}

/// Whether so many calls of a disk failed, and its superblock says this state.
pub fn says(disk: &mut MemDisk, faults: u64, state: VolumeState) -> bool {
    let is_whole = disk.faults() == faults && disk.pages() == PAGES;
    match superblock(disk) {
        Some(s) => is_whole && s.state == state,
        None => false,
    }
}

/// Whether a check of a disk finds nothing, and so many free blocks and inodes in use.
pub fn has_counts(alloc: Global, disk: &mut MemDisk, free: u32, inodes: u32) -> bool {
    let Some(s) = superblock(disk) else {
        return false;
    };
    match check(alloc, disk, &s) {
        Ok(checked) => {
            checked.findings.is_empty() && checked.free == free && checked.inodes == inodes
        }
        Err(_) => false,
    }
}

const ALL_ENTRIES: &'static str = "1 1.1 ok +
2 1.2 ok +
3 1.3 ok +
4 1.4 ok +
5 1.5 ok +
6 1.6 bytes 41424344452e2e -
7 1.7 names 1 a -
8 1.8 ok -
9 1.9 ok +
10 1.10 bytes 4243 -
11 1.11 ok +
12 1.12 target d -
13 1.13 ok +
14 1.14 ok +
15 1.15 ok +
16 1.16 refused 1 NotFound -
17 1.17 stat file 0600 1 0 0 7 5 2000 -
18 1.18 ok +
19 1.19 names 2 c s -
";

static ALL: Wanted = Wanted {
    end: RunEnd::Done,
    text: ALL_ENTRIES,
    told: &[1, 2, 3, 4, 5, 9, 11, 13, 14, 15, 18],
};

// Inode 4 was the directory's; the file and the link are 5 and 6. The file has a block.
#[test]
fn a_call_of_each_kind(rt: HostRuntime) {
    let alloc = rt.alloc();
    let disk = formatted(alloc, &[]).expect(&rt, "a disk");
    let mut disk = after(&rt, alloc, disk, ALL_KINDS, false, &ALL).expect(&rt, "a run");
    assert!(rt; says(&mut disk, 0, VolumeState::CLEAN));
    assert!(rt; has_counts(alloc, &mut disk, 2974, 6));
}

static LAZY: Wanted = Wanted {
    end: RunEnd::Done,
    text: "1 1.1 ok -\n2 1.2 ok -\n",
    told: &[],
};

static READ: Wanted = Wanted {
    end: RunEnd::Done,
    text: "1 1.3 bytes 41 -\n",
    told: &[],
};

// What one run leaves, the next one finds.
#[test]
fn a_second_run(rt: HostRuntime) {
    let alloc = rt.alloc();
    let disk = formatted(alloc, &[]).expect(&rt, "a disk");
    let script = b"lazy create /a 0644\nlazy write /a 0 41\n";
    let disk = after(&rt, alloc, disk, script, false, &LAZY).expect(&rt, "a run");
    let script = b"# nothing\n\nread /a 0 4\n";
    assert!(rt; after(&rt, alloc, disk, script, false, &READ).is_some());
}

static NOTHING: Wanted = Wanted {
    end: RunEnd::Done,
    text: "",
    told: &[],
};

#[test]
fn no_lines(rt: HostRuntime) {
    let alloc = rt.alloc();
    let disk = formatted(alloc, &[]).expect(&rt, "a disk");
    let mut disk = after(&rt, alloc, disk, b"", false, &NOTHING).expect(&rt, "a run");
    assert!(rt; has_counts(alloc, &mut disk, 2975, 4));
}

static LEFT: Wanted = Wanted {
    end: RunEnd::Done,
    text: "1 1.1 ok +\n2 1.2 ok -\n",
    told: &[1],
};

// A volume that is left says that it is mounted.
#[test]
fn a_volume_is_left(rt: HostRuntime) {
    let alloc = rt.alloc();
    let disk = formatted(alloc, &[]).expect(&rt, "a disk");
    let script = b"mkdir /a 0755\nlazy mkdir /b 0755\n";
    let mut disk = after(&rt, alloc, disk, script, true, &LEFT).expect(&rt, "a run");
    assert!(rt; says(&mut disk, 0, VolumeState::MOUNTED));
}
