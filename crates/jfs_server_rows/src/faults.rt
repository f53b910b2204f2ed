//! Runs of one and of four clients on disks of which one call fails, each in turn.

use crate::gates::Rounds;
use crate::history::{front_of, have_lines, is_for_fault, is_legal};
use crate::scripts::Work;
use crate::volume::{crashed, ran, redone_tree};
use jfs_disk::{Disk, Fail, Kind, MemDisk, Part};
use jfs_plain::Entry;
use jfs_run::{Ran, RunEnd};
use std::alloc::Global;
use std::sync::Wait;
use std::test::*;
use std::thread::Threads;

/// What came of a run on a disk.
#[derive(Clone, Copy)]
enum Came {
    /// No call on the disk failed.
    Whole,
    /// One did, and all is as it has to be.
    Failed,
    /// A client waited in vain or has other entries than its lines, a reply isn't the plain tree's, or what was told isn't found again.
    Wrong,
}

/// Runs of clients, and how their disk is looked at behind them.
#[derive(Clone, Copy)]
struct Runs {
    work: Work,
    clients: u32,
    /// How many lines each client has.
    lines: u32,
    /// Behind a crash that lost each write since the last sync, without the bytes of files; else as the run left it, with them.
    is_crashed: bool,
}

/// Whether a run's entries are as they have to be: none, where a failed call kept the volume from being mounted, or one for each line with the plain tree's reply. Where no call failed, none was refused for a fault. `None`
/// where there is no memory.
fn is_right(
    alloc: Global,
    runs: Runs,
    history: &[Entry],
    gate: &Rounds,
    is_whole: bool,
) -> Option<bool> {
    if history.is_empty() {
        return Some(!is_whole && gate.are_done(0, 0));
    }
    if !gate.are_done(u64::from(runs.lines), 0) || !have_lines(history, runs.clients, runs.lines) {
        return Some(false);
    }
    if is_whole && history.iter().any(|entry| is_for_fault(&entry.reply)) {
        return Some(false);
    }
    is_legal(alloc, history)
}

/// Whether what a run told is found again on its disk, which is redone where it is mounted.
fn is_kept(
    alloc: Global,
    runs: Runs,
    disk: MemDisk,
    history: &[Entry],
    told: &[u64],
) -> Option<bool> {
    let last = told.last().copied().unwrap_or(0);
    let disk = if runs.is_crashed {
        crashed(alloc, disk)?
    } else {
        disk.crashed(&[])
    };
    let tree = redone_tree(alloc, disk)?;
    Some(front_of(alloc, history, last, &tree, !runs.is_crashed).is_some())
}

/// A run on a disk of which this call fails.
fn came_of<R: Threads + Wait + Sync>(
    rt: &R,
    alloc: Global,
    runs: Runs,
    fail: Fail,
) -> Option<Came> {
    let gate = Rounds::new(runs.clients, false);
    let Ran {
        disk,
        end,
        history,
        told,
    } = ran(rt, alloc, runs.work, runs.clients, &[fail], false, &gate)?;
    let is_whole = disk.faults() == 0;
    // a run is done only where no call failed, and then it is
    if is_whole != matches!(end, RunEnd::Done) {
        return Some(Came::Wrong);
    }
    if !is_right(alloc, runs, history.as_slice(), &gate, is_whole)?
        || !is_kept(alloc, runs, disk, history.as_slice(), told.as_slice())?
    {
        return Some(Came::Wrong);
    }
    Some(if is_whole { Came::Whole } else { Came::Failed })
}

/// More calls of a kind aren't made.
const MOST: u64 = 100;

/// How many calls of a kind there are from one on, by runs of which each one fails in turn, up to a run that doesn't meet it. `Err` where something is wrong then: the number of the call.
fn failed<R: Threads + Wait + Sync>(
    rt: &R,
    alloc: Global,
    runs: Runs,
    part: Part,
    kind: Kind,
    from: u64,
) -> Result<u64, u64> {
    for i in 0..MOST {
        let number = from.wrapping_add(i);
        let fail = Fail {
            part,
            kind,
            first: number,
            last: number,
        };
        match came_of(rt, alloc, runs, fail) {
            Some(Came::Whole) => return Ok(i),
            Some(Came::Failed) => {}
            Some(Came::Wrong) | None => return Err(number),
        }
    }
    Err(MOST)
}

/// Calls of a disk that fail: their part and kind, from which one on, and how many of them there are at least.
type Calls = (Part, Kind, u64, u64);

/// Four clients, most of whose lines wait.
static SIX: Runs = Runs {
    work: Work::Six,
    clients: 4,
    lines: 6,
    is_crashed: true,
};

/// The calls on the whole disk, of which the first read is the test's, and those on files and directories.
static LOW: [Calls; 5] = [
    (Part::Whole, Kind::Read, 2, 1),
    (Part::Whole, Kind::Sync, 1, 1),
    (Part::Low, Kind::Read, 1, 4),
    (Part::Low, Kind::Write, 1, 6),
    (Part::Low, Kind::Sync, 1, 6),
];

/// Those on the log. A mount writes the whole log first.
static HIGH: [Calls; 2] = [
    (Part::High, Kind::Write, 1022, 8),
    (Part::High, Kind::Sync, 1, 8),
];

#[test]
fn each_call_on_files_fails_in_turn(rt: HostRuntime) {
    for (part, kind, from, least) in LOW.iter() {
        let count = failed(&rt, rt.alloc(), SIX, *part, *kind, *from);
        assert!(rt;
            matches!(count, Ok(count) if count >= *least),
            "{part:?} {from} {count:?}"
        );
    }
}

#[test]
fn the_log_is_not_read(rt: HostRuntime) {
    let count = failed(&rt, rt.alloc(), SIX, Part::High, Kind::Read, 1);
    assert!(rt; matches!(count, Ok(0)));
}

#[test]
fn each_call_on_the_log_fails_in_turn(rt: HostRuntime) {
    for (part, kind, from, least) in HIGH.iter() {
        let count = failed(&rt, rt.alloc(), SIX, *part, *kind, *from);
        assert!(rt;
            matches!(count, Ok(count) if count >= *least),
            "{part:?} {from} {count:?}"
        );
    }
}

/// One client that makes a directory with a file, and reads what it made.
static FIRST: Runs = Runs {
    work: Work::First,
    clients: 1,
    lines: 6,
    is_crashed: false,
};

/// The calls of its run. The log is synced by the mount and for each of the three lines that wait.
static ALL: [Calls; 7] = [
    (Part::Whole, Kind::Read, 2, 1),
    (Part::Whole, Kind::Sync, 1, 1),
    (Part::Low, Kind::Read, 1, 1),
    (Part::Low, Kind::Write, 1, 6),
    (Part::Low, Kind::Sync, 1, 2),
    (Part::High, Kind::Write, 1022, 5),
    (Part::High, Kind::Sync, 1, 4),
];

#[test]
fn each_call_of_one_client_fails_in_turn(rt: HostRuntime) {
    for (part, kind, from, least) in ALL.iter() {
        let count = failed(&rt, rt.alloc(), FIRST, *part, *kind, *from);
        assert!(rt;
            matches!(count, Ok(count) if count >= *least),
            "{part:?} {from} {count:?}"
        );
    }
}

/// Writes of the log by a mount, which then mounts nothing.
static MOUNTS: [u64; 3] = [1, 512, 1021];

#[test]
fn a_write_of_a_mount_fails(rt: HostRuntime) {
    for number in MOUNTS.iter() {
        let fail = Fail {
            part: Part::High,
            kind: Kind::Write,
            first: *number,
            last: *number,
        };
        let came = came_of(&rt, rt.alloc(), FIRST, fail);
        assert!(rt; matches!(came, Some(Came::Failed)), "{number}");
    }
}
