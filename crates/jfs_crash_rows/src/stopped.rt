//! A redo that is stopped at one of its calls on the disk, and made again.

ghost use Rattle.jfs_script.specs.Script.{AllFit};

use crate::crashes::choices;
use crate::runs::has_counts;
use crate::scripts::busy;
use crate::volume::{
    BLOCKS, failing, is_redone, is_sound, is_unmounted, left, lines_of, transactions_redone,
};
use jfs_disk::{Choice, Disk, Fail, Kind, MemDisk, Page, Part};
use jfs_plain::Line;
use std::alloc::Global;
use std::sync::Wait;
use std::test::*;
use std::thread::Threads;

/// How many lines of the script are redone.
const FRONT: usize = 52;

/// What became of a redo that was stopped.
#[derive(Clone, Copy, PartialEq, Eq, Debug)]
enum Outcome {
    /// It has no such call.
    Not,
    /// The next redo gave the same as one that isn't stopped.
    Same,
    /// The page from which on it didn't.
    Other(u32),
    Unsound,
}

/// The first page of the file system part at which two disks differ.
fn first_difference(a: &mut MemDisk, b: &mut MemDisk) -> Option<u32> {
    let mut page = Page::zeros();
    let mut other = Page::zeros();
    for n in 0..BLOCKS {
        if n >= a.pages() || n >= b.pages() {
            return Some(n);
        }
        if a.read(n, &mut page).is_err() || b.read(n, &mut other).is_err() || page.0 != other.0 {
            return Some(n);
        }
    }
    None
}

/// A disk that is left behind so many lines, where nothing is pending.
fn rested<R: Threads + Wait + Sync>(
    rt: &R,
    alloc: Global,
    lines: &[Line],
    count: usize,
) -> Option<MemDisk>
    requires { AllFit lines.now }
{
    let came = left(rt, alloc, lines.get(..count)?, &[])?;
    Some(came.disk.crashed(&[]))
}

/// A redo of which all calls of a kind fail from this one on, then a crash, and a redo that is beside the one that wasn't stopped.
fn stopped<R: Threads + Wait + Sync>(
    rt: &R,
    alloc: Global,
    lines: &[Line],
    whole: &mut MemDisk,
    kind: Kind,
    first: u64,
) -> Option<Outcome>
    requires { AllFit lines.now }
{
    let fail = Fail {
        part: Part::Whole,
        kind,
        first,
        last: u64::MAX,
    };
    let mut disk = failing(alloc, rested(rt, alloc, lines, FRONT)?, &[fail])?;
    if is_redone(alloc, &mut disk) {
        return Some(Outcome::Not);
    }
    let mut disk = disk.crashed(&choices(alloc, u32::try_from(first).ok()?).ok()?);
    if !is_redone(alloc, &mut disk) || !is_unmounted(&mut disk) || !is_sound(alloc, &mut disk) {
        return Some(Outcome::Unsound);
    }
    match first_difference(&mut disk, whole) {
        Some(n) => Some(Outcome::Other(n)),
        None => Some(Outcome::Same),
    }
}

/// How many calls of a kind a redo has at which it can be stopped so that the next one gives the same; and what comes then.
fn stops<R: Threads + Wait + Sync>(
    rt: &R,
    alloc: Global,
    lines: &[Line],
    kind: Kind,
) -> Option<(u64, Outcome)>
    requires { AllFit lines.now }
{
    let mut whole = rested(rt, alloc, lines, FRONT)?;
    if !is_redone(alloc, &mut whole) {
        return None;
    }
    for first in 1..100 {
        let came = stopped(rt, alloc, lines, &mut whole, kind, first)?;
        if came != Outcome::Same {
            return Some((first - 1, came));
        }
    }
    None
}

// Five pages of the maps are written, page 8, and pages that redo changes.
#[test]
fn a_redo_that_is_stopped_is_made_again(rt: HostRuntime) {
    let alloc = rt.alloc();
    let text = busy(alloc).expect(&rt, "memory");
    let lines = lines_of(alloc, &text).expect(&rt, "lines");
    let (writes, came) = stops(&rt, alloc, &lines, Kind::Write).expect(&rt, "a redo");
    assert!(rt; writes > 6 && came == Outcome::Not);
    assert!(rt; stops(&rt, alloc, &lines, Kind::Sync) == Some((2, Outcome::Not)));
}

/// A directory, a file in it, and its 65,536 bytes: 16 blocks.
const THREE: &'static [u8] = b"mkdir /a 0755\ncreate /a/f 0644\nfill /a/f 0 65536 41\n";

/// How many transactions are redone, and whether the volume is clean then with 2,959 free blocks and 6 inodes, where a redo before that failed from its fourth write on and a crash left these contents.
fn redone_behind<R: Threads + Wait + Sync>(
    rt: &R,
    alloc: Global,
    lines: &[Line],
    left: &[Choice],
) -> Option<(u32, bool)>
    requires { AllFit lines.now }
{
    let fail = Fail {
        part: Part::Whole,
        kind: Kind::Write,
        first: 4,
        last: u64::MAX,
    };
    let mut disk = failing(alloc, rested(rt, alloc, lines, 3)?, &[fail])?;
    if is_redone(alloc, &mut disk) {
        return None;
    }
    let mut disk = disk.crashed(left);
    let count = transactions_redone(alloc, &mut disk)?;
    let is_so = is_unmounted(&mut disk) && has_counts(alloc, &mut disk, 2959, 6);
    Some((count, is_so))
}

// Of the writes before the fourth a crash leaves none, or front sectors of them.
#[test]
fn a_redo_that_fails_at_its_fourth_write(rt: HostRuntime) {
    let alloc = rt.alloc();
    let lines = lines_of(alloc, THREE).expect(&rt, "lines");
    assert!(rt; redone_behind(&rt, alloc, &lines, &[]) == Some((3, true)));
    for seed in 0..9 {
        let left = choices(alloc, seed).expect(&rt, "memory");
        assert!(rt;
            redone_behind(&rt, alloc, &lines, &left) == Some((3, true)),
            "{seed}"
        );
    }
}
