//! Crashes of runs that were left, and of runs that were stopped in the midst.

ghost use Rattle.jfs_script.specs.Script.{AllFit};

use crate::left::redone_tree;
use crate::same::front_of;
use crate::scripts::{ALL_KINDS, SYNCED, busy};
use crate::volume::{PAGES, left, lines_of};
use jfs_disk::{Choice, Fail, Kind, Part};
use jfs_plain::Line;
use std::alloc::{AllocError, Global};
use std::sync::Wait;
use std::test::*;
use std::thread::Threads;

/// What a crash leaves of each page, by a number: by nine numbers in a row each count of sectors is met for each page.
pub fn choices(alloc: Global, seed: u32) -> Result<Vec<Choice>, AllocError> {
    let mut all = Vec::new(alloc);
    for page in 0..PAGES {
        let mixed = page
            .wrapping_add(seed.wrapping_mul(40_503))
            .wrapping_mul(2_654_435_761)
            >> 8;
        let top = mixed % 3;
        all.push(Choice {
            page,
            base: (mixed >> 8) % (top + 1),
            top,
            sectors: page.wrapping_add(seed) % 9,
        })?;
    }
    Ok(all)
}

/// How many lines a volume holds after a crash and a redo, of those of a script, where these calls failed; `None` where it has no tree after so many or more as were told. Where none failed, it was left. The bytes of file 4 count once so many are told.
fn survives<R: Threads + Wait + Sync>(
    rt: &R,
    alloc: Global,
    lines: &[Line],
    synced: usize,
    fails: &[Fail],
    seed: u32,
) -> Option<usize>
    requires { AllFit lines.now }
{
    let came = left(rt, alloc, lines, fails)?;
    let known = if came.told < synced { 0 } else { 5 };
    let tree = redone_tree(alloc, came.disk.crashed(&choices(alloc, seed).ok()?))?;
    front_of(alloc, lines, came.told, &tree, known)
}

/// Calls of which one fails and those of its kind and part that follow it: the first ones, and how far apart they are.
static STOPS: [(Part, Kind, u64, u64); 4] = [
    (Part::High, Kind::Write, 1024, 9),
    (Part::High, Kind::Sync, 2, 7),
    (Part::Low, Kind::Write, 1, 5),
    (Part::Low, Kind::Sync, 1, 1),
];

/// How many crashes are looked at for each of them, and how many at one call. (bench/crashes looks at more.)
const CRASHES: u32 = 9;

const AT_ONE_CALL: u32 = 1;

/// Whether each of these crashes leaves a volume with what was told.
fn all_survive<R: Threads + Wait + Sync>(
    rt: &R,
    alloc: Global,
    lines: &[Line],
    synced: usize,
) -> bool
    requires { AllFit lines.now }
{
    for (part, kind, first, apart) in STOPS.iter() {
        for seed in 0..CRASHES {
            let fail = Fail {
                part: *part,
                kind: *kind,
                first: *first + u64::from(seed / AT_ONE_CALL) * *apart,
                last: u64::MAX,
            };
            if survives(rt, alloc, lines, synced, &[fail], seed).is_none() {
                return false;
            }
        }
    }
    true
}

#[test]
fn told_entries_survive_crashes(rt: HostRuntime) {
    let alloc = rt.alloc();
    let text = busy(alloc).expect(&rt, "memory");
    let lines = lines_of(alloc, &text).expect(&rt, "lines");
    assert!(rt; all_survive(&rt, alloc, &lines, SYNCED));
}

#[test]
fn told_entries_of_each_kind_survive_crashes(rt: HostRuntime) {
    let alloc = rt.alloc();
    let lines = lines_of(alloc, ALL_KINDS).expect(&rt, "lines");
    assert!(rt; all_survive(&rt, alloc, &lines, usize::MAX));
}

/// The same of a volume that is left behind so many lines.
fn survives_left<R: Threads + Wait + Sync>(
    rt: &R,
    alloc: Global,
    lines: &[Line],
    count: usize,
    seed: u32,
) -> Option<usize>
    requires { AllFit lines.now }
{
    survives(rt, alloc, lines.get(..count)?, SYNCED, &[], seed)
}

/// The lengths of fronts behind which the volume is left, and how many lines of them are held. Of the second one the last two are lazy.
static LEFT: [(usize, usize); 3] = [(9, 9), (41, 39), (79, 79)];

#[test]
fn volumes_that_are_left_survive_crashes(rt: HostRuntime) {
    let alloc = rt.alloc();
    let text = busy(alloc).expect(&rt, "memory");
    let lines = lines_of(alloc, &text).expect(&rt, "lines");
    for (count, wanted) in LEFT.iter() {
        for seed in 0..9 {
            let front = survives_left(&rt, alloc, &lines, *count, seed);
            assert!(rt; front == Some(*wanted), "{count} {seed}");
        }
    }
}

/// The script of forty changes of mode that wait for one group, each with 204 bytes of records. The group has three pages: behind the 36 bytes of the SYNCPT on the first one it has 19
/// whole changes, up to the end of the second one 39, and on the third the last COMMIT.
fn forty(alloc: Global) -> Result<Vec<u8>, AllocError> {
    let mut text = Vec::new(alloc);
    for i in 0..40u8 {
        text.extend_from_slice(b"lazy chmod / 07")?;
        text.push(b'0' + i / 8)?;
        text.push(b'0' + i % 8)?;
        text.push(b'\n')?;
    }
    text.extend_from_slice(b"sync\n")?;
    Ok(text)
}

/// Which sync of the log fails, which page is lost then, and how many of the changes are redone. A group's first page, whose front has other records, is synced before its other pages are written; page 0 isn't the log's.
static LOST: [(u64, u32, usize); 5] = [
    (2, 4095, 0),
    (2, 0, 19),
    (3, 3074, 19),
    (3, 3075, 39),
    (3, 0, 40),
];

/// How many of the changes are redone then, as the tree has it.
fn redone_of<R: Threads + Wait + Sync>(
    rt: &R,
    alloc: Global,
    lines: &[Line],
    sync: u64,
    page: u32,
) -> Option<usize>
    requires { AllFit lines.now }
{
    let fail = Fail {
        part: Part::High,
        kind: Kind::Sync,
        first: sync,
        last: sync,
    };
    let lost = Choice {
        page,
        base: 0,
        top: 0,
        sectors: 0,
    };
    let came = left(rt, alloc, lines, &[fail])?;
    let tree = redone_tree(alloc, came.disk.crashed(&[lost]))?;
    front_of(alloc, lines, came.told, &tree, 0)
}

#[test]
fn what_is_behind_a_lost_page_is_not_redone(rt: HostRuntime) {
    let alloc = rt.alloc();
    let text = forty(alloc).expect(&rt, "memory");
    let lines = lines_of(alloc, &text).expect(&rt, "lines");
    for (sync, page, wanted) in LOST.iter() {
        assert!(rt; redone_of(&rt, alloc, &lines, *sync, *page) == Some(*wanted));
    }
}
