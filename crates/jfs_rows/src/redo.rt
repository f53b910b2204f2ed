//! The command `redo`, on new volumes whose state is another. Texts are worked out by hand.

use crate::check::{CLEAN, altered, new_volume};
use crate::faults::faults_of;
use crate::refusals::Change;
use crate::volume::{
    Script, after, after_number, came, failing_all, fails_at, is_wrong_word, run, sound_disk,
};
use jfs_command::Status;
use jfs_disk::{Disk, Fail, Kind, MemDisk, Page};
use jfs_io::SureSink;
use std::alloc::Global;
use std::sync::Wait;
use std::thread::Threads;

const WORDS: [&str; 2] = ["redo", "I"];

const UNMOUNTED: &str = "redo clean\n";

const NONE: &str = "redo 0 transactions\n";

/// The state of the volume stands there on page 8, and says that it is mounted.
const MOUNTED: (u32, Change) = (8, (40, 4, 1));

/// A new volume with these changes of its pages, each of one number.
fn changed<R: Threads + Wait + Sync>(
    rt: &R,
    alloc: Global,
    changes: &[(u32, Change)],
) -> Option<MemDisk> {
    let mut disk = new_volume(rt, alloc);
    for (n, changed) in changes {
        disk = altered(disk, *n, *changed);
    }
    disk
}

/// All writes and syncs fail.
fn read_only(alloc: Global, disk: Option<MemDisk>) -> Option<MemDisk> {
    let fails = [
        fails_at(Kind::Write, 1, u64::MAX),
        fails_at(Kind::Sync, 1, u64::MAX),
    ];
    failing_all(alloc, disk, &fails)
}

#[test]
fn of_a_clean_volume_nothing_is_written(rt: HostRuntime) {
    let alloc = rt.alloc();
    let disk = read_only(alloc, new_volume(&rt, alloc));
    let disk = after(&rt, alloc, &WORDS, disk, Status::Done, UNMOUNTED);
    assert!(rt; faults_of(&disk) == Some(0));
}

#[test]
fn a_mounted_volume_is_redone_once(rt: HostRuntime) {
    let alloc = rt.alloc();
    let disk = changed(&rt, alloc, &[MOUNTED]);
    let disk = after(&rt, alloc, &WORDS, disk, Status::Done, NONE);
    let disk = after(&rt, alloc, &WORDS, disk, Status::Done, UNMOUNTED);
    let disk = after(&rt, alloc, &["check", "I"], disk, Status::Done, CLEAN);
    assert!(rt; disk.is_some());
}

/// On the log's last page, behind its SYNCPT, a transaction that puts the number 7 at the start of line 28 of page 29: a REDOPAGE with one line, and a COMMIT.
#[rattlefmt::skip]
static ONE_LINE: [(u32, Change); 15] = [
    (4095, (44, 4, 7)), (4095, (172, 2, 28)), (4095, (174, 2, 1)),
    (4095, (176, 4, 1)), (4095, (184, 2, 0x0800)), (4095, (186, 2, 132)), (4095, (192, 4, 16)), (4095, (196, 4, 0)), (4095, (200, 2, 1)), (4095, (202, 2, 7)),
    (4095, (204, 4, 1)), (4095, (208, 4, 29)),
    (4095, (212, 4, 1)), (4095, (216, 4, 4190420)), (4095, (220, 2, 0x8000)),
];

/// Where the text of that page ends, at both of its ends.
const ENDS: [(u32, Change); 2] = [(4095, (6, 2, 248)), (4095, (4094, 2, 248))];

/// A mounted volume with that transaction in its log.
fn with_one_line<R: Threads + Wait + Sync>(rt: &R, alloc: Global) -> Option<MemDisk> {
    let mut disk = changed(rt, alloc, &ONE_LINE);
    for (n, changed) in [ENDS[0], ENDS[1], MOUNTED] {
        disk = altered(disk, n, changed);
    }
    disk
}

/// The number that stands at the start of line 28 of page 29.
fn line_of(disk: Option<MemDisk>) -> Option<u8> {
    let mut disk = disk?;
    if disk.pages() < 30 {
        return None;
    }
    let mut page = Page::zeros();
    disk.read(29, &mut page).ok()?;
    Some(page.0[3584])
}

#[test]
fn a_transaction_is_redone(rt: HostRuntime) {
    let alloc = rt.alloc();
    assert!(rt; line_of(with_one_line(&rt, alloc)) == Some(0));
    let disk = with_one_line(&rt, alloc);
    let disk = after(
        &rt,
        alloc,
        &WORDS,
        disk,
        Status::Done,
        "redo 1 transactions\n",
    );
    let disk = after(&rt, alloc, &["check", "I"], disk, Status::Done, CLEAN);
    assert!(rt; line_of(disk) == Some(7));
}

/// A change of the root's mode, and then so many that find it as they want it: each has a COMMIT.
fn chmods(alloc: Global, count: u32) -> Option<String> {
    let mut text = String::new(alloc);
    text.push_str("chmod / 0700\n").ok()?;
    for _ in 0..count {
        text.push_str("chmod / 0711\n").ok()?;
    }
    Some(text)
}

/// The disk of a new volume that is left after these calls, and whether its log ends so.
fn left_with<R: Threads + Wait + Sync>(
    rt: &R,
    alloc: Global,
    script: &str,
    end: &str,
) -> Option<(MemDisk, bool)> {
    let mut out = SureSink::new(alloc);
    let disk = new_volume(rt, alloc)?;
    let words = ["run", "--leave", "I", "S"];
    let left = run(rt, alloc, &words, Script::of(script), disk, &mut out)?.disk;
    let mut out = SureSink::new(alloc);
    let came = came(rt, alloc, &["log", "I"], Some(left), &mut out)?;
    Some((came.disk, out.bytes().ends_with(end.as_bytes())))
}

// The last page of the ring ends with the COMMIT of transaction 103, and its first one has that of 104.
#[test]
fn a_log_that_goes_round_its_ring_is_redone(rt: HostRuntime) {
    let alloc = rt.alloc();
    let script = chmods(alloc, 103).expect(&rt, "memory");
    let end =
        "4194260 102 COMMIT\n4194296 103 COMMIT\n8236 104 COMMIT\nlog 107 records, end 8236\n";
    let (disk, is_so) = left_with(&rt, alloc, script.as_str(), end).expect(&rt, "memory");
    assert!(rt; is_so);
    let redone = "redo 104 transactions\n";
    let disk = after(&rt, alloc, &WORDS, Some(disk), Status::Done, redone);
    let disk = after(&rt, alloc, &["check", "I"], disk, Status::Done, CLEAN);
    assert!(rt; disk.is_some());
}

/// Changes of a mounted volume, the status's number, and the text. The label stands at byte 52 of the log's second page, 3073; the block map tells its volume's size on page 16.
static REFUSED: [(&[(u32, Change)], u8, &str); 8] = [
    (
        &[MOUNTED, (8, (0, 4, 0))],
        3,
        "jfsd: bad image: page 8 rule magic value 0\n",
    ),
    (
        &[MOUNTED, (3073, (52, 8, 0x72_6568_746f)), (3073, (60, 8, 0))],
        9,
        "jfsd: foreign log: other\n",
    ),
    (
        &[MOUNTED, (3073, (0, 4, 5))],
        10,
        "jfsd: bad log: address 4096 rule super\n",
    ),
    (
        &[MOUNTED, (16, (0, 8, 3007))],
        3,
        "jfsd: bad image: page 16 rule mapsize value 3007\n",
    ),
    // The log comes before the maps.
    (
        &[MOUNTED, (16, (0, 8, 3007)), (3073, (0, 4, 5))],
        10,
        "jfsd: bad log: address 4096 rule super\n",
    ),
    // Of other states neither is looked at.
    (
        &[(8, (40, 4, 2)), (3073, (0, 4, 5))],
        3,
        "jfsd: bad image: page 8 rule state value 2\n",
    ),
    (
        &[(8, (40, 4, 4))],
        3,
        "jfsd: bad image: page 8 rule state value 4\n",
    ),
    (
        &[(8, (40, 4, 8))],
        3,
        "jfsd: bad image: page 8 rule state value 8\n",
    ),
];

#[test]
fn what_is_refused_is_left_alone(rt: HostRuntime) {
    let alloc = rt.alloc();
    for (changes, number, text) in REFUSED.iter() {
        let disk = read_only(alloc, changed(&rt, alloc, changes));
        let disk = after_number(&rt, alloc, &WORDS, disk, *number, text);
        assert!(rt; faults_of(&disk) == Some(0), "{text}");
    }
}

/// Words, and the place of the first that leaves the grammar.
static WRONG_WORDS: [(&[&str], u32); 4] = [
    (&["redo"], 2),
    (&["redo", "-I"], 2),
    (&["redo", "I", "x"], 3),
    (&["redo ", "I"], 1),
];

#[test]
fn names_the_wrong_word(rt: HostRuntime) {
    let alloc = rt.alloc();
    for (words, place) in WRONG_WORDS.iter() {
        let is_so = is_wrong_word(&rt, alloc, words, *place, sound_disk(alloc));
        assert!(rt; is_so == Some(true), "{words:?}");
    }
}

/// The disk after a call on it failed and ended the command; `None` where it didn't.
fn after_fault<R: Threads + Wait + Sync>(rt: &R, alloc: Global, fail: Fail) -> Option<MemDisk> {
    let disk = failing_all(alloc, changed(rt, alloc, &[MOUNTED]), &[fail]);
    let text = "jfsd: disk fault\n";
    after(rt, alloc, &WORDS, disk, Status::DiskFault, text)
}

/// Whether a second redo ends all, and a check then finds nothing.
fn ends_all<R: Threads + Wait + Sync>(
    rt: &R,
    alloc: Global,
    disk: Option<MemDisk>,
) -> Option<bool> {
    let mut out = SureSink::new(alloc);
    let again = came(rt, alloc, &WORDS, disk, &mut out)?;
    if again.status != Status::Done {
        return Some(false);
    }
    let disk = after(
        rt,
        alloc,
        &["check", "I"],
        Some(again.disk),
        Status::Done,
        CLEAN,
    );
    Some(disk.is_some())
}

/// Kinds of calls, and which of them fails: page 8, the log, the maps and the inodes are read; five pages of the maps are written before a sync, and page 8 before another.
static FAULTS: [(Kind, u64); 10] = [
    (Kind::Read, 1),
    (Kind::Read, 2),
    (Kind::Read, 1000),
    (Kind::Read, 1540),
    (Kind::Write, 1),
    (Kind::Write, 2),
    (Kind::Write, 5),
    (Kind::Write, 6),
    (Kind::Sync, 1),
    (Kind::Sync, 2),
];

#[test]
fn a_redo_that_a_fault_ended_is_made_again(rt: HostRuntime) {
    let alloc = rt.alloc();
    for (kind, n) in FAULTS.iter() {
        let disk = after_fault(&rt, alloc, fails_at(*kind, *n, *n));
        assert!(rt; faults_of(&disk) == Some(1), "{n}");
        assert!(rt; ends_all(&rt, alloc, disk) == Some(true), "{n}");
    }
}
