//! The command `format`, and what `super` and `log` then print. Texts are worked out by hand.

use crate::refusals::change;
use crate::volume::{
    LINES, after, after_number, disk_with, failing, fails_at, is_wrong_word, sound_page, status_of,
};
use jfs_command::Status;
use jfs_disk::{Disk, Fail, Kind, MemDisk, Page};
use jfs_io::SureSink;
use std::alloc::Global;
use std::sync::Wait;
use std::thread::Threads;

const UUID: &str = "00112233-4455-6677-8899-aabbccddeeff";

const FORMATTED: &str = "formatted 3008 blocks, 2975 free\n";

const LOG: &str = "4190252 0 SYNCPT 0\nlog 1 records, end 4190252\n";

/// Words, and the place of the first that leaves the grammar.
static WRONG_WORDS: [(&[&str], u32); 15] = [
    (&["format"], 2),
    (&["format", "-I", UUID], 2),
    (&["format", "I"], 3),
    (&["format", "I", ""], 3),
    (&["format", "I", "00112233-4455-6677-8899-aabbccddeef"], 3),
    (&["format", "I", "00112233-4455-6677-8899-aabbccddeefg"], 3),
    (&["format", "I", "{00112233445566778899aabbccddeeff}"], 3),
    (&["format", "I", "-", "data"], 3),
    (&["format", "I", UUID, ""], 4),
    (&["format", "I", UUID, "-data"], 4),
    (&["format", "I", UUID, "two words"], 4),
    (&["format", "I", UUID, "d\u{e4}ta"], 4),
    (&["format", "I", UUID, "seventeen.bytes.."], 4),
    (&["format", "I", UUID, "", "more"], 4),
    (&["format", "I", UUID, "data", "more"], 5),
];

/// The forms in which a UUID may stand.
static FORMS: [&str; 5] = [
    UUID,
    "00112233445566778899aabbccddeeff",
    "{00112233-4455-6677-8899-aabbccddeeff}",
    "urn:uuid:00112233-4455-6677-8899-aabbccddeeff",
    "00112233-4455-6677-8899-AABBCCDDEEFF",
];

/// A disk of so many pages with an older superblock, whose magic is another one.
fn old_disk(alloc: Global, pages: u32) -> Option<MemDisk> {
    disk_with(alloc, pages, &old_page())
}

fn old_page() -> Page {
    let mut page = sound_page();
    change(&mut page, &[(0, 4, 0x3246_534a), (152, 8, 0x6f6c64)]);
    page
}

/// Page 8 as it reads.
fn page8(disk: &mut MemDisk) -> Option<Page> {
    let mut page = Page::zeros();
    if disk.pages() <= 8 {
        return None;
    }
    disk.read(8, &mut page).ok()?;
    Some(page)
}

/// Whether page 8 is as it was.
fn is_left(disk: Option<MemDisk>) -> Option<bool> {
    let page = page8(&mut disk?)?;
    Some(page.0.as_slice() == old_page().0.as_slice())
}

#[test]
fn names_the_wrong_word_of_format(rt: HostRuntime) {
    for (words, place) in WRONG_WORDS.iter() {
        let alloc = rt.alloc();
        let is_so = is_wrong_word(&rt, alloc, words, *place, Some(MemDisk::new(alloc, 4096)));
        assert!(rt; is_so == Some(true), "{words:?}");
    }
}

#[test]
fn a_new_volume_is_described(rt: HostRuntime) {
    let alloc = rt.alloc();
    for uuid in FORMS.iter() {
        let words = ["format", "I", *uuid, "data"];
        let disk = after(
            &rt,
            alloc,
            &words,
            old_disk(alloc, 4096),
            Status::Done,
            FORMATTED,
        );
        let disk = after(&rt, alloc, &["super", "I"], disk, Status::Done, LINES);
        let disk = after(&rt, alloc, &["log", "I"], disk, Status::Done, LOG);
        assert!(rt; disk.is_some(), "{uuid}");
    }
}

/// Words, and the label that is then printed.
static LABELS: [(&[&str], &str); 3] = [
    (&["format", "I", UUID], "-"),
    (
        &["format", "I", UUID, "sixteen%bytes~!@"],
        "sixteen%25bytes~!@",
    ),
    (&["format", "I", UUID, "a"], "a"),
];

/// Whether a volume is described with this label.
fn has_label<R: Threads + Wait + Sync>(
    rt: &R,
    alloc: Global,
    disk: Option<MemDisk>,
    label: &str,
) -> Option<bool> {
    let lines = LINES.strip_suffix("data\n")?;
    let text = format!(in alloc; "{lines}{label}\n").ok()?;
    Some(after(
        rt,
        alloc,
        &["super", "I"],
        disk,
        Status::Done,
        text.as_str(),
    )
    .is_some())
}

#[test]
fn labels_stand_whole_or_not_at_all(rt: HostRuntime) {
    for (words, label) in LABELS.iter() {
        let alloc = rt.alloc();
        let disk = after(
            &rt,
            alloc,
            words,
            old_disk(alloc, 4096),
            Status::Done,
            FORMATTED,
        );
        assert!(rt; has_label(&rt, alloc, disk, label) == Some(true), "{label}");
    }
}

/// The disk after a size was refused.
fn refused_size<R: Threads + Wait + Sync>(rt: &R, alloc: Global, pages: u32) -> Option<MemDisk> {
    let text = format!(in alloc; "jfsd: bad size: {pages}\n").ok()?;
    let disk = old_disk(alloc, pages);
    after_number(rt, alloc, &["format", "I", UUID], disk, 12, text.as_str())
}

#[test]
fn a_disk_of_another_size_is_left_alone(rt: HostRuntime) {
    let alloc = rt.alloc();
    for pages in [0, 1] {
        assert!(rt; refused_size(&rt, alloc, pages).is_some(), "{pages}");
    }
    assert!(rt; is_left(refused_size(&rt, alloc, 4095)) == Some(true));
}

/// Whether a fault ends the command and leaves page 8.
fn is_fault<R: Threads + Wait + Sync>(rt: &R, alloc: Global, fail: Fail) -> bool {
    let disk = failing(alloc, old_disk(alloc, 4096), fail);
    let text = "jfsd: disk fault\n";
    let words = ["format", "I", UUID];
    is_left(after(rt, alloc, &words, disk, Status::DiskFault, text)) == Some(true)
}

#[test]
fn a_failed_call_leaves_page_8(rt: HostRuntime) {
    // 24 pages in front, 1,022 ring pages and the log's superblock are written before a sync, and then page 8.
    let alloc = rt.alloc();
    assert!(rt; is_fault(&rt, alloc, fails_at(Kind::Sync, 1, u64::MAX)));
    for n in 1..1048 {
        if n <= 40 || 1020 <= n {
            assert!(rt;
                is_fault(&rt, alloc, fails_at(Kind::Write, n, u64::MAX)),
                "{n}"
            );
        }
    }
}

/// A kind of calls, the first that fails, and the status.
static LAST_CALLS: [(Kind, u64, u8); 5] = [
    (Kind::Write, 1048, 7),
    (Kind::Sync, 2, 7),
    (Kind::Write, 1049, 0),
    (Kind::Sync, 3, 0),
    (Kind::Read, 1, 0),
];

/// The number of the status where a disk fails so.
fn number_where<R: Threads + Wait + Sync>(rt: &R, alloc: Global, fail: Fail) -> Option<u8> {
    let disk = failing(alloc, old_disk(alloc, 4096), fail);
    let mut out = SureSink::new(alloc);
    let status = status_of(rt, alloc, &["format", "I", UUID], disk, &mut out)?;
    Some(status.number())
}

#[test]
fn the_last_calls_count_too(rt: HostRuntime) {
    for (kind, first, number) in LAST_CALLS.iter() {
        let fail = fails_at(*kind, *first, u64::MAX);
        assert!(rt;
            number_where(&rt, rt.alloc(), fail) == Some(*number),
            "{first}"
        );
    }
}
