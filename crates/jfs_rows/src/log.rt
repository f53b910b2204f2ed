//! The commands `log` and `redo`, over logs that the tests write number by number. Texts and addresses are worked out by hand.

use crate::faults::faults_of;
use crate::refusals::{Change, change};
use crate::volume::{after, after_number, disk_with, failing_all, fails_at, sound_page};
use jfs_command::Status;
use jfs_disk::{Disk, Kind, MemDisk, Page};
use std::alloc::Global;
use std::sync::Wait;
use std::thread::Threads;

/// The page at which the log begins.
const LOG: u32 = 3072;

/// The log's superblock: magic, version, the number of pages, the block size and its logarithm, and this project's label.
const fn log_super(pages: u64) -> [Change; 7] {
    [
        (0, 4, 0x8765_4321),
        (4, 4, 1),
        (12, 4, pages),
        (16, 4, 4096),
        (20, 4, 12),
        (52, 8, u64::from_le_bytes(*b"jfsd pro")),
        (60, 8, u64::from_le_bytes(*b"file 1\0\0")),
    ]
}

/// A SYNCPT that names itself, and the transaction of one `chmod` of the root: a line of its inode, and a COMMIT. They stand on the
/// last page of a log of 1,024 pages.
#[rattlefmt::skip]
static ONE_CHMOD: [Change; 15] = [
    (16, 2, 0x4000),
    (172, 2, 8), (174, 2, 1),
    (176, 4, 1), (184, 2, 0x0800), (186, 2, 132), (192, 4, 16), (196, 4, 0), (200, 2, 1), (202, 2, 7), (204, 4, 1), (208, 4, 29),
    (212, 4, 1), (216, 4, 4190420), (220, 2, 0x8000),
];

const ONE_CHMOD_TEXT: &str = "\
4190252 0 SYNCPT 0
4190420 1 REDOPAGE 16 0 INODE 29 1 8+1
4190456 1 COMMIT
log 3 records, end 4190456
";

/// The same of a log of 256 pages, then a transaction with records of all other types, and a SYNCPT that gives its first one.
#[rattlefmt::skip]
static ALL_TYPES: [Change; 65] = [
    (16, 2, 0x4000),
    (172, 2, 8), (174, 2, 1),
    (176, 4, 1), (184, 2, 0x0800), (186, 2, 132), (192, 4, 16), (196, 4, 0), (200, 2, 1), (202, 2, 7), (204, 4, 1), (208, 4, 29),
    (212, 4, 1), (216, 4, 1044692), (220, 2, 0x8000),
    // a page that is freed
    (248, 4, 2), (256, 2, 0x0080), (264, 4, 16), (268, 4, 5), (272, 2, 4), (276, 4, 1), (280, 4, 40),
    // a new page of an extent tree, with ranges of two lines and of one
    (316, 2, 0), (318, 2, 2), (336, 2, 5), (338, 2, 1),
    (340, 4, 2), (344, 4, 1044764), (348, 2, 0x0800), (350, 2, 56), (356, 4, 16), (360, 4, 7), (364, 2, 0x0102), (366, 2, 4), (368, 4, 1), (372, 4, 41),
    // a line of a directory's page
    (408, 2, 3), (410, 2, 1),
    (412, 4, 2), (416, 4, 1044856), (420, 2, 0x0800), (422, 2, 36), (428, 4, 16), (432, 4, 2), (436, 2, 4), (438, 2, 5), (440, 4, 1), (444, 4, 42),
    // two runs that are allocated
    (448, 4, 1), (452, 4, 41), (456, 4, 8), (460, 4, 100),
    (464, 4, 2), (468, 4, 1044928), (472, 2, 8), (474, 2, 16), (480, 4, 16), (484, 4, 7), (488, 2, 0x40), (490, 2, 2),
    (544, 4, 2), (552, 2, 0x8000), (588, 2, 0x4000), (596, 4, 1044764), (548, 4, 1045024),
];

/// A run that is freed.
#[rattlefmt::skip]
static FREED: [Change; 10] = [
    (500, 4, 1), (504, 4, 40),
    (508, 4, 2), (512, 4, 1044980), (516, 2, 8), (518, 2, 8), (524, 4, 16), (528, 4, 5), (532, 2, 4), (534, 2, 1),
];

const ALL_TYPES_TEXT: &str = "\
1044764 2 NOREDOPAGE 16 5 DTREE 40 1
1044856 2 REDOPAGE 16 7 XTREE+NEW 41 1 0+2 5+1
1044928 2 REDOPAGE 16 2 DTREE 42 1 3+1
1044980 2 UPDATEMAP 16 7 ALLOC 41:1 100:8
1045024 2 UPDATEMAP 16 5 FREE 40:1
1045060 2 COMMIT
1045096 0 SYNCPT 1044764
log 7 records, end 1045096
";

/// Changes of page 1 or of the last page of that log of 256 pages, and the place and the rule that are answered.
#[rattlefmt::skip]
static BROKEN: [(u32, Change, u32, &str); 17] = [
    (1, (0, 4, 0), 4096, "super"),
    (1, (4, 4, 2), 4096, "super"),
    (1, (12, 4, 255), 4096, "super"),
    (255, (552, 2, 0x2000), 1045060, "type"),
    (255, (552, 2, 0), 1045060, "type"),
    (255, (554, 2, 4), 1045060, "length"),
    (255, (534, 2, 2), 1045024, "length"),
    (255, (438, 2, 4), 1044928, "lines"),
    (255, (410, 2, 2), 1044928, "range"),
    (255, (444, 4, 3008), 1044928, "place"),
    (255, (280, 4, 15), 1044764, "place"),
    (255, (488, 2, 0x80), 1044980, "kind"),
    (255, (548, 4, 0), 1045024, "chain"),
    (255, (544, 4, 3), 1045024, "chain"),
    (255, (252, 4, 1044728), 1044764, "chain"),
    (255, (596, 4, 1044765), 1045096, "sync"),
    (255, (596, 4, 4294967295), 1045096, "sync"),
];

/// Writes a page of the log in which these numbers stand, and zeros elsewhere.
fn put(disk: &mut MemDisk, n: u32, changes: &[&[Change]]) -> Option<()> {
    let mut page = Page::zeros();
    for some in changes {
        change(&mut page, some);
    }
    let place = LOG.checked_add(n)?;
    if place >= disk.pages() {
        return None;
    }
    disk.write(place, &page).ok()
}

/// Changes a page of the log.
fn alter(disk: &mut MemDisk, n: u32, changes: &[Change]) -> Option<()> {
    let mut page = Page::zeros();
    let place = LOG.checked_add(n)?;
    if place >= disk.pages() {
        return None;
    }
    disk.read(place, &mut page).ok()?;
    change(&mut page, changes);
    disk.write(place, &page).ok()
}

/// A sound volume in this state, with a log of so many pages in whose last page these numbers stand, and whose last record ends there.
fn disk_with_log(
    alloc: Global,
    state: u64,
    pages: u32,
    last: &[&[Change]],
    end: u64,
) -> Option<MemDisk> {
    let mut page8 = sound_page();
    change(&mut page8, &[(40, 4, state), (72, 4, pages.into())]);
    let mut disk = disk_with(alloc, 4096, &page8)?;
    put(&mut disk, 1, &[&log_super(pages.into())])?;
    let ring = pages.checked_sub(2)?;
    for q in 0..ring {
        let number = u64::from(q);
        let ends = [(0, 4, number), (6, 2, 8), (4088, 4, number), (4094, 2, 8)];
        put(&mut disk, q.checked_add(2)?, &[&ends])?;
    }
    let page = pages.checked_sub(1)?;
    for changes in last {
        alter(&mut disk, page, changes)?;
    }
    alter(&mut disk, page, &[(6, 2, end), (4094, 2, end)])?;
    Some(disk)
}

/// The log with records of all types, of a mounted volume.
fn all_types(alloc: Global) -> Option<MemDisk> {
    disk_with_log(alloc, 1, 256, &[&ALL_TYPES, &FREED], 616)
}

/// Whether the command `log` ends with this status and this text.
fn is_told<R: Threads + Wait + Sync>(
    rt: &R,
    alloc: Global,
    disk: Option<MemDisk>,
    number: u8,
    text: &str,
) -> bool {
    after_number(rt, alloc, &["log", "I"], disk, number, text).is_some()
}

#[test]
fn one_chmod_is_printed_in_every_state(rt: HostRuntime) {
    for state in [0, 1, 2, 4, 8] {
        let alloc = rt.alloc();
        let disk = disk_with_log(alloc, state, 1024, &[&ONE_CHMOD], 248);
        assert!(rt; is_told(&rt, alloc, disk, 0, ONE_CHMOD_TEXT), "{state}");
    }
}

#[test]
fn records_of_all_types_from_the_sync_address_on(rt: HostRuntime) {
    let alloc = rt.alloc();
    assert!(rt; is_told(&rt, alloc, all_types(alloc), 0, ALL_TYPES_TEXT));
}

/// The log with records of all types and changes of one page.
fn all_types_but(alloc: Global, n: u32, changes: &[Change]) -> Option<MemDisk> {
    let mut disk = all_types(alloc)?;
    alter(&mut disk, n, changes)?;
    Some(disk)
}

/// The same disk, on which no page can be written.
fn read_only(alloc: Global, disk: Option<MemDisk>) -> Option<MemDisk> {
    let fails = [
        fails_at(Kind::Write, 1, u64::MAX),
        fails_at(Kind::Sync, 1, u64::MAX),
    ];
    failing_all(alloc, disk, &fails)
}

/// Whether both commands end with this status and this text on such a disk, and try to write nothing.
fn is_refused<R: Threads + Wait + Sync>(
    rt: &R,
    alloc: Global,
    disk: Option<MemDisk>,
    number: u8,
    text: &str,
) -> bool {
    let mut disk = read_only(alloc, disk);
    for command in ["log", "redo"] {
        disk = after_number(rt, alloc, &[command, "I"], disk, number, text);
    }
    faults_of(&disk) == Some(0)
}

/// Whether a log breaks this rule at this address.
fn is_broken<R: Threads + Wait + Sync>(
    rt: &R,
    alloc: Global,
    disk: Option<MemDisk>,
    address: u32,
    rule: &str,
) -> Option<bool> {
    let text = format!(in alloc; "jfsd: bad log: address {address} rule {rule}\n").ok()?;
    Some(is_refused(rt, alloc, disk, 10, text.as_str()))
}

#[test]
fn a_broken_log_is_refused_by_its_rule(rt: HostRuntime) {
    for (n, changed, address, rule) in BROKEN.iter() {
        let alloc = rt.alloc();
        let disk = all_types_but(alloc, *n, &[*changed]);
        let is_so = is_broken(&rt, alloc, disk, *address, rule);
        assert!(rt; is_so == Some(true), "{rule} {address}");
    }
}

/// The log with two pages that are torn.
fn torn_twice(alloc: Global) -> Option<MemDisk> {
    let mut disk = all_types_but(alloc, 102, &[(4088, 4, 7)])?;
    alter(&mut disk, 202, &[(4088, 4, 7)])?;
    Some(disk)
}

#[test]
fn a_ring_without_a_half_that_stands(rt: HostRuntime) {
    let alloc = rt.alloc();
    // Page numbers 100 and 200 are torn, so no 127 pages in a row stand.
    let is_so = is_broken(&rt, alloc, torn_twice(alloc), 0, "ring");
    assert!(rt; is_so == Some(true));
    // No record ends in the newest half.
    let disk = disk_with_log(alloc, 1, 256, &[&ALL_TYPES, &FREED], 8);
    let is_so = is_broken(&rt, alloc, disk, 0, "sync");
    assert!(rt; is_so == Some(true));
}

/// The two halves of a label, and what is told of it.
static LABELS: [(&[u8; 8], &[u8; 8], &str); 4] = [
    (b"other\0\0\0", &[0; 8], "jfsd: foreign log: other\n"),
    (&[0; 8], &[0; 8], "jfsd: foreign log: -\n"),
    (
        b"jfsd pro",
        b"file2\0\0\0",
        "jfsd: foreign log: jfsd%20profile2\n",
    ),
    (
        b"jfsd pro",
        b"file 1\0x",
        "jfsd: foreign log: jfsd%20profile%201%00x\n",
    ),
];

/// A log with this label. Nothing else of it is to be looked at.
fn labelled(alloc: Global, first: &[u8; 8], second: &[u8; 8]) -> Option<MemDisk> {
    let mut disk = all_types_but(alloc, 255, &[(552, 2, 0x2000)])?;
    let label = [
        (52, 8, u64::from_le_bytes(*first)),
        (60, 8, u64::from_le_bytes(*second)),
    ];
    alter(&mut disk, 1, &label)?;
    Some(disk)
}

#[test]
fn a_foreign_label_is_told(rt: HostRuntime) {
    for (first, second, text) in LABELS.iter() {
        let alloc = rt.alloc();
        let disk = labelled(alloc, first, second);
        assert!(rt; is_refused(&rt, alloc, disk, 9, text), "{text}");
    }
}

#[test]
fn the_superblock_comes_first(rt: HostRuntime) {
    let alloc = rt.alloc();
    let disk = disk_with_log(alloc, 3, 256, &[], 8);
    let text = "jfsd: bad image: page 8 rule state value 3\n";
    assert!(rt; is_told(&rt, alloc, disk, 3, text));
}

/// The log with records of all types, on a disk all of whose reads from this one on fail, and each write and sync.
fn failing_from(alloc: Global, first: u64) -> Option<MemDisk> {
    let fails = [
        fails_at(Kind::Read, first, u64::MAX),
        fails_at(Kind::Write, 1, u64::MAX),
        fails_at(Kind::Sync, 1, u64::MAX),
    ];
    failing_all(alloc, all_types(alloc), &fails)
}

#[test]
fn a_disk_that_fails_at_each_read(rt: HostRuntime) {
    let alloc = rt.alloc();
    let words = ["log", "I"];
    // Page 8, the log's superblock, each of 254 ring pages, and once more the 127 of the newest half.
    for first in 1..384 {
        let disk = failing_from(alloc, first);
        let disk = after(
            &rt,
            alloc,
            &words,
            disk,
            Status::DiskFault,
            "jfsd: disk fault\n",
        );
        assert!(rt; faults_of(&disk) == Some(1), "{first}");
    }
    let disk = failing_from(alloc, 384);
    let disk = after(&rt, alloc, &words, disk, Status::Done, ALL_TYPES_TEXT);
    assert!(rt; faults_of(&disk) == Some(0));
}
