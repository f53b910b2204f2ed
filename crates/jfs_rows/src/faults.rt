//! Wrong words, a disk that fails, and sinks that fail.

use crate::drip::DripSink;
use crate::volume::{
    LINES, after, after_number, disk_with, failing, fails_at, is_wrong_word, sound_disk,
    sound_page, status_of,
};
use jfs_command::Status;
use jfs_disk::{Disk, Kind, MemDisk};
use jfs_io::MemSink;
use std::alloc::Global;
use std::sync::Wait;
use std::thread::Threads;

/// Words, and the place of the first that leaves the grammar.
static WRONG_WORDS: [(&[&str], u32); 7] = [
    (&[], 1),
    (&["super"], 2),
    (&["super", "I", "x"], 3),
    (&["super", "-I"], 2),
    (&["Super", "I"], 1),
    (&["--help"], 1),
    (&["super", "-I", "x"], 2),
];

#[test]
fn names_the_wrong_word(rt: HostRuntime) {
    for (words, place) in WRONG_WORDS.iter() {
        let alloc = rt.alloc();
        let is_so = is_wrong_word(&rt, alloc, words, *place, sound_disk(alloc));
        assert!(rt; is_so == Some(true), "{words:?}");
    }
}

#[test]
fn a_disk_that_fails_at_its_read(rt: HostRuntime) {
    let alloc = rt.alloc();
    let words = ["super", "I"];
    let disk = failing(alloc, sound_disk(alloc), fails_at(Kind::Read, 1, 1));
    let text = "jfsd: disk fault\n";
    let disk = after(&rt, alloc, &words, disk, Status::DiskFault, text);
    assert!(rt; disk.is_some());
    // The second read is sound.
    let disk = after(&rt, alloc, &words, disk, Status::Done, LINES);
    assert!(rt; disk.is_some());
    assert_eq!(rt; Status::DiskFault.number(), 7);
}

/// Of a sound volume a second read would fail; of 8 pages any would. The pages, the first read that fails, the status and the text.
static READS: [(u32, u64, u8, &str); 2] = [
    (4096, 2, 0, LINES),
    (8, 1, 3, "jfsd: bad image: page 8 rule short value 8\n"),
];

#[test]
fn page_8_is_read_once_or_not_at_all(rt: HostRuntime) {
    for (pages, first, number, text) in READS.iter() {
        let alloc = rt.alloc();
        let disk = disk_with(alloc, *pages, &sound_page());
        let disk = failing(alloc, disk, fails_at(Kind::Read, *first, u64::MAX));
        let disk = after_number(&rt, alloc, &["super", "I"], disk, *number, text);
        assert!(rt; faults_of(&disk) == Some(0), "{pages}");
    }
}

/// The number of calls that failed.
pub fn faults_of(disk: &Option<MemDisk>) -> Option<u64> {
    match disk {
        Some(disk) => Some(disk.faults()),
        None => None,
    }
}

/// Whether a run with a sink that takes one byte a call, and fails at this one, ends with this status and has printed this text.
fn drips<R: Threads + Wait + Sync>(
    rt: &R,
    alloc: Global,
    words: &[&str],
    disk: Option<MemDisk>,
    inner: MemSink,
    status: Status,
    text: &str,
) -> bool {
    let mut out = DripSink { inner };
    let came = status_of(rt, alloc, words, disk, &mut out);
    came == Some(status) && out.inner.bytes() == text.as_bytes()
}

#[test]
fn a_sink_that_takes_one_byte_a_call(rt: HostRuntime) {
    let alloc = rt.alloc();
    let sink = MemSink::new(alloc);
    let is_so = drips(
        &rt,
        alloc,
        &["super", "I"],
        sound_disk(alloc),
        sink,
        Status::Done,
        LINES,
    );
    assert!(rt; is_so);
}

/// Whether a sink that takes nothing at its first call ends a run.
fn stops_at_once<R: Threads + Wait + Sync>(rt: &R, alloc: Global, zero: bool) -> bool {
    let mut out = MemSink::new(alloc).with_fails(1, 1, zero);
    let came = status_of(rt, alloc, &["super", "I"], sound_disk(alloc), &mut out);
    came == Some(Status::SinkFault) && out.bytes().is_empty()
}

#[test]
fn sinks_that_fail(rt: HostRuntime) {
    let alloc = rt.alloc();
    for zero in [false, true] {
        assert!(rt; stops_at_once(&rt, alloc, zero));

        // It fails in the middle of the second line.
        let sink = MemSink::new(alloc).with_fails(16, 16, zero);
        let text = "magic JFS1\nvers";
        let is_so = drips(
            &rt,
            alloc,
            &["super", "I"],
            sound_disk(alloc),
            sink,
            Status::SinkFault,
            text,
        );
        assert!(rt; is_so);

        // A fault while a refusal is printed leaves its status.
        let sink = MemSink::new(alloc).with_fails(6, 6, zero);
        let disk = disk_with(alloc, 8, &sound_page());
        let is_so = drips(
            &rt,
            alloc,
            &["super"],
            disk,
            sink,
            Status::Usage { word: 2 },
            "jfsd:",
        );
        assert!(rt; is_so);
    }
    assert_eq!(rt; Status::SinkFault.number(), 6);
}
