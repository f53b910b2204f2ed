//! Superblocks with one or two changed fields, and the rule and the value that they must answer. Each is worked out by
//! hand from the layout of page 8.

use crate::volume::{after_number, disk_with, sound_page, status_of};
use jfs_command::Status;
use jfs_disk::{Disk, MemDisk, Page};
use jfs_io::SureSink;
use std::alloc::Global;
use std::sync::Wait;
use std::thread::Threads;

/// A change of page 8: the place, the width in bytes, and the number that is put there.
pub type Change = (usize, usize, u64);

/// The changes, the number of pages of the disk, and what is answered.
type Row = (&'static [Change], u32, &'static str, u64);

#[rattlefmt::skip]
static REFUSED: [Row; 54] = [
    (&[(0, 4, 844318282)], 4096, "magic", 844318282),
    (&[(0, 4, 0)], 4096, "magic", 0),
    (&[(0, 4, 827541067)], 4096, "magic", 827541067),
    (&[(0, 4, 0), (4, 4, 7)], 4096, "magic", 0),
    (&[(4, 4, 0)], 4096, "version", 0),
    (&[(4, 4, 3)], 4096, "version", 3),
    (&[(4, 4, 4294967295)], 4096, "version", 4294967295),
    (&[(16, 4, 512)], 4096, "bsize", 512),
    (&[(16, 4, 4095)], 4096, "bsize", 4095),
    (&[(20, 2, 11)], 4096, "l2bsize", 11),
    (&[(22, 2, 2)], 4096, "l2bfactor", 2),
    (&[(24, 4, 4096)], 4096, "pbsize", 4096),
    (&[(28, 2, 8)], 4096, "l2pbsize", 8),
    (&[(36, 4, 268435712)], 4096, "inline", 268435712),
    (&[(36, 4, 0)], 4096, "inline", 0),
    (&[(36, 4, 1342179584)], 4096, "os2", 1342179584),
    (&[(36, 4, 270534912)], 4096, "index", 270534912),
    (&[(36, 4, 1344276736)], 4096, "os2", 1344276736),
    (&[(44, 4, 1)], 4096, "compress", 1),
    (&[(8, 8, 24065)], 4096, "size", 24065),
    (&[(8, 8, 504)], 4096, "size", 504),
    (&[(8, 8, 0)], 4096, "size", 0),
    (&[(8, 8, 67108872)], 4096, "size", 67108872),
    (&[(8, 8, 9223372036854775808)], 4096, "size", 9223372036854775808),
    (&[(8, 8, 24068), (32, 4, 3)], 4096, "size", 24068),
    (&[(32, 4, 0)], 4096, "agsize", 0),
    (&[(32, 4, 4096)], 4096, "agsize", 4096),
    (&[(32, 4, 8193)], 4096, "agsize", 8193),
    (&[(32, 4, 12288)], 4096, "agsize", 12288),
    (&[(32, 4, 1)], 4096, "agsize", 1),
    (&[(8, 8, 8388616)], 4096, "agsize", 8192),
    (&[(40, 4, 3)], 4096, "state", 3),
    (&[(40, 4, 5)], 4096, "state", 5),
    (&[(40, 4, 16)], 4096, "state", 16),
    (&[(40, 4, 4294967295)], 4096, "state", 4294967295),
    (&[(76, 4, 3007)], 4096, "log", 3007),
    (&[(76, 4, 0)], 4096, "log", 0),
    (&[(72, 4, 255)], 4096, "log", 3072),
    (&[(72, 4, 0)], 4096, "log", 3072),
    (&[(72, 4, 1025)], 4096, "log", 3072),
    (&[(76, 4, 3073)], 4096, "log", 3073),
    (&[(72, 4, 16778240)], 4096, "log", 4294970368),
    (&[(72, 4, 32769)], 65536, "log", 3072),
    (&[(48, 4, 3)], 4096, "second", 21),
    (&[(48, 4, 5)], 4096, "second", 21),
    (&[(52, 4, 3005)], 4096, "second", 3005),
    (&[(56, 4, 1)], 4096, "second", 25),
    (&[(60, 4, 3007)], 4096, "second", 3007),
    (&[(48, 4, 3), (56, 4, 1)], 4096, "second", 21),
    (&[], 4000, "log", 3072),
    (&[], 4095, "log", 3072),
    (&[], 8, "short", 8),
    (&[], 0, "short", 0),
    (&[], 1, "short", 1),
];

/// Changes that break no rule.
#[rattlefmt::skip]
static ACCEPTED: [Change; 10] = [
    (4, 4, 1),
    (40, 4, 1),
    (40, 4, 2),
    (40, 4, 4),
    (40, 4, 8),
    (36, 4, 3219128319),
    (32, 4, 2147483648),
    (52, 4, 3004),
    (60, 4, 3006),
    (72, 4, 256),
];

/// Puts each number at its place.
pub fn change(page: &mut Page, changes: &[Change]) {
    for (at, width, number) in changes {
        for (i, byte) in number.to_le_bytes().iter().take(*width).enumerate() {
            if let Some(place) = page.0.get_mut(at.saturating_add(i)) {
                *place = *byte;
            }
        }
    }
}

/// A disk whose page 8 has these changes.
fn changed_disk(alloc: Global, pages: u32, changes: &[Change]) -> Option<MemDisk> {
    let mut page = sound_page();
    change(&mut page, changes);
    disk_with(alloc, pages, &page)
}

/// Whether a disk is refused for this rule and value.
fn is_refused<R: Threads + Wait + Sync>(
    rt: &R,
    alloc: Global,
    disk: Option<MemDisk>,
    rule: &str,
    value: u64,
) -> Option<bool> {
    let text = format!(in alloc; "jfsd: bad image: page 8 rule {rule} value {value}\n").ok()?;
    Some(after_number(rt, alloc, &["super", "I"], disk, 3, text.as_str()).is_some())
}

#[test]
fn names_the_first_broken_rule(rt: HostRuntime) {
    for (changes, pages, rule, value) in REFUSED.iter() {
        let alloc = rt.alloc();
        let disk = changed_disk(alloc, *pages, changes);
        let is_so = is_refused(&rt, alloc, disk, rule, *value);
        assert!(rt; is_so == Some(true), "rule {rule} value {value}");
    }
}

#[test]
fn accepts_what_breaks_no_rule(rt: HostRuntime) {
    for changed in ACCEPTED.iter() {
        let alloc = rt.alloc();
        let disk = changed_disk(alloc, 4096, &[*changed]);
        let mut out = SureSink::new(alloc);
        let status = status_of(&rt, alloc, &["super", "I"], disk, &mut out);
        assert!(rt; status == Some(Status::Done), "{changed:?}");
    }
}

/// A disk on whose page 15 a sound superblock stands, and on page 8 one that isn't.
fn disk_with_a_second(alloc: Global) -> Option<MemDisk> {
    let mut disk = changed_disk(alloc, 4096, &[(0, 4, 844318282)])?;
    if disk.pages() <= 15 {
        return None;
    }
    disk.write(15, &sound_page()).ok()?;
    Some(disk)
}

#[test]
fn the_second_superblock_is_not_looked_at(rt: HostRuntime) {
    let alloc = rt.alloc();
    let is_so = is_refused(&rt, alloc, disk_with_a_second(alloc), "magic", 844318282);
    assert!(rt; is_so == Some(true));
}
