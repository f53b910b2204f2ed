//! A new volume with words of its own changed, and what a check finds of it.
//!
//! It has 3,008 blocks. Pages 16 to 20 are the block map's file, 27 and 28 the inode map's, and 29 has the inodes 0 to 7, of which 0 to 3 are in use: 0, 1 and 3
//! are files without a block, and 2 is the root. Blocks 0 to 32 have owners. Inode `i` of page 29 begins at byte 512 * i, and its tree's root 224 bytes behind that.

use jfs_bits::{Moment, put_u32};
use jfs_check::{Checked, check};
use jfs_disk::{Disk, Page, SureDisk};
use jfs_findings::{Finding, FindingKind};
use jfs_format::format;
use jfs_super::read_super;
use std::alloc::Global;
use uuid::Uuid;

/// A page, a place in it, and a number of 4 bytes there.
pub type Word = (u32, usize, u32);

/// A finding's kind, page and value.
pub type Found = (FindingKind, u32, u64);

/// A disk of 4,096 pages.
pub fn small_disk(alloc: Global) -> Option<SureDisk> {
    SureDisk::new(alloc, 4096).ok()
}

/// Puts words into pages.
pub fn put(disk: &mut SureDisk, words: &[Word]) {
    for (n, at, value) in words {
        put_word(disk, *n, *at, *value);
    }
}

fn put_word(disk: &mut SureDisk, n: u32, at: usize, value: u32) {
    if n >= disk.pages() || at > 4092 {
        return;
    }
    let mut page = Page::zeros();
    if disk.read(n, &mut page).is_err() {
        return;
    }
    put_u32(&mut page.0, at, value);
    if disk.write(n, &page).is_err() {
        return;
    }
}

/// A disk, checked by its superblock on page 8.
pub fn check_disk<D: Disk>(alloc: Global, disk: &mut D) -> Option<Checked> {
    let pages = disk.pages();
    if pages < 9 {
        return None;
    }
    let mut page = Page::zeros();
    if disk.read(8, &mut page).is_err() {
        return None;
    }
    match read_super(&page, pages) {
        Ok(s) => check(alloc, disk, &s).ok(),
        Err(_) => None,
    }
}

/// Writes a new volume, and tells whether that was done.
pub fn write_new(disk: &mut SureDisk) -> bool {
    let now = Moment { sec: 1000, nano: 7 };
    format(disk, Uuid::from_bytes([7; 16]), b"data", now).is_ok()
}

/// A new volume with these words instead of its own, checked.
pub fn checked(alloc: Global, disk: &mut SureDisk, words: &[Word]) -> Option<Checked> {
    if !write_new(disk) {
        return None;
    }
    put(disk, words);
    check_disk(alloc, disk)
}

/// Whether the findings are these, in this order.
fn are(findings: &[Finding], expected: &[Found]) -> bool {
    if findings.len() != expected.len() {
        return false;
    }
    for (f, e) in findings.iter().zip(expected) {
        let (kind, page, value) = *e;
        if f.kind != kind || f.page != page || f.value != value {
            return false;
        }
    }
    true
}

/// Whether a check finds exactly this.
pub fn finds(alloc: Global, disk: &mut SureDisk, words: &[Word], expected: &[Found]) -> bool {
    match checked(alloc, disk, words) {
        Some(checked) => are(checked.findings.as_slice(), expected),
        None => false,
    }
}

/// How many blocks are free and how many inodes in use, where a check finds nothing.
pub fn counts_of(alloc: Global, disk: &mut SureDisk, words: &[Word]) -> Option<(u32, u32)> {
    let checked = checked(alloc, disk, words)?;
    if checked.findings.is_empty() {
        return Some((checked.free, checked.inodes));
    }
    None
}
