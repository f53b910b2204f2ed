//! Pages that transactions changed and freed.

use jfs_bits::{Blob, PageKind};
use jfs_disk::{Disk, Fail, Kind, MemDisk, Page, Part};
use jfs_ranges::{Edit, Tx};
use jfs_redo_steps::redo_pages;
use std::alloc::{AllocError, Global};
use std::test::*;

/// How many pages the disk has.
const PAGES: u32 = 12;

/// Lines of 128 times one byte from the start of a page on.
fn lines(alloc: Global, page: u32, byte: u8) -> Result<Edit, AllocError> {
    let mut bytes = Blob::new(alloc);
    bytes.extend_from_slice(&[byte; 128])?;
    Ok(Edit::Lines {
        page,
        kind: PageKind::Inode,
        first: 0,
        bytes,
    })
}

/// The first transaction changes pages 3, 4 and 5; the second frees pages 4 and 5, and then changes 5 twice.
fn transactions(alloc: Global) -> Result<Vec<Tx>, AllocError> {
    let mut first = Tx::new(alloc);
    for page in 3..6 {
        first.push(lines(alloc, page, 0xa1)?)?;
    }
    let mut second = Tx::new(alloc);
    second.push(Edit::NoRedo { page: 4 })?;
    second.push(Edit::NoRedo { page: 5 })?;
    second.push(lines(alloc, 5, 0xb1)?)?;
    second.push(lines(alloc, 5, 0xb2)?)?;
    let mut both = Vec::new(alloc);
    both.push(first)?;
    both.push(second)?;
    Ok(both)
}

/// The first byte of a page of the disk.
fn first_byte<D: Disk>(disk: &mut D, n: u32) -> Option<u8> {
    let mut page = Page::zeros();
    if n < disk.pages() && disk.read(n, &mut page).is_ok() {
        return Some(page.0[0]);
    }
    None
}

/// Whether the pages are redone.
fn are_redone<D: Disk>(alloc: Global, disk: &mut D, transactions: &[Tx]) -> bool {
    disk.pages() >= PAGES && redo_pages(alloc, disk, transactions, PAGES).is_ok()
}

/// A disk that takes so many writes, and fails at all further ones.
fn taking(alloc: Global, writes: u64) -> Result<MemDisk, AllocError> {
    let mut fails = Vec::new(alloc);
    fails.push(Fail {
        part: Part::Whole,
        kind: Kind::Write,
        first: writes.saturating_add(1),
        last: u64::MAX,
    })?;
    Ok(MemDisk::new(alloc, PAGES).with_fails(fails))
}

// Page 4 keeps its zeros, since it was freed; page 5 has what came after that. The two others are written, and neither is written again, nor page 4.
#[test]
fn pages_are_redone(rt: HostRuntime) {
    let alloc = rt.alloc();
    let mut disk = taking(alloc, 2).expect(&rt, "memory");
    let transactions = transactions(alloc).expect(&rt, "memory");
    for _ in 0..2 {
        assert!(rt; are_redone(alloc, &mut disk, transactions.as_slice()));
        for (page, byte) in [(2, 0), (3, 0xa1), (4, 0), (5, 0xb2), (6, 0)] {
            assert_eq!(rt; first_byte(&mut disk, page), Some(byte));
        }
    }
}

#[test]
fn a_page_that_is_not_written_is_an_error(rt: HostRuntime) {
    let alloc = rt.alloc();
    let mut disk = taking(alloc, 1).expect(&rt, "memory");
    let transactions = transactions(alloc).expect(&rt, "memory");
    assert!(rt; !are_redone(alloc, &mut disk, transactions.as_slice()));
    assert_eq!(rt; first_byte(&mut disk, 3), Some(0xa1));
}
