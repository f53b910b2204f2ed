//! The page behind one that is split, where it stands below another page.

use crate::file::{File, recorded};
use crate::links::is_linked;
use crate::refused::{at_home, entry, full_page};
use jfs_bits::{put_u8, put_u16, put_u64};
use std::alloc::{AllocError, Global};
use std::test::*;

/// A page with one entry.
fn small_page(file: &mut File, n: u32, flag: u8, offset: u32, addr: u32) {
    if let Some(page) = file.page(n) {
        put_u8(&mut page.0, 16, flag);
        put_u16(&mut page.0, 18, 3);
        put_u16(&mut page.0, 20, 256);
        at_home(&mut page.0, n);
        entry(&mut page.0, 0, offset, addr);
    }
}

/// The pages before a page and behind it.
fn names(file: &mut File, n: u32, prev: u64, next: u64) {
    if let Some(page) = file.page(n) {
        put_u64(&mut page.0, 0, next);
        put_u64(&mut page.0, 8, prev);
    }
}

/// A root with pages 1 and 2, of which page 1 has the full leaf 3 alone, and page 2 the leaf 4.
fn two_subtrees(alloc: Global) -> Result<File, AllocError> {
    let mut file = File::new(alloc)?;
    put_u8(&mut file.root, 16, 0x85);
    put_u16(&mut file.root, 18, 4);
    put_u16(&mut file.root, 20, 18);
    entry(&mut file.root, 0, 0, 1);
    entry(&mut file.root, 1, 1000, 2);
    small_page(&mut file, 1, 4, 0, 3);
    small_page(&mut file, 2, 4, 1000, 4);
    full_page(&mut file, 3, 2, 0, 4);
    small_page(&mut file, 4, 2, 1000, 5000);
    names(&mut file, 1, 0, 2);
    names(&mut file, 2, 1, 0);
    names(&mut file, 3, 0, 4);
    names(&mut file, 4, 3, 0);
    file.keeps(5);
    Ok(file)
}

#[test]
fn below_another_page(rt: HostRuntime) -> Result<(), Fail> {
    let mut file = two_subtrees(rt.alloc())?;
    assert!(rt; is_linked(&file));
    // in the middle of the full leaf
    assert_eq!(rt;
        file.puts(rt.alloc(), &[recorded(101, 1, 3000)])?,
        Some(Ok(()))
    );
    assert_eq!(rt; file.pages(), 6);
    assert!(rt; is_linked(&file));
    // behind it, and over both leaves
    let mut file = two_subtrees(rt.alloc())?;
    assert_eq!(rt;
        file.puts(
            rt.alloc(),
            &[recorded(990, 2, 3000), recorded(995, 12, 3100)]
        )?,
        Some(Ok(()))
    );
    assert_eq!(rt; file.pages(), 6);
    assert!(rt; is_linked(&file));
    Ok(())
}
