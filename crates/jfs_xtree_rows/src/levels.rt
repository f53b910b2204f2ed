//! A tree with three pages below the root and six leaves below these, which is cut so that a page that had another one behind it becomes the last of its level.

use crate::links::is_linked;
use crate::shelf::{entry, head};
use crate::volume::{File, Told};
use jfs_bits::{Pxd, put_pxd, put_u64};
use std::alloc::{AllocError, Global};
use std::test::*;

/// A page: its number, its flag, the pages before and behind it, and its two entries of one block each, the file's and the volume's.
type Row = (u32, u8, u64, u64, (u32, u32), (u32, u32));

#[rattlefmt::skip]
static PAGES: [Row; 9] = [
    (1, 4, 0, 2, (0, 4), (10, 5)),
    (2, 4, 1, 3, (20, 6), (30, 7)),
    (3, 4, 2, 0, (40, 8), (50, 9)),
    (4, 2, 0, 5, (0, 40), (5, 42)),
    (5, 2, 4, 6, (10, 44), (15, 46)),
    (6, 2, 5, 7, (20, 48), (25, 50)),
    (7, 2, 6, 8, (30, 52), (35, 54)),
    (8, 2, 7, 9, (40, 56), (45, 58)),
    (9, 2, 8, 0, (50, 60), (55, 62)),
];

/// Puts a page's bytes.
fn put(file: &mut File, row: &Row) {
    let (n, flag, prev, next, first, second) = *row;
    if let Some(page) = file.page(n) {
        head(&mut page.0, flag, 4, 256);
        put_u64(&mut page.0, 0, next);
        put_u64(&mut page.0, 8, prev);
        let home = u64::from(n);
        put_pxd(&mut page.0, 24, Pxd { len: 1, addr: home });
        entry(&mut page.0, 0, first.0, 1, first.1);
        entry(&mut page.0, 1, second.0, 1, second.1);
    }
}

fn three_pages(alloc: Global) -> Result<File, AllocError> {
    let mut file = File::new(alloc)?;
    head(&mut file.root, 0x85, 5, 18);
    entry(&mut file.root, 0, 0, 1, 1);
    entry(&mut file.root, 1, 20, 1, 2);
    entry(&mut file.root, 2, 40, 1, 3);
    for row in PAGES.iter() {
        put(&mut file, row);
    }
    Ok(file)
}

/// Where the tree is cut, and what is told then: how many pages go, and how many blocks, also those of the pages.
static CUTS: [(u64, u32, u64); 4] = [
    // the second page stays with one leaf of its two, and that leaf with one extent
    (25, 4, 11),
    // it goes, and the first page stays with both of its leaves
    (20, 2, 3),
    // with one of them, and to nothing
    (10, 1, 3),
    (0, 2, 4),
];

#[test]
fn the_last_page_of_a_level(rt: HostRuntime) -> Result<(), Fail> {
    let mut file = three_pages(rt.alloc())?;
    assert!(rt; is_linked(&file));
    for (bound, pages, blocks) in CUTS.iter() {
        let told = Told {
            pages: *pages,
            blocks: *blocks,
        };
        assert!(rt; file.cuts(rt.alloc(), *bound) == Ok(told), "{bound}");
        assert!(rt; is_linked(&file), "{bound}");
    }
    Ok(())
}
