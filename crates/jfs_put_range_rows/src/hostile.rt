//! Ranges that are written into hostile trees, on a volume that counts its reads: whatever its pages name, no more are read than lie on the ways to the range's ends.

use crate::file::{File, recorded};
use crate::refused::{ROOT, entry, full_page};
use jfs_bits::{Rule, put_u8, put_u16};
use jfs_xtree::XtError;
use std::alloc::{AllocError, Global};
use std::test::*;

/// A tree whose root names page 1 so many times, and whose pages up to the last one name the next one 254 times each. The last one is a leaf, or names itself.
#[derive(Clone, Copy)]
struct Shape {
    children: u16,
    last: u32,
    itself: bool,
}

fn tree(alloc: Global, shape: Shape) -> Result<File, AllocError> {
    let children = shape.children.min(16);
    let mut file = File::new(alloc)?;
    put_u8(&mut file.root, 16, 0x85);
    put_u16(&mut file.root, 18, children + 2);
    put_u16(&mut file.root, 20, 18);
    for i in 0..children {
        entry(&mut file.root, usize::from(i), 1000 * u32::from(i), 1);
    }
    for n in 1..shape.last {
        full_page(&mut file, n, 4, 0, n.saturating_add(1));
    }
    if shape.itself {
        full_page(&mut file, shape.last, 4, 0, shape.last);
    } else {
        full_page(&mut file, shape.last, 2, 0, 5000);
    }
    file.keeps(shape.last.saturating_add(1));
    Ok(file)
}

/// A tree, the blocks of the file where two extents of one block each are written, how many pages it has then, or which of them breaks a rule, and how often a page is read.
type Row = (Shape, u64, u64, Result<u32, (u32, Rule)>, u64);

// A page on a way is looked at, read to be changed, and read to tell its lines: three times, and once more where two ways lead over it. Where a level more has no room no lines are told, and where a page names itself nothing is changed: it is looked at once a level.
#[rattlefmt::skip]
static ROWS: [Row; 10] = [
    (Shape { children: 1, last: 1, itself: false }, 600, 610, Ok(3), 3),
    (Shape { children: 1, last: 3, itself: false }, 600, 610, Ok(7), 9),
    (Shape { children: 5, last: 3, itself: false }, 600, 610, Ok(7), 9),
    (Shape { children: 5, last: 3, itself: false }, 990, 1001, Ok(7), 12),
    (Shape { children: 15, last: 7, itself: false }, 20_000, 20_002, Ok(15), 21),
    // the half of page 3 that goes to a new page begins behind the next key of page 2
    (Shape { children: 5, last: 3, itself: false }, 3, 5, Err((2, Rule::Order)), 9),
    // a ninth level
    (Shape { children: 16, last: 7, itself: false }, 20_000, 20_002, Err((ROOT, Rule::Deep)), 14),
    (Shape { children: 1, last: 3, itself: true }, 600, 610, Err((3, Rule::Deep)), 7),
    (Shape { children: 5, last: 3, itself: true }, 990, 1001, Err((3, Rule::Deep)), 7),
    (Shape { children: 5, last: 1, itself: true }, 3, 5, Err((1, Rule::Deep)), 7),
];

/// How many pages a tree has behind two extents of one block each, or which of its pages breaks a rule, and how often a page was read. Where it is refused, the root is as it was.
fn came_of(
    alloc: Global,
    shape: Shape,
    first: u64,
    second: u64,
) -> Result<Option<(Result<u32, (u32, Rule)>, u64)>, AllocError> {
    let mut file = tree(alloc, shape)?;
    let root = file.root;
    let range = [recorded(first, 1, 3000), recorded(second, 1, 3100)];
    let came = match file.puts(alloc, &range)? {
        Some(Ok(())) => Ok(file.pages()),
        Some(Err(XtError::Bad { page, rule })) if file.root == root => Err((page, rule)),
        _ => return Ok(None),
    };
    Ok(Some((came, file.reads())))
}

#[test]
fn pages_that_are_named_many_times(rt: HostRuntime) {
    for (shape, first, second, wanted, reads) in ROWS.iter() {
        let came = came_of(rt.alloc(), *shape, *first, *second);
        assert!(rt; came == Ok(Some((*wanted, *reads))), "{first}");
    }
}
