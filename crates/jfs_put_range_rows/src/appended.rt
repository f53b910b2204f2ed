//! Fragments that are written behind each other: all leaves but the last are full.

use crate::file::{File, eight};
use crate::links::is_linked;
use crate::refused::fills;
use std::alloc::{AllocError, Global};
use std::test::*;

/// So many times eight blocks at the end of the file, none of which continues another. Where a page comes, all pages name their neighbours.
fn appends(alloc: Global, file: &mut File, count: u64) -> Result<bool, AllocError> {
    for i in 0..count {
        let pages = file.pages();
        let range = eight(alloc, i)?;
        if file.puts(alloc, range.as_slice())? != Some(Ok(())) {
            return Ok(false);
        }
        if file.pages() != pages && !is_linked(file) {
            return Ok(false);
        }
    }
    Ok(true)
}

#[test]
fn full_leaves(rt: HostRuntime) -> Result<(), Fail> {
    let mut file = File::new(rt.alloc())?;
    assert!(rt; appends(rt.alloc(), &mut file, 1250)?);
    // 10,000 fragments: 39 leaves of 254 and one of 94, and the page above them
    assert_eq!(rt; file.pages(), 41);
    Ok(())
}

/// How many extents the tree lists; none where it lists none.
pub fn count_of(alloc: Global, file: &mut File) -> usize {
    match file.list(alloc) {
        Ok(list) => list.len(),
        Err(_) => 0,
    }
}

#[test]
fn a_hundred_thousand_fragments(rt: HostRuntime) -> Result<(), Fail> {
    let mut file = File::new(rt.alloc())?;
    assert!(rt; fills(rt.alloc(), &mut file, 12_500)?);
    // 393 leaves of 254 and one of 178, as few as can have them, and two pages above them
    assert_eq!(rt; file.pages(), 396);
    assert_eq!(rt; count_of(rt.alloc(), &mut file), 100_000);
    Ok(())
}
