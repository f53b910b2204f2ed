//! A root of 10 slots with attributes behind them, as other tools leave it.

use crate::appended::count_of;
use crate::file::{File, eight, recorded};
use crate::links::is_linked;
use std::alloc::{AllocError, Global};
use std::test::*;

/// The byte of an attribute at a place of the root's 288 bytes, of which the slots take 160.
fn attribute(at: usize) -> u8 {
    (at % 251) as u8
}

/// Gives a root 10 slots, and fills what stands behind them.
fn narrow(root: &mut [u8; 288]) {
    root[20] = 10;
    for at in 160..288 {
        root[at] = attribute(at);
    }
}

/// Whether the root has 10 slots, no descriptor of its own, and these attributes.
fn is_narrow(root: &[u8; 288]) -> bool {
    for at in 160..288 {
        if root[at] != attribute(at) {
            return false;
        }
    }
    for at in 24..32 {
        if root[at] != 0 {
            return false;
        }
    }
    root[20] == 10 && root[21] == 0
}

/// So many times eight blocks at the end of the file, after each of which the root is narrow.
fn appends(alloc: Global, file: &mut File, count: u64) -> Result<bool, AllocError> {
    for i in 0..count {
        let range = eight(alloc, i)?;
        if file.puts(alloc, range.as_slice())? != Some(Ok(())) || !is_narrow(&file.root) {
            return Ok(false);
        }
    }
    Ok(true)
}

#[test]
fn a_root_beside_attributes(rt: HostRuntime) -> Result<(), Fail> {
    let mut file = File::new(rt.alloc())?;
    narrow(&mut file.root);
    // the first eight fill the root; 2,040 blocks are 8 leaves of 254 and one of 8, which no root of 8 children has
    assert!(rt; appends(rt.alloc(), &mut file, 1)?);
    assert_eq!(rt; file.pages(), 0);
    assert_eq!(rt; count_of(rt.alloc(), &mut file), 8);
    assert!(rt; appends(rt.alloc(), &mut file, 255)?);
    assert_eq!(rt; file.pages(), 10);
    // a block between two others, in the first leaf, which is halved
    assert_eq!(rt;
        file.puts(rt.alloc(), &[recorded(1, 1, 7000)])?,
        Some(Ok(()))
    );
    assert_eq!(rt; file.pages(), 11);
    assert!(rt; is_narrow(&file.root) && is_linked(&file));
    // 255 times eight blocks, and this one
    assert_eq!(rt; count_of(rt.alloc(), &mut file), 2041);
    Ok(())
}
