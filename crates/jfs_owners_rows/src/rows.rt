//! Runs that overlap, that end at words, and that lie behind the last block.

use crate::counted::{is_row, owners_at, owners_of};
use jfs_bits::Pxd;
use jfs_owners::Owners;
use std::alloc::AllocError;

// Each with its first block and its length.
const RUNS: [(u64, u32); 10] = [
    (30, 4),
    (33, 31),
    (63, 2),
    (69, 5),
    (70, 3),
    (3, 0),
    (18446744073709551615, 16777215),
    (0, 1),
    (0, 1),
    (0, 1),
];

const ROW: [u8; 70] = *b"2.............................11121111111111111111111111111111121....1";

#[test]
fn runs_by_hand(rt: HostRuntime) -> Result<(), AllocError> {
    let owners = owners_of(rt.alloc(), 70, RUNS.as_slice())?;
    assert!(rt; is_row(&owners, ROW.as_slice()));
    assert!(rt; owners.free() == 33);
    Ok(())
}

#[test]
fn extents_by_hand(rt: HostRuntime) -> Result<(), AllocError> {
    let mut owners = owners_of(rt.alloc(), 12, [(0, 2)].as_slice())?;
    owners.add_inode_extents([Some(1), None, Some(5), Some(10)].as_slice());
    assert!(rt; is_row(&owners, b"121111111.11".as_slice()));
    assert!(rt; owners.free() == 1);
    Ok(())
}

#[test]
fn words_twice(rt: HostRuntime) -> Result<(), AllocError> {
    let once = owners_of(rt.alloc(), 64, [(0, 64)].as_slice())?;
    assert!(rt; is_row(&once, [b'1'; 64].as_slice()));
    let twice = owners_of(rt.alloc(), 64, [(0, 64), (0, 4294967295)].as_slice())?;
    assert!(rt; is_row(&twice, [b'2'; 64].as_slice()));
    Ok(())
}

// Runs that name the same blocks over and over. Without groups that are passed over this would take minutes.
#[test]
fn runs_over_and_over(rt: HostRuntime) -> Result<(), AllocError> {
    let blocks = 8_388_600;
    let mut owners = Owners::new(rt.alloc(), blocks)?;
    for k in 0..200_000u64 {
        owners.add(Pxd {
            len: 16_777_215,
            addr: k % 3 * 700,
        });
    }
    // the first 700 blocks were named by each third run, and all but these by each
    assert!(rt; owners.free() == 0);
    assert_eq!(rt; owners_at(&owners, 0), 2);
    assert_eq!(rt; owners_at(&owners, blocks - 1), 2);
    owners.add(Pxd { len: 5, addr: 3 });
    assert_eq!(rt; owners_at(&owners, 4), 2);
    Ok(())
}

// Blocks, and how many owners each has.
static COUNTS: [(u32, u32); 5] = [(999, 0), (1_000, 2), (3_999, 2), (4_000, 1), (4_001, 0)];

// A run that ends within a group of 1,024 blocks, named again and again: the blocks behind it stay as they were.
#[test]
fn a_group_with_an_end(rt: HostRuntime) -> Result<(), AllocError> {
    let mut owners = Owners::new(rt.alloc(), 5_000)?;
    for _ in 0..4 {
        owners.add(Pxd {
            len: 3_000,
            addr: 1_000,
        });
    }
    owners.add(Pxd {
        len: 1,
        addr: 4_000,
    });
    for (b, count) in COUNTS.iter() {
        assert!(rt; owners_at(&owners, *b) == *count, "{b}");
    }
    assert!(rt; owners.free() == 1_999);
    Ok(())
}
