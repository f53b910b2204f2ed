//! Ranges in roots, by rows worked out by hand.

ghost use Rattle.std.specs.Prelude.{◌<◌, ◌≤◌};

use crate::file::{File, entry_of, recorded, reserved};
use jfs_bits::Xad;
use std::alloc::{AllocError, Global};
use std::test::*;

/// Whether an entry that isn't recorded is added.
fn reserves(
    alloc: Global,
    file: &mut File,
    offset: u16,
    len: u8,
    addr: u16,
) -> Result<bool, AllocError>
    requires { (0 < len) × (addr ≤ 7000) }
{
    Ok(file.adds(alloc, entry_of(offset, len, addr))? == Ok(()))
}

#[test]
fn in_holes(rt: HostRuntime) -> Result<(), Fail> {
    let mut file = File::new(rt.alloc())?;
    // an empty file
    let one = [recorded(20, 4, 1020)];
    assert!(rt; file.makes(rt.alloc(), &one, &one)?);
    // before it, and between two that it doesn't continue
    assert!(rt;
        file.makes(
            rt.alloc(),
            &[recorded(0, 4, 1000)],
            &[recorded(0, 4, 1000), recorded(20, 4, 1020)]
        )?
    );
    assert!(rt;
        file.makes(
            rt.alloc(),
            &[recorded(10, 2, 2000), recorded(13, 7, 3000)],
            &[
                recorded(0, 4, 1000),
                recorded(10, 2, 2000),
                recorded(13, 7, 3000),
                recorded(20, 4, 1020)
            ]
        )?
    );
    // it continues its left neighbour
    assert!(rt;
        file.makes(
            rt.alloc(),
            &[recorded(4, 2, 1004)],
            &[
                recorded(0, 6, 1000),
                recorded(10, 2, 2000),
                recorded(13, 7, 3000),
                recorded(20, 4, 1020)
            ]
        )?
    );
    assert_eq!(rt; file.pages(), 0);
    Ok(())
}

#[test]
fn in_the_middle_of_an_entry(rt: HostRuntime) -> Result<(), Fail> {
    let mut file = File::new(rt.alloc())?;
    assert!(rt; reserves(rt.alloc(), &mut file, 0, 40, 1000)?);
    assert!(rt;
        file.makes(
            rt.alloc(),
            &[recorded(10, 3, 1010), recorded(15, 1, 1015)],
            &[
                reserved(0, 10, 1000),
                recorded(10, 3, 1010),
                reserved(13, 2, 1013),
                recorded(15, 1, 1015),
                reserved(16, 24, 1016)
            ]
        )?
    );
    Ok(())
}

#[test]
fn over_two_entries_and_a_hole(rt: HostRuntime) -> Result<(), Fail> {
    let mut file = File::new(rt.alloc())?;
    assert!(rt; reserves(rt.alloc(), &mut file, 0, 10, 1000)?);
    assert!(rt; reserves(rt.alloc(), &mut file, 14, 10, 1014)?);
    // what lies in the hole continues what is written before it, and the entry behind it stays one
    assert!(rt;
        file.makes(
            rt.alloc(),
            &[recorded(5, 13, 1005)],
            &[
                reserved(0, 5, 1000),
                recorded(5, 9, 1005),
                recorded(14, 4, 1014),
                reserved(18, 6, 1018)
            ]
        )?
    );
    Ok(())
}

/// 17 extents of one block, from block 100 of the file on.
fn seventeen(alloc: Global) -> Result<Vec<Xad>, AllocError> {
    let mut range = Vec::new(alloc);
    for i in 0..17 {
        range.push(recorded(100 + i, 1, 2000 + 2 * i))?;
    }
    Ok(range)
}

#[test]
fn seventeen_blocks(rt: HostRuntime) -> Result<(), Fail> {
    let mut file = File::new(rt.alloc())?;
    let range = seventeen(rt.alloc())?;
    assert!(rt; file.makes(rt.alloc(), range.as_slice(), range.as_slice())?);
    // a root has 16 entries
    assert_eq!(rt; file.pages(), 1);
    // an eighteenth block, and nothing
    assert_eq!(rt;
        file.puts(rt.alloc(), &[recorded(0, 1, 1000), recorded(17, 1, 1100)])?,
        None
    );
    assert_eq!(rt; file.puts(rt.alloc(), &[])?, None);
    Ok(())
}
