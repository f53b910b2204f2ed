//! Ranges that can't be written: a page that can't be read, and a tree of 8 levels without room.

ghost use Rattle.std.specs.Prelude.{◌<◌, ◌≤◌, ◌+◌, ◌*◌, ◌≡◌, length};

use crate::file::{File, eight, recorded};
use jfs_bits::{Pxd, Rule, Xad, put_pxd, put_u8, put_u16, put_xad};
use jfs_disk::{Fault, Part};
use jfs_ranges::ViewError;
use jfs_xtree::XtError;
use std::alloc::{AllocError, Global};
use std::test::*;

/// The page number by which an error names the root.
pub const ROOT: u32 = 4294967295;

fn fault(count: u64) -> XtError {
    XtError::View(ViewError::Read(Fault {
        part: Part::Low,
        count,
    }))
}

/// So many entries of one block each at each second block, 8 at a time.
pub fn fills(alloc: Global, file: &mut File, count: u64) -> Result<bool, AllocError> {
    for i in 0..count {
        let range = eight(alloc, i)?;
        if file.puts(alloc, range.as_slice())? != Some(Ok(())) {
            return Ok(false);
        }
    }
    Ok(true)
}

/// Whether a range is refused for this, and leaves the root as it was.
fn refuses(
    alloc: Global,
    file: &mut File,
    range: &[Xad],
    why: XtError,
) -> Result<bool, AllocError> {
    let root = file.root;
    let answer = file.puts(alloc, range)?;
    Ok(answer == Some(Err(why)) && file.root == root)
}

#[test]
fn a_page_that_cannot_be_read(rt: HostRuntime) -> Result<(), Fail> {
    let mut file = File::new(rt.alloc())?;
    assert!(rt; fills(rt.alloc(), &mut file, 40)?);
    assert_eq!(rt; file.pages(), 2);
    let list = file.list(rt.alloc()).ok();
    file.loses(1);
    // the second page alone, and behind the first one
    let behind = [recorded(639, 4, 3000)];
    assert!(rt; refuses(rt.alloc(), &mut file, &behind, fault(1))?);
    let both = [recorded(503, 3, 3000), recorded(509, 4, 3100)];
    assert!(rt; refuses(rt.alloc(), &mut file, &both, fault(2))?);
    // the first page alone
    assert_eq!(rt;
        file.puts(rt.alloc(), &[recorded(0, 1, 1000)])?,
        Some(Ok(()))
    );
    file.loses(8192);
    assert!(rt; list.is_some());
    if let Some(list) = list {
        assert_eq!(rt; file.has(rt.alloc(), list.as_slice()), Ok(true));
    }
    Ok(())
}

#[test]
fn the_first_broken_page(rt: HostRuntime) -> Result<(), Fail> {
    let mut file = File::new(rt.alloc())?;
    assert!(rt; fills(rt.alloc(), &mut file, 40)?);
    assert_eq!(rt; file.pages(), 2);
    if let Some(page) = file.page(1) {
        put_u8(&mut page.0, 16, 0);
    }
    let flag = XtError::Bad {
        page: 1,
        rule: Rule::Flag,
    };
    // behind it, over both leaves, and with a hole in the range there
    assert!(rt; refuses(rt.alloc(), &mut file, &[recorded(639, 4, 3000)], flag)?);
    let flag = XtError::Bad {
        page: 1,
        rule: Rule::Flag,
    };
    let both = [recorded(503, 1, 3000), recorded(516, 1, 3100)];
    assert!(rt; refuses(rt.alloc(), &mut file, &both, flag)?);
    assert_eq!(rt;
        file.puts(rt.alloc(), &[recorded(0, 1, 1000)])?,
        Some(Ok(()))
    );
    Ok(())
}

/// An entry of one block.
pub fn entry(bytes: &mut [u8], i: usize, offset: u32, addr: u32)
    requires { 48 + 16 * i ≤ length bytes.old }
{
    put_xad(
        bytes,
        32 + 16 * i,
        Xad {
            flag: 0,
            offset: u64::from(offset),
            at: Pxd {
                len: 1,
                addr: u64::from(addr),
            },
        },
    );
}

/// The own descriptor of page `n`.
pub fn at_home(bytes: &mut [u8; 4096], n: u32) {
    put_pxd(
        bytes,
        24,
        Pxd {
            len: 1,
            addr: u64::from(n),
        },
    );
}

/// A page without room: each second block of the file from one on, all in this block of the volume, or below this page.
pub fn full_page(file: &mut File, n: u32, flag: u8, from: u32, child: u32) {
    if let Some(page) = file.page(n) {
        put_u8(&mut page.0, 16, flag);
        put_u16(&mut page.0, 18, 256);
        put_u16(&mut page.0, 20, 256);
        at_home(&mut page.0, n);
        for i in 0..254usize {
            let offset = from.saturating_add((2 * i) as u32);
            entry(&mut page.0, i, offset, child);
        }
    }
}

/// A tree of 8 levels with so many children at the root, of which the last way down has no room.
fn tall(alloc: Global, children: u16) -> Result<File, AllocError>
    requires { children ≤ 16 }
{
    let mut file = File::new(alloc)?;
    put_u8(&mut file.root, 16, 0x85);
    put_u16(&mut file.root, 18, children + 2);
    put_u16(&mut file.root, 20, 18);
    for i in 0..children {
        entry(&mut file.root, usize::from(i), u32::from(i), 1);
    }
    for n in 1..7 {
        full_page(&mut file, n, 4, n.saturating_mul(1000), n + 1);
    }
    full_page(&mut file, 7, 2, 7000, 8);
    file.keeps(8);
    Ok(file)
}

#[test]
fn a_ninth_level(rt: HostRuntime) -> Result<(), Fail> {
    let range = [recorded(8000, 2, 3000)];
    let mut full = tall(rt.alloc(), 16)?;
    assert!(rt;
        refuses(
            rt.alloc(),
            &mut full,
            &range,
            XtError::Bad {
                page: ROOT,
                rule: Rule::Deep
            }
        )?
    );
    // where the root has room for one more, a page of each level is split
    let mut file = tall(rt.alloc(), 15)?;
    assert_eq!(rt; file.puts(rt.alloc(), &range)?, Some(Ok(())));
    assert_eq!(rt; file.pages(), 15);
    Ok(())
}
