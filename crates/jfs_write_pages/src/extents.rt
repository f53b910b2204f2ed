//! The extents that a file's tree gets by a write.

ghost use Rattle.std.specs.Prelude.{◌≡◌, ◌<◌, ◌^◌, ◌++◌, ◌∷◌, [], reverse, OnOk, IfOk, length, ◌≤◌};
ghost use Rattle.jfs_write_pages.specs.Spots.{extents_for, before, SpotsFit};

use crate::spot::Spot;
use jfs_bits::{Pxd, Xad, XadList};
use std::alloc::{AllocError, Global};

/// The extents of those blocks of a file that weren't recorded, which are from now on: blocks that stand side by side in the file and on the volume are one extent.
pub fn extents_for(alloc: Global, spots: &[Spot]) -> Result<XadList, AllocError>
    requires { SpotsFit spots.now }
    ensures { IfOk result (λ xs. xs ≡ extents_for spots.now) }
{
    let mut behind = Vec::new(alloc);
    let count = spots.len();
    for i in 0..count {
        let spot = &spots[count - 1 - i];
        if !spot.recorded {
            push_before(&mut behind, spot.index, spot.block)?;
        }
    }
    behind.as_mut_slice().reverse();
    Ok(XadList::from(behind))
}

/// Pushes a block before extents, of which the first one stands at the list's end.
fn push_before(behind: &mut Vec<Xad>, index: u64, block: u32) -> Result<(), AllocError>
    requires { index < 2 ^ 63 }
    ensures { OnOk result (reverse behind.new.items ≡ before index block (reverse behind.old.items)) }
{
    let one = Xad {
        flag: 0,
        offset: index,
        at: Pxd {
            len: 1,
            addr: u64::from(block),
        },
    };
    let Some(next) = behind.pop() else {
        behind.push(one)?;
        return Ok(());
    };
    if next.offset == index + 1 && next.at.addr == u64::from(block) + 1 && next.at.len < 1 << 20 {
        behind.push(Xad {
            flag: next.flag,
            offset: index,
            at: Pxd {
                len: next.at.len + 1,
                addr: u64::from(block),
            },
        })?;
        return Ok(());
    }
    behind.push(next)?;
    behind.push(one)?;
    Ok(())
}
