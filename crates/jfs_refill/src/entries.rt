//! The entries of a page as a list.

ghost use Rattle.std.specs.Prelude.{◌≡◌, ◌≤◌, ◌+◌, ◌*◌, ◌-◌, length, IfOk};
ghost use Rattle.std.specs.List.{All};
ghost use Rattle.jfs_bits.specs.Extent.{FitsXad};
ghost use Rattle.jfs_xtpage.specs.Page.{entries_of, count_of, IsLaidOut};

use jfs_bits::{Xad, get_u16};
use jfs_xtpage::xt_entry;
use std::alloc::{AllocError, Global};

/// The list of a page's entries: a leaf's extents, or an inner page's children, each an extent of one block at its key.
pub fn items(alloc: Global, bytes: &[u8]) -> Result<Vec<Xad>, AllocError>
    requires page { IsLaidOut bytes.now }
    ensures list { IfOk result (λ list. list.items ≡ entries_of bytes.now) }
    ensures fits { IfOk result (λ list. All FitsXad list.items) }
{
    let count = get_u16(bytes, 18) - 2;
    let mut list = Vec::new(alloc);
    for i in 0..count {
        list.push(xt_entry(bytes, i))?;
    }
    Ok(list)
}
