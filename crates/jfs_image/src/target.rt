//! The target of a symbolic link.

ghost use Rattle.std.specs.Prelude.{◌≡◌, ◌<◌, ◌≤◌, IfOk};
ghost use Rattle.jfs_bits.specs.Field.{range_of};
ghost use Rattle.jfs_image.specs.View.{image_of};
ghost use Rattle.jfs_image.specs.Held.{target_in};

use crate::content::stored_bytes;
use crate::view::ListView;
use jfs_bits::{Blob, Xad};
use jfs_inode::Dinode;
use std::alloc::{AllocError, Global};

/// A symbolic link's target: of fewer than 256 bytes it stands in the inode, a longer one in the blocks of these extents. Another object has none.
pub(crate) fn target_of(
    alloc: Global,
    view: &ListView<'_>,
    extents: &[Xad],
    d: &Dinode,
) -> Result<Blob, AllocError>
    ensures { IfOk result (λ target. target ≡ target_in (image_of view.now) extents.now d.now) }
{
    if d.mode & Dinode::TYPE != Dinode::LINK {
        return Ok(Blob::new(alloc));
    }
    if d.size < 256 {
        return short_target(alloc, &d.rest, d.size as usize);
    }
    Ok(Blob::from(stored_bytes(alloc, view, extents, d.size)?))
}

/// So many bytes from byte 256 of an inode on, which is byte 128 of its rest.
fn short_target(alloc: Global, rest: &[u8; 384], size: usize) -> Result<Blob, AllocError>
    requires { size < 256 }
    ensures { IfOk result (λ target. target ≡ range_of rest.now 128 size) }
{
    let mut target = Blob::new(alloc);
    target.extend_from_slice(&rest[128..128 + size])?;
    Ok(target)
}
