//! What a control page tells of its blocks.

ghost use Rattle.std.specs.Prelude.{◌≡◌, ◌<◌, ◌^◌};
ghost use Rattle.jfs_bits.specs.Field.{field_of};
ghost use Rattle.jfs_dmapctl.specs.Control.{root_of};

use crate::layout::TREE;
use jfs_bits::get_u8;
use jfs_disk::Page;

/// The value at the root of a page's tree: the l2 of the greatest free aligned run under it, -1 where no block is free.
pub fn ctl_root(page: &Page) -> i8
    ensures value { result ≡ root_of page.now.0 }
    // for the prover alone: the root is one byte
    ensures fits { field_of page.now.0 17 1 < 2 ^ 8 }
{
    let bytes: &[u8] = &page.0;
    get_u8(bytes, TREE).cast_signed()
}
