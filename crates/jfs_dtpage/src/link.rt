//! A page's neighbours.

ghost use Rattle.std.specs.Prelude.{◌≡◌, length};
ghost use Rattle.jfs_dtpage.specs.declared.head.DtForm.TheVariants.{Full};
ghost use Rattle.jfs_dtpage.specs.Form.{head_of, linked};
ghost use Rattle.jfs_dtpage.specs.Page.{entries_of, IsDtPage};

use crate::write::put_neighbour;

/// Sets the neighbours of a page on its level; 0 where there is none.
pub fn dt_link(bytes: &mut [u8], next: u64, prev: u64)
    requires size { length bytes.old ≡ 4096 }
    requires page { IsDtPage Full bytes.old }
    ensures sound { IsDtPage Full bytes.new }
    ensures entries { entries_of Full bytes.new ≡ entries_of Full bytes.old }
    ensures head { head_of Full bytes.new ≡ record (head_of Full bytes.old) { place = linked next prev (head_of Full bytes.old).place } }
{
    put_neighbour(bytes, 0, next);
    put_neighbour(bytes, 8, prev);
}
