//! Writing an inode.

ghost use Rattle.std.specs.Prelude.{◌≡◌, ◌≢◌, ◌*◌, ◌<◌, ℕ, length};
ghost use Rattle.jfs_bits.specs.Field.{put_bytes};
ghost use Rattle.jfs_bits.specs.Piece.{puts};
ghost use Rattle.jfs_inode.specs.Inode.{inode_at, dinode_of, pieces, FitsDinode};

use crate::fields::Dinode;
use jfs_bits::{put_array, put_dxd, put_moment, put_pxd, put_u32, put_u64};
use jfs_disk::Page;

/// Puts the fields into slot 0 to 7 of a page; the reserved bytes of the slot and the other slots stay.
pub fn write_dinode(page: &mut Page, slot: u32, d: &Dinode)
    requires slot { slot < 8 }
    requires fits { FitsDinode d.now }
    ensures bytes { page.new.0 ≡ put_bytes (512 * slot) (puts (pieces d.now) (inode_at page.old.0 slot)) page.old.0 }
    ensures held { inode_at page.new.0 slot ≡ puts (pieces d.now) (inode_at page.old.0 slot) }
    ensures others { (other : ℕ) → other < 8 → other ≢ slot → inode_at page.new.0 other ≡ inode_at page.old.0 other }
    ensures read_back { dinode_of (inode_at page.new.0 slot) ≡ d.now }
    ensures size { length page.new.0 ≡ 4096 }
{
    let at = 512 * slot as usize;
    put_fields(&mut page.0[at..at + 512], d);
}

/// Puts the fields into the bytes of an inode.
fn put_fields(bytes: &mut [u8], d: &Dinode)
    requires size { length bytes.old ≡ 512 }
    requires fits { FitsDinode d.now }
    ensures bytes { bytes.new ≡ puts (pieces d.now) bytes.old }
    ensures read_back { dinode_of bytes.new ≡ d.now }
{
    let d = *d;
    put_u32(bytes, 0, d.inostamp);
    put_u32(bytes, 4, d.fileset);
    put_u32(bytes, 8, d.number);
    put_u32(bytes, 12, d.generation);
    put_pxd(bytes, 16, d.ixpxd);
    put_u64(bytes, 24, d.size);
    put_u64(bytes, 32, d.nblocks);
    put_u32(bytes, 40, d.nlink);
    put_u32(bytes, 44, d.uid);
    put_u32(bytes, 48, d.gid);
    put_u32(bytes, 52, d.mode);
    put_moment(bytes, 56, d.atime);
    put_moment(bytes, 64, d.ctime);
    put_moment(bytes, 72, d.mtime);
    put_moment(bytes, 80, d.otime);
    put_dxd(bytes, 88, d.acl);
    put_dxd(bytes, 104, d.ea);
    put_u32(bytes, 120, d.next_index);
    put_u32(bytes, 124, d.acltype);
    put_array(bytes, 128, &d.rest);
}
