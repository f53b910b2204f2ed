//! Writing a superblock.

ghost use Rattle.std.specs.Prelude.{◌≡◌};
ghost use Rattle.jfs_bits.specs.Piece.{puts};
ghost use Rattle.jfs_super.specs.Super.{super_of, pieces, FitsSuper};

use crate::fields::Super;
use jfs_bits::{put_array, put_moment, put_pxd, put_u8, put_u16, put_u32, put_u64};
use jfs_disk::Page;

/// Puts the fields into a page; all other bytes stay.
pub fn write_super(s: &Super, page: &mut Page)
    requires { FitsSuper s.now }
    ensures bytes { page.new.0 ≡ puts (pieces s.now) page.old.0 }
    ensures read_back { super_of page.new.0 ≡ s.now }
{
    let s = *s;
    let bytes: &mut [u8] = &mut page.0;
    put_u32(bytes, 0, s.magic);
    put_u32(bytes, 4, s.version);
    put_u64(bytes, 8, s.size);
    put_u32(bytes, 16, s.bsize);
    put_u16(bytes, 20, s.l2bsize);
    put_u16(bytes, 22, s.l2bfactor);
    put_u32(bytes, 24, s.pbsize);
    put_u16(bytes, 28, s.l2pbsize);
    put_u32(bytes, 32, s.agsize);
    put_u32(bytes, 36, s.flag.0);
    put_u32(bytes, 40, s.state.0);
    put_u32(bytes, 44, s.compress);
    put_pxd(bytes, 48, s.ait2);
    put_pxd(bytes, 56, s.aim2);
    put_u32(bytes, 64, s.logdev);
    put_u32(bytes, 68, s.logserial);
    put_pxd(bytes, 72, s.logpxd);
    put_pxd(bytes, 80, s.fsckpxd);
    put_moment(bytes, 88, s.time);
    put_u32(bytes, 96, s.fsckloglen);
    put_u8(bytes, 100, s.fscklog);
    put_array(bytes, 101, &s.fpack);
    put_u64(bytes, 112, s.xsize);
    put_pxd(bytes, 120, s.xfsckpxd);
    put_pxd(bytes, 128, s.xlogpxd);
    put_array(bytes, 136, s.uuid.as_bytes());
    put_array(bytes, 152, &s.label);
    put_array(bytes, 168, s.loguuid.as_bytes());
}
