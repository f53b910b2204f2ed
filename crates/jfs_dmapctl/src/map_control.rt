//! The control page of the block map, both ways.

ghost use Rattle.std.specs.Prelude.{◌≡◌, ◌+◌, ◌*◌, ◌<◌, ◌≤◌, ◌⊎◌, length, slice_index, ℕ};
ghost use Rattle.jfs_bits.specs.Field.{field_of, range_of};
ghost use Rattle.jfs_bits.specs.Piece.{puts};
ghost use Rattle.jfs_dmapctl.specs.MapControl.{IsMapControl, FitsFront, front_of};

use jfs_bits::{get_u8, get_u32, get_u64, put_u8, put_u32, put_u64};
use jfs_disk::Page;

/// The numbers of the block map's control page, by the header's names: blocks and free blocks of the volume, then the
/// allocation groups' numbers, and the greatest free run's l2, -1 where no block is free. (JFS Layout, `dbmap_disk`.)
#[derive(Clone, Copy, PartialEq, Eq, Debug)]
pub struct MapControl {
    pub mapsize: u64,
    pub nfree: u64,
    pub l2nbperpage: u32,
    pub numag: u32,
    pub maxlevel: u32,
    pub maxag: u32,
    pub agpref: u32,
    pub aglevel: u32,
    pub agheight: u32,
    pub agwidth: u32,
    pub agstart: u32,
    pub agl2size: u32,
    pub agfree: [u64; 128],
    pub agsize: u64,
    pub maxfreebud: i8,
}

/// The numbers that a page holds.
pub fn read_map_control(page: &Page) -> MapControl
    ensures { IsMapControl result page.now.0 }
{
    let bytes: &[u8] = &page.0;
    MapControl {
        mapsize: get_u64(bytes, 0),
        nfree: get_u64(bytes, 8),
        l2nbperpage: get_u32(bytes, 16),
        numag: get_u32(bytes, 20),
        maxlevel: get_u32(bytes, 24),
        maxag: get_u32(bytes, 28),
        agpref: get_u32(bytes, 32),
        aglevel: get_u32(bytes, 36),
        agheight: get_u32(bytes, 40),
        agwidth: get_u32(bytes, 44),
        agstart: get_u32(bytes, 48),
        agl2size: get_u32(bytes, 52),
        agfree: groups_of(bytes),
        agsize: get_u64(bytes, 1080),
        maxfreebud: get_u8(bytes, 1088).cast_signed(),
    }
}

/// The free counts of the 128 groups.
fn groups_of(bytes: &[u8]) -> [u64; 128]
    requires { length bytes.now ≡ 4096 }
    ensures { (k : ℕ) → k < 128 → slice_index result k ≡ field_of bytes.now (56 + 8 * k) 8 }
{
    let mut groups = [0u64; 128];
    for k in 0..128 {
        groups[k] = get_u64(bytes, 56 + 8 * k);
    }
    groups
}

/// Puts numbers into a page; the bytes behind them stay.
pub fn write_map_control(page: &mut Page, m: &MapControl)
    ensures control { IsMapControl m.now page.new.0 }
    ensures pad { range_of page.new.0 1089 3007 ≡ range_of page.old.0 1089 3007 }
    ensures size { length page.new.0 ≡ 4096 }
{
    let bytes: &mut [u8] = &mut page.0;
    put_front(bytes, m);
    put_groups(bytes, &m.agfree);
    put_u64(bytes, 1080, m.agsize);
    put_u8(bytes, 1088, m.maxfreebud.cast_unsigned());
}

/// Puts the fields before the groups' counts.
fn put_front(bytes: &mut [u8], m: &MapControl)
    requires { length bytes.old ≡ 4096 }
    ensures bytes { bytes.new ≡ puts (front_of m.now) bytes.old }
    ensures fits { FitsFront m.now }
{
    put_u64(bytes, 0, m.mapsize);
    put_u64(bytes, 8, m.nfree);
    put_u32(bytes, 16, m.l2nbperpage);
    put_u32(bytes, 20, m.numag);
    put_u32(bytes, 24, m.maxlevel);
    put_u32(bytes, 28, m.maxag);
    put_u32(bytes, 32, m.agpref);
    put_u32(bytes, 36, m.aglevel);
    put_u32(bytes, 40, m.agheight);
    put_u32(bytes, 44, m.agwidth);
    put_u32(bytes, 48, m.agstart);
    put_u32(bytes, 52, m.agl2size);
}

/// Puts the free counts of the groups.
fn put_groups(bytes: &mut [u8], groups: &[u64; 128])
    requires { length bytes.old ≡ 4096 }
    ensures counts { (k : ℕ) → k < 128 → field_of bytes.new (56 + 8 * k) 8 ≡ slice_index groups.now k }
    ensures beside { (p n : ℕ) → (p + n ≤ 56) ⊎ (1080 ≤ p) → range_of bytes.new p n ≡ range_of bytes.old p n }
{
    for k in 0..128 {
        put_u64(bytes, 56 + 8 * k, groups[k]);
    }
}
