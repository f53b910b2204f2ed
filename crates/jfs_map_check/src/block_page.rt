//! Pages of the block map's file.

ghost use Rattle.std.specs.Prelude.{◌<◌, ◌↔◌, ◌^◌, length, IsTrue};
ghost use Rattle.jfs_bits.specs.Field.{field_of};
ghost use Rattle.jfs_bmap.specs.Set.{taken_at};
ghost use Rattle.jfs_bmap.specs.MapFile.{IsMapPage};
ghost use Rattle.jfs_map_check.specs.Compared.{IsSameControl};
ghost use Rattle.jfs_findings.specs.Maps.{IsMapPageAs};

use crate::compare::{agree_outside, same_groups};
use jfs_bits::{get_u8, get_u32, get_u64};
use jfs_bmap::OwnedMap;
use jfs_disk::Page;

/// Whether page `n` of a block map's file is canonical in what is compared, where these blocks have owners. `canonical` gets the
/// page in its canonical form.
pub fn is_canonical(map: &OwnedMap, n: u32, page: &Page, canonical: &mut Page) -> bool
    ensures canonical { IsMapPage (length map.now.owned) map.now.agsize (taken_at map.now.owned) n canonical.new.0 }
    ensures page { IsTrue result ↔ IsMapPageAs (length map.now.owned) map.now.agsize (taken_at map.now.owned) n page.now.0 }
{
    map.write_page(n, canonical);
    match n {
        0 => same_numbers(page, canonical),
        1 | 2 => true,
        3 => agree_outside(page, canonical, 1382, 4096),
        _ => agree_outside(page, canonical, 374, 2048),
    }
}

/// Whether the map's control page has the same numbers as the canonical one, but for the nine that aren't compared.
fn same_numbers(page: &Page, canonical: &Page) -> bool
    ensures same { IsTrue result ↔ IsSameControl page.now.0 canonical.now.0 }
    // for the prover alone: a value of a tree is one byte
    ensures fits { field_of page.now.0 1088 1 < 2 ^ 8 }
    ensures fits_too { field_of canonical.now.0 1088 1 < 2 ^ 8 }
{
    let one: &[u8] = &page.0;
    let other: &[u8] = &canonical.0;
    let greatest = get_u8(one, 1088);
    let wanted = get_u8(other, 1088);
    greatest == wanted
        && get_u64(one, 0) == get_u64(other, 0)
        && get_u64(one, 8) == get_u64(other, 8)
        && get_u32(one, 52) == get_u32(other, 52)
        && get_u64(one, 1080) == get_u64(other, 1080)
        && same_groups(one, other)
}
