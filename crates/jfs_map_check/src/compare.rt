//! Two pages, byte by byte, number by number and word by word.

ghost use Rattle.std.specs.Prelude.{◌≡◌, ◌+◌, ◌*◌, ◌<◌, ◌≤◌, ◌↔◌, length, ℕ, IsTrue};
ghost use Rattle.jfs_bits.specs.Bits.{is_taken};
ghost use Rattle.jfs_bits.specs.Field.{field_of};
ghost use Rattle.jfs_map_check.specs.Compared.{AgreeWithin, AgreeOutside, AreBytesWithin, AreBytesOutside};

use jfs_bits::{get_u32, get_u64};
use jfs_disk::Page;

/// Whether two pages hold the same bytes but for those from `from` to before `to`.
pub(crate) fn agree_outside(one: &Page, other: &Page, from: usize, to: usize) -> bool
    requires { from ≤ 4096 }
    ensures same { IsTrue result ↔ AgreeOutside from to one.now.0 other.now.0 }
    // for the prover alone: a page holds 4,096 bytes
    ensures size { length one.now.0 ≡ 4096 }
    ensures bytes { AreBytesOutside from to one.now.0 }
    ensures bytes_too { AreBytesOutside from to other.now.0 }
{
    let front = agree_within(one, other, 0, from);
    let back = agree_within(one, other, to, 4096);
    front && back
}

/// Whether two pages hold the same bytes from `from` to before `to`. No branch depends on a byte, so many are compared at a time.
fn agree_within(one: &Page, other: &Page, from: usize, to: usize) -> bool
    requires { to ≤ 4096 }
    ensures same { IsTrue result ↔ AgreeWithin from to one.now.0 other.now.0 }
    // for the prover alone: a page holds 4,096 bytes
    ensures size { length one.now.0 ≡ 4096 }
    ensures bytes { AreBytesWithin from to one.now.0 }
    ensures bytes_too { AreBytesWithin from to other.now.0 }
{
    let one: &[u8] = &one.0;
    let other: &[u8] = &other.0;
    let mut same = true;
    for i in from..to {
        same &= one[i] == other[i];
    }
    same
}

/// Whether two maps have the same bits for the 32 places of word `w`.
pub fn same_word(one: &[u8], other: &[u8], w: u32) -> bool
    requires within { 4 * w + 4 ≤ length one.now }
    requires within_too { 4 * w + 4 ≤ length other.now }
    ensures { IsTrue result ↔ ((i : ℕ) → i < 32 → is_taken one.now (32 * w + i) ≡ is_taken other.now (32 * w + i)) }
{
    let at = 4 * w as usize;
    get_u32(one, at) == get_u32(other, at)
}

/// Whether two control pages of a block map have the same number of free blocks for each of the 128 groups.
pub fn same_groups(one: &[u8], other: &[u8]) -> bool
    requires size { length one.now ≡ 4096 }
    requires size_too { length other.now ≡ 4096 }
    ensures { IsTrue result ↔ ((k : ℕ) → k < 128 → field_of one.now (56 + 8 * k) 8 ≡ field_of other.now (56 + 8 * k) 8) }
{
    for k in 0..128 {
        if get_u64(one, 56 + 8 * k) != get_u64(other, 56 + 8 * k) {
            return false;
        }
    }
    true
}
