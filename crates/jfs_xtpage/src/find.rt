//! The entries of a page, and the one at an offset.

ghost use Rattle.std.specs.Prelude.{◌≡◌, ◌<◌, ◌≤◌, ◌+◌, ◌*◌, ◌-◌, ◌/◌, ℕ, length, IfSome};
ghost use Rattle.jfs_bits.specs.Extent.{FitsXad};
ghost use Rattle.jfs_xtpage.specs.Page.{entry_of, count_of, IsRising, IsLastAt};

use jfs_bits::{Xad, get_u16, get_xad};

/// Entry `i` of a page.
pub fn xt_entry(bytes: &[u8], i: u16) -> Xad
    requires { 48 + 16 * i ≤ length bytes.now }
    ensures value { result ≡ entry_of bytes.now i }
    ensures fits { FitsXad result }
{
    get_xad(bytes, 32 + 16 * usize::from(i))
}

/// The last entry that isn't past the offset, by binary search, where offsets rise; `None` exactly where each one is past it.
pub fn xt_find(bytes: &[u8], offset: u64) -> Option<u16>
    requires within { 32 + 16 * count_of bytes.now ≤ length bytes.now }
    requires size { 32 ≤ length bytes.now }
    ensures place { IfSome result (λ i. i < count_of bytes.now) }
    ensures last { IsRising bytes.now (count_of bytes.now) → IsLastAt bytes.now offset result }
{
    let mut low = 0;
    let mut high = get_u16(bytes, 18).saturating_sub(2);
    while low < high {
        let middle = low + (high - low) / 2;
        if xt_entry(bytes, middle).offset <= offset {
            low = middle + 1;
        } else {
            high = middle;
        }
    }
    low.checked_sub(1)
}
