//! Ranges that can be written at once.

ghost use Rattle.std.specs.Prelude.{◌≡◌, ◌<◌, ◌≤◌, ◌+◌, ◌^◌, true};
ghost use Rattle.std.specs.List.{All};
ghost use Rattle.jfs_xtpage.specs.Page.{end_of, rises_from};
ghost use Rattle.jfs_xtree.specs.Node.{IsGood};
ghost use Rattle.jfs_xtree.specs.Writing.{is_recorded};
ghost use Rattle.jfs_put_range.specs.Call.{IsShortRange, LiesFrom};

use jfs_bits::Xad;

/// The blocks of the volume on which the tests write.
pub const BLOCKS: u32 = 8192;

/// Whether these are recorded extents in rising order, of which each has a length and lies within the volume, and which lie within 17 consecutive blocks of a file.
pub fn is_range(list: &[Xad]) -> bool
    ensures { result ≡ true → IsShortRange 8192 list.now }
{
    if list.is_empty() {
        return false;
    }
    let start = list[0].offset;
    start < 1 << 32 && all_fit(list, start)
}

/// Whether the same holds, where the 17 blocks begin at this one.
fn all_fit(list: &[Xad], start: u64) -> bool
    requires { start < 2 ^ 32 }
    ensures recorded { result ≡ true → All (λ x. is_recorded x ≡ true) list.now }
    ensures good { result ≡ true → All (IsGood 8192) list.now }
    ensures ends { result ≡ true → All (λ x. end_of x < 2 ^ 40) list.now }
    ensures lies { result ≡ true → LiesFrom start list.now }
    ensures rises { result ≡ true → rises_from 0 list.now ≡ true }
{
    let mut low = start;
    for x in list {
        if !fits(*x, low, start) {
            return false;
        }
        low = x.offset + u64::from(x.at.len);
    }
    true
}

/// Whether an extent may stand from a block of the file on, in the 17 blocks from `start` on.
fn fits(x: Xad, low: u64, start: u64) -> bool
    requires { start < 2 ^ 32 }
    ensures recorded { result ≡ true → is_recorded x ≡ true }
    ensures good { result ≡ true → IsGood 8192 x }
    ensures ends { result ≡ true → end_of x < 2 ^ 40 }
    ensures to { result ≡ true → end_of x ≤ start + 17 }
    ensures end { result ≡ true → x.offset + x.at.len ≡ end_of x }
    ensures low { result ≡ true → low ≤ x.offset }
{
    x.flag & Xad::NOT_RECORDED == 0
        && x.offset >= low
        && x.offset <= start + 17
        && x.at.len >= 1
        && x.at.len <= 17
        && x.offset + u64::from(x.at.len) <= start + 17
        && x.at.addr < u64::from(BLOCKS)
        && x.at.addr + u64::from(x.at.len) <= u64::from(BLOCKS)
}
