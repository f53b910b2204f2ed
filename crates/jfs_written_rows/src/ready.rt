//! Lists that can be written.

ghost use Rattle.std.specs.Prelude.{◌≡◌, ◌≤◌, true};
ghost use Rattle.std.specs.List.{All};
ghost use Rattle.jfs_bits.specs.Extent.{FitsXad};
ghost use Rattle.jfs_xtpage.specs.Page.{end_of, rises_from};
ghost use Rattle.jfs_written.specs.xtree.specs.Writing.{AllLong};

use jfs_bits::Xad;

/// Whether the extents rise, and each has a length and a place in an entry.
pub fn are_ready(list: &[Xad]) -> bool
    ensures fits { result ≡ true → All FitsXad list.now }
    ensures long { result ≡ true → AllLong list.now }
    ensures rises { result ≡ true → rises_from 0 list.now ≡ true }
{
    let mut low = 0;
    for x in list {
        if !is_ready(*x) || x.offset < low {
            return false;
        }
        low = end_of(x);
    }
    true
}

fn is_ready(x: Xad) -> bool
    ensures fits { result ≡ true → FitsXad x }
    ensures long { result ≡ true → 1 ≤ x.at.len }
{
    x.offset < 1 << 40 && x.at.len >= 1 && x.at.len < 1 << 24 && x.at.addr < 1 << 40
}

fn end_of(x: &Xad) -> u64
    requires fits { FitsXad x.now }
    requires long { 1 ≤ x.now.at.len }
    ensures { result ≡ end_of x.now }
{
    let offset = x.offset;
    offset + u64::from(x.at.len)
}
