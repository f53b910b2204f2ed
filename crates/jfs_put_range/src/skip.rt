//! Children that a range leaves as they are.

ghost use Rattle.std.specs.Prelude.{◌≡◌, ◌<◌, ◌≤◌, ◌+◌, ◌-◌, ◌&&◌, length, drop};
ghost use Rattle.jfs_xtree.specs.Node.{BeginsAt};
ghost use Rattle.jfs_put_range.specs.Parts.{BeginsBy, is_none};

use crate::part::Part;
use jfs_bits::Xad;

/// How many of an inner page's entries name children that end at or before a block of the file: a child ends where the next one begins.
pub(crate) fn children_before(entries: &[Xad], block: u64) -> usize
    requires some { 0 < length entries.now }
    ensures within { result < length entries.now }
    ensures begins { 0 < result → BeginsBy block (drop result entries.now) }
{
    let mut at = 0;
    for i in 1..entries.len() {
        if block < entries[i].offset {
            return at;
        }
        at = i;
    }
    at
}

/// The first block of the file that a part has.
pub(crate) fn first_block(part: &Part) -> u64
    requires { 0 < length part.now.xs.items }
    ensures { BeginsAt result part.now.xs.items }
{
    part.xs[0].offset
}

/// Whether what stands behind these entries is the first of its page.
pub(crate) fn is_first(top: bool, before: &[Xad]) -> bool
    ensures { result ≡ (top && is_none before.now) }
{
    top && before.is_empty()
}
