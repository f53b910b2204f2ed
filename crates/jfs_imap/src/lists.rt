//! The lists of inode allocation groups (IAGs), in rising number.

ghost use Rattle.std.specs.Prelude.{◌≡◌, ◌+◌, ◌*◌, ◌%◌, ◌<◌, ◌≤◌, ◌==◌, ◌&&◌, length, get_or, ℕ};
ghost use Rattle.jfs_iag.specs.Canonical.{IsNext, IsPrevious, AreNeighbors};
ghost use Rattle.jfs_imap.specs.Lists.{is_listed};

use crate::summary::Summary;
use jfs_iag::END;

/// Whether IAG `k` stands in the list of group `g`: it is one of the group's, and one of its 128 extents is marked.
fn is_in_list(marks: &Summary, numag: u32, g: u32, k: u32) -> bool
    requires room { 128 * k + 128 ≤ length marks.now }
    requires groups { 0 < numag }
    ensures { result ≡ is_listed marks.now numag g k }
{
    k % numag == g && marks.has_any(k)
}

/// The first IAG from `from` on in the list of group `g`, -1 where there is none.
pub(crate) fn next_in(marks: &Summary, iags: u32, numag: u32, g: u32, from: u32) -> u32
    requires room { 128 * iags ≤ length marks.now }
    requires groups { 0 < numag }
    ensures { IsNext (is_listed marks.now numag g) iags from result }
{
    for k in from..iags {
        if is_in_list(marks, numag, g, k) {
            return k;
        }
    }
    END
}

/// The last IAG before `before` in the list of group `g`, -1 where there is none.
fn previous_in(marks: &Summary, numag: u32, g: u32, before: u32) -> u32
    requires room { 128 * before ≤ length marks.now }
    requires groups { 0 < numag }
    ensures { IsPrevious (is_listed marks.now numag g) before result }
{
    let mut k = before;
    while k > 0 {
        k -= 1;
        if is_in_list(marks, numag, g, k) {
            return k;
        }
    }
    END
}

/// The neighbors of IAG `k` in the list of its group, the next one and the one before; -1 for each where it isn't in the list.
pub(crate) fn neighbors(marks: &Summary, iags: u32, numag: u32, k: u32) -> (u32, u32)
    requires room { 128 * iags ≤ length marks.now }
    requires within { k < iags }
    requires groups { 0 < numag }
    ensures { AreNeighbors (is_listed marks.now numag (k % numag)) iags k result.0 result.1 }
{
    let g = k % numag;
    if is_in_list(marks, numag, g, k) {
        (
            next_in(marks, iags, numag, g, k + 1),
            previous_in(marks, numag, g, k),
        )
    } else {
        (END, END)
    }
}
