//! Leaves of a control page are set, and the lowest of them with a free run is found.

ghost use Rattle.std.specs.Prelude.{◌+◌, ◌<◌, ◌≤◌, ℕ, IsNone};
ghost use Rattle.jfs_buddy.specs.Tree.{rank_of};
ghost use Rattle.jfs_buddy.specs.Buddy.{with_own, IsLowestRun};
ghost use Rattle.jfs_dmapctl.specs.Control.{whole_of, IsValue, IsControl};

use crate::layout::{TREE, TREE_END, WHOLE};
use crate::part::set_rank;
use jfs_bits::get_u8;
use jfs_buddy::{find_run, rank_of_value};
use jfs_disk::Page;

/// Gives a leaf of a canonical page a value, -1 to that of a wholly free leaf. Only the leaves of the runs that it splits or
/// joins, and the nodes above them, are visited.
pub fn ctl_set(page: &mut Page, leaf: u32, value: i8)
    requires canonical { (level : ℕ) × ((own : ℕ → ℕ) × IsControl level own page.old.0) }
    requires within { leaf < 1024 }
    ensures { (level : ℕ) (own : ℕ → ℕ) → IsControl level own page.old.0 → IsValue level value → IsControl level (with_own own leaf (rank_of value)) page.new.0 }
{
    let bytes: &mut [u8] = &mut page.0;
    let whole = get_u8(bytes, WHOLE) + 1;
    set_rank(bytes, whole, leaf, rank_of_value(value));
}

/// The lowest leaf of a canonical page at which a free run of `2^l2` blocks lies or begins, found from the root down; None
/// exactly where there is none.
pub fn ctl_find(page: &Page, l2: u32) -> Option<u32>
    requires { (level : ℕ) × ((own : ℕ → ℕ) × IsControl level own page.now.0) }
    ensures found { (level : ℕ) (own : ℕ → ℕ) → IsControl level own page.now.0 → l2 ≤ whole_of level + 10 → IsLowestRun 5 own (whole_of level + 1) (l2 + 1) result }
    ensures too_long { (level : ℕ) (own : ℕ → ℕ) → IsControl level own page.now.0 → whole_of level + 10 < l2 → IsNone result }
{
    let bytes: &[u8] = &page.0;
    let whole = get_u8(bytes, WHOLE) + 1;
    if l2 > u32::from(whole) + 9 {
        return None;
    }
    find_run(&bytes[TREE..TREE_END], 5, whole, l2 as u8 + 1)
}
