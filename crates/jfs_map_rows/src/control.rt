//! A control page of level 0, byte by byte.

ghost use Rattle.std.specs.Prelude.{◌<◌, ℕ};
ghost use Rattle.jfs_dmapctl.specs.Control.{value_at, IsValue, IsControl};

use jfs_disk::Page;
use jfs_dmapctl::{ctl_canonical, ctl_find, ctl_set};

/// The control page over 1,024 wholly free dmaps.
pub fn free_control(page: &mut Page)
    ensures { (own : ℕ → ℕ) × IsControl 0 own page.new.0 }
{
    let leaves = free_leaves();
    ctl_canonical(&leaves, 0, page);
}

fn free_leaves() -> [i8; 1024]
    ensures { (v : ℕ) → IsValue 0 (value_at result v) }
{
    [13; 1024]
}

/// Gives a leaf a value.
pub fn set_one(page: &mut Page, leaf: u32, value: i8)
    requires canonical { (own : ℕ → ℕ) × IsControl 0 own page.old.0 }
    requires within { leaf < 1024 }
    requires value { IsValue 0 value }
    ensures { (own : ℕ → ℕ) × IsControl 0 own page.new.0 }
{
    ctl_set(page, leaf, value);
}

/// The lowest leaf with a run.
pub fn find_one(page: &Page, l2: u32) -> Option<u32>
    requires { (own : ℕ → ℕ) × IsControl 0 own page.now.0 }
{
    ctl_find(page, l2)
}

#[cfg(test)]
mod tests {
    use super::*;

    // The leaves after leaf 5 got the value 4, by place and value; every other leaf is -1.
    static LEAVES: [(usize, u8); 11] = [
        (0, 15),
        (4, 13),
        (5, 4),
        (6, 14),
        (8, 16),
        (16, 17),
        (32, 18),
        (64, 19),
        (128, 20),
        (256, 21),
        (512, 22),
    ];

    // The lowest leaves with runs of that page, by l2.
    static LOWEST: [(u32, Option<u32>); 7] = [
        (4, Some(0)),
        (13, Some(0)),
        (15, Some(0)),
        (16, Some(8)),
        (22, Some(512)),
        (23, None),
        (40, None),
    ];

    fn leaf_of(place: usize) -> u8 {
        for (leaf, value) in LEAVES.iter() {
            if *leaf == place {
                return *value;
            }
        }
        255
    }

    /// The first leaf that has another value.
    fn first_wrong(page: &Page) -> Option<usize> {
        for leaf in 0..1024 {
            if page.0[358 + leaf] != leaf_of(leaf) {
                return Some(leaf);
            }
        }
        None
    }

    #[test]
    fn control_rows(rt: HostRuntime) {
        let mut page = Page::zeros();
        free_control(&mut page);
        // the root, and the leaves 0 and 1
        assert!(rt; page.0[17] == 23 && page.0[358] == 23 && page.0[359] == 255);
        set_one(&mut page, 5, 4);
        assert!(rt; page.0[17] == 22 && first_wrong(&page) == None);
        for (l2, leaf) in LOWEST.iter() {
            assert!(rt; find_one(&page, *l2) == *leaf, "lowest {l2}");
        }
        set_one(&mut page, 5, 13);
        assert!(rt; page.0[358] == 23 && find_one(&page, 23) == Some(0));
    }
}
