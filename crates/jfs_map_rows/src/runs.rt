//! Runs of blocks of one page.

ghost use Rattle.std.specs.Prelude.{◌≡◌, ◌+◌, ◌<◌, ◌≤◌, ◌^◌, true, IfSome};
ghost use Rattle.jfs_bits.specs.Bits.{is_full};
ghost use Rattle.jfs_dmap.specs.Dmap.{blocks_of, taken_in, IsDmap};

use jfs_disk::Page;
use jfs_dmap::{dmap_clear, dmap_find, dmap_mark};

/// Takes the lowest free run of `2^l2` blocks of a page.
pub fn take_run(page: &mut Page, l2: u32) -> Option<u32>
    requires canonical { IsDmap page.old.0 }
    requires small { l2 ≤ 13 }
    ensures canonical { IsDmap page.new.0 }
    ensures blocks { blocks_of page.new.0 ≡ blocks_of page.old.0 }
    ensures taken { IfSome result (λ first. is_full (taken_in page.new.0) first (2 ^ l2) ≡ true) }
    ensures within { IfSome result (λ first. first + 2 ^ l2 ≤ 8192) }
{
    let first = dmap_find(page, l2)?;
    dmap_mark(page, first, 1 << l2);
    Some(first)
}

/// Takes such a run and gives it back.
pub fn take_and_give(page: &mut Page, l2: u32, blocks: u32) -> Option<u32>
    requires canonical { IsDmap page.old.0 }
    requires small { l2 ≤ 13 }
    requires blocks { blocks_of page.old.0 ≡ blocks }
    ensures canonical { IsDmap page.new.0 }
    ensures blocks { blocks_of page.new.0 ≡ blocks }
{
    let first = take_run(page, l2)?;
    if first + (1 << l2) <= blocks {
        dmap_clear(page, first, 1 << l2);
    }
    Some(first)
}

/// Takes runs, by their l2, and tells whether each was the wanted one.
pub fn are_taken(page: &mut Page, runs: &[(u32, Option<u32>)]) -> bool
    requires { IsDmap page.old.0 }
    ensures canonical { IsDmap page.new.0 }
    ensures blocks { blocks_of page.new.0 ≡ blocks_of page.old.0 }
{
    for run in runs {
        if run.0 > 13 || take_run(page, run.0) != run.1 {
            return false;
        }
    }
    true
}
