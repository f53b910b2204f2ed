//! Pages that a transaction gives up.

ghost use Rattle.std.specs.Prelude.{◌≡◌};
ghost use Rattle.jfs_halves.specs.Marks.{frees, is_freeing};
ghost use Rattle.jfs_records.specs.Marks.{has_block, mark_of};
ghost use Rattle.jfs_volume.specs.Gone.{goes, gone_freed};

use jfs_bits::Pxd;
use jfs_ranges::Edit;

/// Whether the block of each page that a transaction gives up is one that it frees.
pub(crate) fn frees_gone(edits: &[Edit]) -> bool
    ensures { result ≡ gone_freed edits.now edits.now }
{
    for edit in edits {
        if !goes(edit, edits) {
            return false;
        }
    }
    true
}

/// Whether an edit gives up no page, or one whose block these edits free.
fn goes(edit: &Edit, edits: &[Edit]) -> bool
    ensures { result ≡ goes edits.now edit.now }
{
    match edit {
        Edit::NoRedo { page } => frees(edits, *page),
        Edit::Lines { .. } | Edit::Alloc(_) | Edit::Free(_) => true,
    }
}

/// Whether one of these edits frees block `b`.
fn frees(edits: &[Edit], b: u32) -> bool
    ensures { result ≡ frees b edits.now }
{
    for edit in edits {
        if frees_one(edit, b) {
            return true;
        }
    }
    false
}

fn frees_one(edit: &Edit, b: u32) -> bool
    ensures { result ≡ is_freeing (mark_of b edit.now) }
{
    match edit {
        Edit::Free(run) => is_in(run, u64::from(b)),
        Edit::Lines { .. } | Edit::NoRedo { .. } | Edit::Alloc(_) => false,
    }
}

fn is_in(run: &Pxd, b: u64) -> bool
    ensures { result ≡ has_block run.now b }
{
    run.addr <= b && b - run.addr < u64::from(run.len)
}
