//! A file's tree gets the extents of what is written.

ghost use Rattle.std.specs.Prelude.{◌≡◌, ◌≤◌, ◌<◌, ◌++◌, length, OnOk, IfErr};
ghost use Rattle.jfs_disk.specs.Image.{page_of};
ghost use Rattle.jfs_tree.specs.Form.{AllBelow};
ghost use Rattle.jfs_tree.specs.Fresh.{blocks_of};
ghost use Rattle.jfs_read.specs.way.specs.Answer.{Carries};
ghost use Rattle.jfs_link.specs.steps.specs.Gains.{TakesFront};
ghost use Rattle.jfs_put_range.specs.Call.{IsShortRange};
ghost use Rattle.jfs_write_pages.specs.Spots.{extents_for, SpotsFit};
ghost use Rattle.jfs_write.specs.Tree.{PutsExtents, RefusesExtents, run_allocs};

use crate::answer::from_extents;
use jfs_bits::PxdList;
use jfs_plain::Refusal;
use jfs_put_range::put_range;
use jfs_ranges::{Edit, PageView, Tx};
use jfs_write_pages::{Spot, extents_for};
use std::alloc::{AllocError, Global};

/// Puts the extents of those blocks into a file's tree that weren't recorded; the file's inode stands on this page. Pages are taken from `fresh` in its order. Where all blocks were recorded, nothing
/// changes. Refused as `put_range` is.
pub(crate) fn put_extents<V: PageView>(
    alloc: Global,
    view: &mut V,
    page: u32,
    root: &mut [u8],
    spots: &[Spot],
    fresh: &mut PxdList,
    tx: &mut Tx,
) -> Result<(), Refusal>
    requires root { length root.old ≡ 288 }
    requires spots { SpotsFit spots.now }
    requires range { 0 < length (extents_for spots.now) → IsShortRange (V.PageView.block_count view.old) (extents_for spots.now) }
    requires enough { 0 < length (extents_for spots.now) → 15 ≤ length (blocks_of fresh.old) }
    requires within { AllBelow (V.PageView.block_count view.old) (blocks_of fresh.old) }
    ensures image { V.PageView.tells → V.PageView.image view.new ≡ V.PageView.image view.old }
    ensures count_of_blocks { V.PageView.block_count view.new ≡ V.PageView.block_count view.old }
    ensures device { V.PageView.device view.new ≡ V.PageView.device view.old }
    ensures fault { Carries (V.PageView.faults view.old) (V.PageView.faults view.new) result }
    ensures width { length root.new ≡ 288 }
    ensures puts { V.PageView.tells → OnOk result (PutsExtents (V.PageView.block_count view.old) (page_of (V.PageView.image view.old)) (extents_for spots.now) root.old root.new (blocks_of fresh.old) (blocks_of fresh.new) tx.old tx.new) }
    ensures taken { OnOk result (TakesFront (blocks_of fresh.old) (blocks_of fresh.new)) }
    ensures refused { V.PageView.tells → IfErr result (RefusesExtents (V.PageView.block_count view.old) (page_of (V.PageView.image view.old)) page (extents_for spots.now) root.old (blocks_of fresh.old)) }
{
    let Ok(xs) = extents_for(alloc, spots) else {
        return Err(Refusal::OutOfMemory);
    };
    if xs.len() == 0 {
        return Ok(());
    }
    match put_range(alloc, view, root, &xs, fresh, tx) {
        Ok(()) => Ok(()),
        Err(e) => Err(from_extents(page, e)),
    }
}

/// Takes the blocks of runs.
pub(crate) fn take_runs(runs: &PxdList, tx: &mut Tx) -> Result<(), AllocError>
    ensures { OnOk result (tx.new ≡ tx.old ++ run_allocs runs.now) }
{
    for run in runs.as_slice() {
        tx.push(Edit::Alloc(*run))?;
    }
    Ok(())
}
