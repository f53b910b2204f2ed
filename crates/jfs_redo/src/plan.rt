//! What redo knows before it writes.

ghost use Rattle.std.specs.Prelude.{◌≡◌, ◌<◌, ◌≤◌, ◌*◌, ◌%◌, ◌^◌, ℕ, length, IfOk};
ghost use Rattle.jfs_bits.specs.Bits.{is_taken};
ghost use Rattle.jfs_disk.specs.Image.{page_of};
ghost use Rattle.jfs_ranges.specs.View.{CarriesCount};
ghost use Rattle.jfs_records.specs.Redo.{all_of};
ghost use Rattle.std.specs.List.{AllByRecursion};
ghost use Rattle.jfs_super.specs.Rules.{blocks_of};
ghost use Rattle.jfs_super.specs.declared.fields.Super.{Super};
ghost use Rattle.jfs_bmap.specs.MapFile.{AreGroups};
ghost use Rattle.jfs_bmap.specs.Set.{taken_at};
ghost use Rattle.jfs_redo_steps.specs.each.specs.Each.{AllFit};
ghost use Rattle.jfs_redo_steps.specs.steps.specs.After.{used_after, extents_after};
ghost use Rattle.jfs_mount_maps.specs.mount_rules.specs.Subject.{subject_of};
ghost use Rattle.jfs_redo.specs.Log.{ExtentsLieWithin};
ghost use Rattle.jfs_redo.specs.Plan.{IsPlan, Plans};

use jfs_bmap::OwnedMap;
use jfs_mount_maps::mount_rules::{BadMount, Maps, Mounted, map_files};
use jfs_mount_maps::sets::used_blocks;
use jfs_ranges::{PageView, Tx, ViewError};
use jfs_redo_steps::{redo_blocks, redo_extents};
use std::alloc::{AllocError, Global};

/// What redo knows before it writes: the files of both maps, the blocks in use after all transactions, and the inode extents then.
#[derive(Drop)]
pub(crate) struct Plan {
    pub(crate) maps: Maps,
    pub(crate) blocks: OwnedMap,
    pub(crate) places: Vec<Option<u32>>,
}

/// The most bytes of a set with a bit for each block.
const MOST: usize = 1 << 28;

/// What redo is going to do, of a volume whose maps break no rule; else the first rule on them that is broken.
pub(crate) fn make_plan<V: PageView>(
    alloc: Global,
    view: &mut V,
    agsize: u32,
    transactions: &[Tx],
) -> Result<Result<Plan, BadMount>, ViewError>
    requires size { 15 ≤ V.PageView.block_count view.old }
    requires most { V.PageView.block_count view.old ≤ 2 ^ 23 }
    requires groups { AreGroups (V.PageView.block_count view.old) agsize }
    requires within { AllByRecursion (ExtentsLieWithin (V.PageView.block_count view.old)) transactions.now }
    ensures image { V.PageView.tells → V.PageView.image view.new ≡ V.PageView.image view.old }
    ensures count_of_blocks { V.PageView.block_count view.new ≡ V.PageView.block_count view.old }
    ensures device { V.PageView.device view.new ≡ V.PageView.device view.old }
    ensures fault { CarriesCount (V.PageView.faults view.old) (V.PageView.faults view.new) result }
    ensures plan { IfOk result (λ answer. IfOk answer (IsPlan (V.PageView.block_count view.old) agsize)) }
    ensures plans { V.PageView.tells → IfOk result (λ answer. (s : Super) → blocks_of s ≡ V.PageView.block_count view.old →
        Plans (subject_of s (page_of (V.PageView.image view.old))) transactions.now answer) }
{
    let Mounted { maps, places } = match map_files(alloc, view)? {
        Ok(found) => found,
        Err(bad) => return Ok(Err(bad)),
    };
    let used = used_blocks(alloc, view, &maps)?;
    match plan_with(alloc, maps, places, used, agsize, transactions) {
        Ok(plan) => Ok(Ok(plan)),
        Err(_) => Err(ViewError::Memory),
    }
}

/// The same once the volume is read.
fn plan_with(
    alloc: Global,
    maps: Maps,
    places: Vec<Option<u32>>,
    used: Vec<u8>,
    agsize: u32,
    transactions: &[Tx],
) -> Result<Plan, AllocError>
    requires most { maps.blocks ≤ 2 ^ 23 }
    requires groups { AreGroups maps.blocks agsize }
    requires size { maps.blocks ≤ 8 * length used.items }
    requires words { length used.items % 4 ≡ 0 }
    requires few { maps.inodes.iags ≤ 65536 }
    requires all { length places.items ≡ 128 * maps.inodes.iags }
    requires fit { AllFit maps.blocks places.items }
    requires within { AllByRecursion (ExtentsLieWithin maps.blocks) transactions.now }
    ensures plan { IfOk result (IsPlan maps.blocks agsize) }
    ensures maps { IfOk result (λ plan. plan.maps ≡ maps) }
    ensures used { IfOk result (λ plan. (b : ℕ) → b < maps.blocks → taken_at plan.blocks.owned b ≡ used_after (all_of transactions.now) (is_taken used.items) b) }
    ensures places { IfOk result (λ plan. plan.places.items ≡ extents_after (all_of transactions.now) places.items) }
{
    let mut used = used;
    let mut places = places;
    if used.len() > MOST {
        return Err(AllocError);
    }
    redo_blocks(transactions, used.as_mut_slice());
    redo_extents(transactions, places.as_mut_slice());
    let blocks = OwnedMap::from_set(alloc, used.as_slice(), maps.blocks, agsize)?;
    Ok(Plan {
        maps,
        blocks,
        places,
    })
}
