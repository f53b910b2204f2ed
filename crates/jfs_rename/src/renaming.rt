//! Another name for an object. (POSIX: rename.)

ghost use Rattle.std.specs.Prelude.{◌≡◌, ◌≤◌, ◌<◌, ℕ, [], length, get_or};
ghost use Rattle.jfs_disk.specs.Image.{page_of};
ghost use Rattle.jfs_link.specs.way.specs.Answer.{Carries};
ghost use Rattle.jfs_rename_steps.specs.Moves.{FitMoving, IsWithin};
ghost use Rattle.jfs_plain.specs.Step.{rename};
ghost use Rattle.jfs_rename.specs.Renames.{MapAfter, MovesReserved, RenamesAs};
ghost use Rattle.jfs_rename.specs.Once.{FreesOnce};
ghost use Rattle.jfs_rename.specs.Steps.{StepsAs};

use crate::asking::ask;
use crate::permits::Asked;
use jfs_bits::Moment;
use jfs_bmap::BlockMap;
use jfs_imap::InodeMap;
use jfs_link::claim::{ClaimError, Want, take};
use jfs_name::Name;
use jfs_plain::Refusal;
use jfs_ranges::{PageView, Tx};
use jfs_rename_steps::{Moving, move_over, move_to_free};
use std::alloc::Global;

/// What came of a rename that nothing refuses.
#[derive(Drop)]
pub enum Renamed {
    /// Its transaction.
    Done(Tx),
    /// Both names are one object's: nothing changes.
    Same,
    /// Busy blocks stand between it and its blocks: a commit is due first.
    NeedsLog,
}

/// Gives the object at the end of `from` the last name of `to` in place of its own; the greatest size of a file is `limit` bytes. An object that has that name loses it, and goes with its last
/// one. In the block map exactly the blocks that the transaction takes are reserved beside those before. `Err` comes by the first cause of `ask`, or as `move_to_free` and `move_over` refuse;
/// the map is as before then, and where nothing changes or a commit is due.
pub fn rename<V: PageView>(
    alloc: Global,
    view: &mut V,
    blocks: &mut BlockMap,
    inodes: &InodeMap,
    from: &[Name],
    to: &[Name],
    limit: u64,
    now: Moment,
) -> Result<Renamed, Refusal>
    requires from { (i : ℕ) → i < length from.now → length (get_or from.now i []) ≤ 255 }
    requires to { (i : ℕ) → i < length to.now → length (get_or to.now i []) ≤ 255 }
    requires size { length blocks.old.states ≡ V.PageView.block_count view.old }
    ensures image { V.PageView.tells → V.PageView.image view.new ≡ V.PageView.image view.old }
    ensures count_of_blocks { V.PageView.block_count view.new ≡ V.PageView.block_count view.old }
    ensures device { V.PageView.device view.new ≡ V.PageView.device view.old }
    ensures fault { Carries (V.PageView.faults view.old) (V.PageView.faults view.new) result }
    ensures map { MapAfter blocks.old blocks.new result }
    // On a consistent volume the transaction takes the plain step, and a refusal is the plain step's.
    ensures steps { V.PageView.tells → StepsAs (V.PageView.block_count view.old) (page_of (V.PageView.image view.old)) blocks.old inodes.now limit (λ room t. rename room t from.now to.now now) result }
    ensures once { V.PageView.tells → FreesOnce (V.PageView.block_count view.old) (page_of (V.PageView.image view.old)) blocks.old inodes.now limit result }
    // On any volume it is done as asked, by its steps; a refusal has its cause.
    ensures meets { V.PageView.tells → RenamesAs (V.PageView.block_count view.old) (page_of (V.PageView.image view.old)) blocks.old blocks.new inodes.now from.now to.now limit now result }
{
    let asked = match ask(view, blocks, inodes, from, to, limit) {
        Ok(asked) => asked,
        Err(e) => return Err(e),
    };
    let old = &from[from.len() - 1];
    let new = &to[to.len() - 1];
    match asked {
        Asked::Same => Ok(Renamed::Same),
        Asked::Free(moving) => move_reserved(alloc, view, blocks, &moving, old, new, now),
        Asked::Over(moving, there) => {
            match move_over(alloc, view, &moving, &there, old, new, now) {
                Ok(tx) => Ok(Renamed::Done(tx)),
                Err(e) => Err(e),
            }
        }
    }
}

/// Reserves eight blocks for the target's tree, moves the object, and gives back what the tree left.
fn move_reserved<V: PageView>(
    alloc: Global,
    view: &mut V,
    blocks: &mut BlockMap,
    moving: &Moving,
    old: &Name,
    new: &Name,
    now: Moment,
) -> Result<Renamed, Refusal>
    requires within { IsWithin (V.PageView.block_count view.old) moving.now }
    requires fits { FitMoving moving.now }
    requires few { moving.now.target.inode.nlink ≤ 65535 }
    requires old { length old.now ≤ 255 }
    requires new { length new.now ≤ 255 }
    requires size { length blocks.old.states ≡ V.PageView.block_count view.old }
    ensures image { V.PageView.tells → V.PageView.image view.new ≡ V.PageView.image view.old }
    ensures count_of_blocks { V.PageView.block_count view.new ≡ V.PageView.block_count view.old }
    ensures device { V.PageView.device view.new ≡ V.PageView.device view.old }
    ensures fault { Carries (V.PageView.faults view.old) (V.PageView.faults view.new) result }
    ensures map { MapAfter blocks.old blocks.new result }
    ensures moves { V.PageView.tells → MovesReserved (V.PageView.block_count view.old) (page_of (V.PageView.image view.old)) moving.now old.now new.now now blocks.old blocks.new result }
{
    let want = Want {
        run: false,
        blocks: 8,
    };
    let mut claim = match take(alloc, blocks, want) {
        Ok(claim) => claim,
        Err(ClaimError::NeedsLog) => return Ok(Renamed::NeedsLog),
        Err(ClaimError::Memory) => return Err(Refusal::OutOfMemory),
    };
    match move_to_free(alloc, view, moving, old, new, now, &mut claim.fresh) {
        Ok(tx) => {
            claim.settle(blocks);
            Ok(Renamed::Done(tx))
        }
        Err(e) => {
            claim.undo(blocks);
            Err(e)
        }
    }
}
