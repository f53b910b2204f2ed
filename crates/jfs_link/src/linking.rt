//! One more name for an object. (POSIX: link.)

ghost use Rattle.std.specs.Prelude.{◌≡◌, ◌≤◌, ◌<◌, ℕ, [], length, get_or, IfErr};
ghost use Rattle.jfs_disk.specs.Image.{page_of};
ghost use Rattle.jfs_plain.specs.Step.{link};
ghost use Rattle.jfs_steps.specs.way.specs.Answer.{Carries};
ghost use Rattle.jfs_link.specs.Link.{StepsBy, MapAfter, LinksAs};

use crate::asking::ask;
use crate::joining::join;
use jfs_bits::Moment;
use jfs_bmap::BlockMap;
use jfs_claim::{ClaimError, Want, take};
use jfs_imap::InodeMap;
use jfs_name::Name;
use jfs_plain::Refusal;
use jfs_ranges::{PageView, Tx};
use std::alloc::Global;

/// What came of a link that nothing refuses.
#[derive(Drop)]
pub enum Linked {
    /// Its transaction.
    Done(Tx),
    /// Busy blocks stand between it and its blocks: a commit is due first.
    NeedsLog,
}

/// Gives the object at the end of `from`, which is no directory, the name at the end of `to`: the transaction, and in the block map exactly the blocks that it takes are reserved beside
/// those before. `Err` comes by the first cause of `ask`, or for a fault or want of memory; the map is as before then, and where a commit is due.
pub fn link<V: PageView>(
    alloc: Global,
    view: &mut V,
    blocks: &mut BlockMap,
    inodes: &InodeMap,
    from: &[Name],
    to: &[Name],
    now: Moment,
) -> Result<Linked, Refusal>
    requires from { (i : ℕ) → i < length from.now → length (get_or from.now i []) ≤ 255 }
    requires to { (i : ℕ) → i < length to.now → length (get_or to.now i []) ≤ 255 }
    requires size { length blocks.old.states ≡ V.PageView.block_count view.old }
    ensures image { V.PageView.tells → V.PageView.image view.new ≡ V.PageView.image view.old }
    ensures count_of_blocks { V.PageView.block_count view.new ≡ V.PageView.block_count view.old }
    ensures device { V.PageView.device view.new ≡ V.PageView.device view.old }
    ensures fault { Carries (V.PageView.faults view.old) (V.PageView.faults view.new) result }
    ensures map { MapAfter blocks.old blocks.new result }
    // On a consistent volume the transaction takes the plain step.
    ensures steps { V.PageView.tells → StepsBy (V.PageView.block_count view.old) (page_of (V.PageView.image view.old)) blocks.old blocks.new inodes.now (λ room t. link room t from.now to.now now) result }
    // On any volume it is done as asked, by its two steps; a refusal has its cause.
    ensures meets { V.PageView.tells → LinksAs (V.PageView.block_count view.old) (page_of (V.PageView.image view.old)) blocks.old inodes.now from.now to.now now result }
{
    let joint = match ask(view, blocks, inodes, from, to) {
        Ok(joint) => joint,
        Err(e) => return Err(e),
    };
    let want = Want {
        run: false,
        blocks: 8,
    };
    let mut claim = match take(alloc, blocks, want) {
        Ok(claim) => claim,
        Err(ClaimError::NeedsLog) => return Ok(Linked::NeedsLog),
        Err(ClaimError::Memory) => return Err(Refusal::OutOfMemory),
    };
    match join(
        alloc,
        view,
        &joint,
        &to[to.len() - 1],
        now,
        &mut claim.fresh,
    ) {
        Ok(tx) => {
            claim.settle(blocks);
            Ok(Linked::Done(tx))
        }
        Err(e) => {
            claim.undo(blocks);
            Err(e)
        }
    }
}
