//! The transactions of a rename.

ghost use Rattle.std.specs.Prelude.{◌≡◌, ◌≤◌, ◌<◌, [], true, length, IfOk, IfErr};
ghost use Rattle.jfs_disk.specs.Image.{page_of};
ghost use Rattle.jfs_inode.specs.Inode.{FitsDinode};
ghost use Rattle.jfs_loss.specs.page_tree.specs.Form.{AllBelow};
ghost use Rattle.jfs_loss.specs.page_tree.specs.Fresh.{blocks_of};
ghost use Rattle.jfs_loss.specs.way.specs.Answer.{Carries};
ghost use Rattle.jfs_loss.specs.steps.specs.Gains.{TakesFront};
ghost use Rattle.jfs_rename_steps.specs.Moves.{FitMoving, IsWithin, MovesToFree, MovesOver, FreeRefused, OverRefused, passes_over, gain_of, source_after, leaving_free, leaving_over};

use crate::entries::{gain_entry, lead_entry};
use crate::leaving::{Leaving, leave};
use crate::objects::{displace, free_if_gone};
use jfs_bits::{Moment, PxdList};
use jfs_inode::Dinode;
use jfs_loss::reader::has_names;
use jfs_loss::steps::Gain;
use jfs_loss::way::Held;
use jfs_name::Name;
use jfs_plain::Refusal;
use jfs_ranges::{PageView, Tx};
use std::alloc::Global;

/// The object that is renamed, its directory, and the one that gets the new name.
#[derive(Clone, Copy)]
pub struct Moving {
    pub object: Held,
    pub source: Held,
    pub target: Held,
}

/// The transaction that gives the object a name under which nothing stands: the target gains it, the object arrives there, and then the source loses the old one. Where a directory comes to another directory, that one has one link more,
/// and the one that it leaves one less. The target's tree takes blocks from `fresh` in its order. A refusal is that of one of the two trees, or a fault or want of memory.
pub fn move_to_free<V: PageView>(
    alloc: Global,
    view: &mut V,
    moving: &Moving,
    old: &Name,
    new: &Name,
    now: Moment,
    fresh: &mut PxdList,
) -> Result<Tx, Refusal>
    requires within { IsWithin (V.PageView.block_count view.old) moving.now }
    requires fits { FitMoving moving.now }
    requires few { moving.now.target.inode.nlink ≤ 65535 }
    requires old { length old.now ≤ 255 }
    requires new { length new.now ≤ 255 }
    requires enough { 8 ≤ length (blocks_of fresh.old) }
    requires blocks { AllBelow (V.PageView.block_count view.old) (blocks_of fresh.old) }
    ensures image { V.PageView.tells → V.PageView.image view.new ≡ V.PageView.image view.old }
    ensures count_of_blocks { V.PageView.block_count view.new ≡ V.PageView.block_count view.old }
    ensures device { V.PageView.device view.new ≡ V.PageView.device view.old }
    ensures fault { Carries (V.PageView.faults view.old) (V.PageView.faults view.new) result }
    ensures front { IfOk result (λ tx. TakesFront (blocks_of fresh.old) (blocks_of fresh.new)) }
    ensures moves { V.PageView.tells → IfOk result (MovesToFree (V.PageView.block_count view.old) (page_of (V.PageView.image view.old)) moving.now old.now new.now now fresh.old fresh.new) }
    ensures refused { V.PageView.tells → IfErr result (FreeRefused (V.PageView.block_count view.old) (page_of (V.PageView.image view.old)) moving.now old.now new.now now fresh.old) }
{
    let gain = gain_of(moving, now);
    let after = match gain_entry(alloc, view, &moving.target, new, gain, fresh) {
        Ok(after) => after,
        Err(e) => return Err(e),
    };
    let leaving = leaving_free(moving, &after.inode);
    leave(alloc, view, &leaving, old, now, after.tx)
}

/// The transaction that gives the object the name of another one, `there`: the target leads the name to it, the other one loses the name and goes with its last one, and all that it has is freed; the object arrives, and then the
/// source loses the old name. Where a directory takes the place of one, the source has one link less. A refusal is the first page of the other object's tree that breaks a rule, that of one of the two trees, or a fault or want of memory.
pub fn move_over<V: PageView>(
    alloc: Global,
    view: &mut V,
    moving: &Moving,
    there: &Held,
    old: &Name,
    new: &Name,
    now: Moment,
) -> Result<Tx, Refusal>
    requires within { IsWithin (V.PageView.block_count view.old) moving.now }
    requires fits { FitMoving moving.now }
    requires there { there.now.page < V.PageView.block_count view.old }
    requires there_fits { FitsDinode there.now.inode }
    requires old { length old.now ≤ 255 }
    requires new { length new.now ≤ 255 }
    ensures image { V.PageView.tells → V.PageView.image view.new ≡ V.PageView.image view.old }
    ensures count_of_blocks { V.PageView.block_count view.new ≡ V.PageView.block_count view.old }
    ensures device { V.PageView.device view.new ≡ V.PageView.device view.old }
    ensures fault { Carries (V.PageView.faults view.old) (V.PageView.faults view.new) result }
    ensures moves { V.PageView.tells → IfOk result (MovesOver (V.PageView.block_count view.old) (page_of (V.PageView.image view.old)) moving.now there.now old.now new.now now) }
    ensures refused { V.PageView.tells → IfErr result (OverRefused (V.PageView.block_count view.old) (page_of (V.PageView.image view.old)) moving.now there.now old.now new.now now) }
{
    let mut tx = match free_if_gone(alloc, view, there) {
        Ok(tx) => tx,
        Err(e) => return Err(e),
    };
    let number = moving.object.number;
    let target = match lead_entry(alloc, view, &moving.target, new, number, now, &mut tx) {
        Ok(target) => target,
        Err(e) => return Err(e),
    };
    match displace(alloc, view, there, now, &mut tx) {
        Ok(()) => {}
        Err(e) => return Err(e),
    }
    let leaving = leaving_over(moving, &target);
    leave(alloc, view, &leaving, old, now, tx)
}

/// Whether a directory comes to another directory.
fn passes_over(moving: &Moving) -> bool
    ensures { result ≡ passes_over moving.now }
{
    has_names(&moving.object.inode) && moving.source.number != moving.target.number
}

/// What the target gains.
fn gain_of(moving: &Moving, now: Moment) -> Gain
    requires { moving.now.target.inode.nlink ≤ 65535 }
    ensures { result ≡ gain_of moving.now now }
{
    let links = moving.target.inode.nlink;
    Gain {
        inode: moving.object.number,
        links: if passes_over(moving) {
            links + 1
        } else {
            links
        },
        now,
    }
}

/// The source as it stands once the target has this inode: they may be one.
fn source_after(moving: &Moving, target: &Dinode) -> Held
    ensures { result ≡ source_after moving.now target.now }
{
    if moving.source.number == moving.target.number {
        Held {
            number: moving.target.number,
            page: moving.target.page,
            inode: *target,
        }
    } else {
        moving.source
    }
}

/// What leaves where nothing stood at the new name.
fn leaving_free(moving: &Moving, target: &Dinode) -> Leaving
    ensures { result ≡ leaving_free moving.now target.now }
{
    let source = source_after(moving, target);
    let links = source.inode.nlink;
    Leaving {
        object: moving.object,
        parent: moving.target.number,
        source,
        links: if passes_over(moving) {
            links.saturating_sub(1)
        } else {
            links
        },
    }
}

/// What leaves where another object had the name.
fn leaving_over(moving: &Moving, target: &Dinode) -> Leaving
    ensures { result ≡ leaving_over moving.now target.now }
{
    let source = source_after(moving, target);
    let links = source.inode.nlink;
    Leaving {
        object: moving.object,
        parent: moving.target.number,
        source,
        links: if has_names(&moving.object.inode) {
            links.saturating_sub(1)
        } else {
            links
        },
    }
}
