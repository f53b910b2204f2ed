//! A name goes, and the object that it names has one link less, or goes with it.

ghost use Rattle.std.specs.Prelude.{◌≡◌, ◌≤◌, length, Ok, Err, IfOk, IfErr};
ghost use Rattle.jfs_disk.specs.Image.{page_of};
ghost use Rattle.jfs_loss.specs.way.specs.Answer.{Carries, Answers};
ghost use Rattle.jfs_loss.specs.Inodes.{fallen, gone};
ghost use Rattle.jfs_loss.specs.Causes.{freed_from, lost_from};
ghost use Rattle.jfs_unlink.specs.Ends.{AreWithin};
ghost use Rattle.jfs_unlink.specs.Gone.{DropsNamed, LeavesNamed, StaysNamed};

use crate::ends::Ends;
use jfs_bits::Moment;
use jfs_inode::Dinode;
use jfs_loss::steps::put_inode;
use jfs_loss::{free_object, lose_name};
use jfs_name::Name;
use jfs_plain::Refusal;
use jfs_ranges::{PageView, Tx};
use std::alloc::Global;

/// The transaction that takes a name away with the object that it names: all that the object has is freed. The directory has so many links afterwards.
pub fn drop_named<V: PageView>(
    alloc: Global,
    view: &mut V,
    ends: &Ends,
    name: &Name,
    links: u32,
    now: Moment,
) -> Result<Tx, Refusal>
    requires ends { AreWithin (V.PageView.block_count view.old) ends.now }
    requires name { length name.now ≤ 255 }
    ensures image { V.PageView.tells → V.PageView.image view.new ≡ V.PageView.image view.old }
    ensures count_of_blocks { V.PageView.block_count view.new ≡ V.PageView.block_count view.old }
    ensures device { V.PageView.device view.new ≡ V.PageView.device view.old }
    ensures fault { Carries (V.PageView.faults view.old) (V.PageView.faults view.new) result }
    ensures drops { V.PageView.tells → IfOk result (DropsNamed (V.PageView.block_count view.old) (page_of (V.PageView.image view.old)) ends.now name.now links now) }
    // The object's tree was met, whatever the volume holds.
    ensures whole { V.PageView.tells → IfOk result (λ tx. freed_from (V.PageView.block_count view.old) (page_of (V.PageView.image view.old)) ends.now.at ≡ Ok ends.now.at) }
    ensures stays { V.PageView.tells → IfErr result (StaysNamed (V.PageView.block_count view.old) (page_of (V.PageView.image view.old)) ends.now name.now) }
{
    let mut tx = match free_object(alloc, view, &ends.at) {
        Ok(tx) => tx,
        Err(e) => return Err(e),
    };
    match lose_name(alloc, view, &ends.dir, name, links, now, &mut tx) {
        Ok(()) => {}
        Err(e) => return Err(e),
    }
    let d = gone(&ends.at.inode);
    match put_inode(alloc, view, ends.at.page, ends.at.number, &d, &mut tx) {
        Ok(()) => Ok(tx),
        Err(e) => Err(e),
    }
}

/// The transaction that takes a name away from an object that has others.
pub fn leave_named<V: PageView>(
    alloc: Global,
    view: &mut V,
    ends: &Ends,
    name: &Name,
    now: Moment,
) -> Result<Tx, Refusal>
    requires ends { AreWithin (V.PageView.block_count view.old) ends.now }
    requires name { length name.now ≤ 255 }
    ensures image { V.PageView.tells → V.PageView.image view.new ≡ V.PageView.image view.old }
    ensures count_of_blocks { V.PageView.block_count view.new ≡ V.PageView.block_count view.old }
    ensures device { V.PageView.device view.new ≡ V.PageView.device view.old }
    ensures fault { Carries (V.PageView.faults view.old) (V.PageView.faults view.new) result }
    ensures leaves { V.PageView.tells → IfOk result (LeavesNamed (V.PageView.block_count view.old) (page_of (V.PageView.image view.old)) ends.now name.now now) }
    ensures stays { V.PageView.tells → IfErr result (λ why. Answers (lost_from (V.PageView.block_count view.old) (page_of (V.PageView.image view.old)) ends.now.dir name.now) (Err why)) }
{
    let mut tx = Tx::new(alloc);
    let kept = ends.dir.inode.nlink;
    match lose_name(alloc, view, &ends.dir, name, kept, now, &mut tx) {
        Ok(()) => {}
        Err(e) => return Err(e),
    }
    let d = fallen(&ends.at.inode, now);
    match put_inode(alloc, view, ends.at.page, ends.at.number, &d, &mut tx) {
        Ok(()) => Ok(tx),
        Err(e) => Err(e),
    }
}

/// An inode without links is free.
fn gone(d: &Dinode) -> Dinode
    ensures { result ≡ gone d.now }
{
    let mut after = *d;
    after.nlink = 0;
    after
}

/// The inode with one link less, changed now.
fn fallen(d: &Dinode, now: Moment) -> Dinode
    ensures { result ≡ fallen d.now now }
{
    let mut after = *d;
    after.nlink = d.nlink.saturating_sub(1);
    after.ctime = now;
    after
}
