//! The transaction of a link.

ghost use Rattle.std.specs.Prelude.{◌≡◌, ◌≤◌, ◌<◌, ◌+◌, [], length, IfOk, IfErr};
ghost use Rattle.jfs_disk.specs.Image.{page_of};
ghost use Rattle.jfs_inode.specs.Inode.{FitsDinode};
ghost use Rattle.jfs_lead_steps.specs.page_tree.specs.Form.{AllBelow};
ghost use Rattle.jfs_lead_steps.specs.page_tree.specs.Fresh.{blocks_of};
ghost use Rattle.jfs_steps.specs.way.specs.Answer.{Carries};
ghost use Rattle.jfs_steps.specs.Gains.{TakesFront};
ghost use Rattle.jfs_link.specs.Joins.{Joins, JoinRefused, one_more};

use crate::asking::Joint;
use jfs_bits::{Moment, PxdList};
use jfs_inode::Dinode;
use jfs_name::Name;
use jfs_plain::Refusal;
use jfs_ranges::{PageView, Tx};
use jfs_steps::{Gain, gain_name, put_inode};
use std::alloc::Global;

/// The transaction that gives the directory the name, and the object one link and this time as that of its last change. The directory's tree takes blocks from `fresh` in its order.
/// A refusal is that of the directory's tree; or a fault or want of memory.
pub fn join<V: PageView>(
    alloc: Global,
    view: &mut V,
    joint: &Joint,
    name: &Name,
    now: Moment,
    fresh: &mut PxdList,
) -> Result<Tx, Refusal>
    requires object { joint.now.object.page < V.PageView.block_count view.old }
    requires object_fits { FitsDinode joint.now.object.inode }
    requires dir { joint.now.dir.page < V.PageView.block_count view.old }
    requires dir_fits { FitsDinode joint.now.dir.inode }
    requires few { joint.now.object.inode.nlink < 65535 }
    requires name { length name.now ≤ 255 }
    requires enough { 8 ≤ length (blocks_of fresh.old) }
    requires within { AllBelow (V.PageView.block_count view.old) (blocks_of fresh.old) }
    ensures image { V.PageView.tells → V.PageView.image view.new ≡ V.PageView.image view.old }
    ensures count_of_blocks { V.PageView.block_count view.new ≡ V.PageView.block_count view.old }
    ensures device { V.PageView.device view.new ≡ V.PageView.device view.old }
    ensures fault { Carries (V.PageView.faults view.old) (V.PageView.faults view.new) result }
    ensures front { IfOk result (λ tx. TakesFront (blocks_of fresh.old) (blocks_of fresh.new)) }
    // On any volume the transaction is that of the two steps, and a refusal that of the first.
    ensures joins { V.PageView.tells → IfOk result (Joins (V.PageView.block_count view.old) (page_of (V.PageView.image view.old)) joint.now.object joint.now.dir name.now now fresh.old fresh.new) }
    ensures refused { V.PageView.tells → IfErr result (JoinRefused (V.PageView.block_count view.old) (page_of (V.PageView.image view.old)) joint.now.object joint.now.dir name.now now fresh.old) }
{
    let mut tx = Tx::new(alloc);
    let gain = Gain {
        inode: joint.object.number,
        links: joint.dir.inode.nlink,
        now,
    };
    match gain_name(alloc, view, &joint.dir, name, gain, fresh, &mut tx) {
        Ok(()) => {}
        Err(e) => return Err(e),
    }
    let d = one_more(&joint.object.inode, now);
    match put_inode(
        alloc,
        view,
        joint.object.page,
        joint.object.number,
        &d,
        &mut tx,
    ) {
        Ok(()) => Ok(tx),
        Err(e) => Err(e),
    }
}

/// The inode with one link more, changed now.
fn one_more(d: &Dinode, now: Moment) -> Dinode
    requires { d.now.nlink < 65535 }
    ensures { result ≡ one_more d.now now }
{
    let mut after = *d;
    after.nlink = d.nlink + 1;
    after.ctime = now;
    after
}
