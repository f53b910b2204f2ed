//! The edits that make an object.

ghost use Rattle.std.specs.Prelude.{◌≡◌, ◌<◌, ◌≤◌, ◌+◌, ℕ, length, OnOk, IfOk, IfErr, IfSome};
ghost use Rattle.jfs_bits.specs.Descriptor.{FitsPxd};
ghost use Rattle.jfs_disk.specs.Image.{page_of};
ghost use Rattle.jfs_inode.specs.Inode.{FitsDinode};
ghost use Rattle.jfs_tree.specs.Form.{AllBelow};
ghost use Rattle.jfs_tree.specs.Fresh.{blocks_of};
ghost use Rattle.jfs_link.specs.way.specs.Answer.{Carries};
ghost use Rattle.jfs_link.specs.steps.specs.Gains.{GainRefused, TakesFront};
ghost use Rattle.jfs_create.specs.New.{FitsNew};
ghost use Rattle.jfs_create.specs.Makes.{Makes, FitsExtent, IsBetween, links_after, gain_of};

use crate::extent::{NewExtent, tell_extent};
use crate::new::{NewObject, Seat, new_inode};
use jfs_bits::{Moment, PxdList};
use jfs_link::steps::{Gain, gain_name, put_inode};
use jfs_link::way::Held;
use jfs_name::Name;
use jfs_plain::Refusal;
use jfs_ranges::{PageView, Tx};
use std::alloc::{AllocError, Global};

/// An object that is to be made: what it is, where its inode stands, and when it is made.
#[derive(Clone, Copy)]
pub struct Plan<'a> {
    pub object: NewObject<'a>,
    pub seat: Seat,
    /// The page on which its inode stands.
    pub page: u32,
    /// The inode extent that is made for it, if one is.
    pub extent: Option<NewExtent>,
    pub now: Moment,
}

/// The edits that make an object with this name in a directory: the directory's tree and inode, a new inode extent if there is one, and the object's inode. Blocks for the tree are taken from `fresh`. A refusal is that of
/// `gain_name`.
pub(crate) fn make<V: PageView>(
    alloc: Global,
    view: &mut V,
    dir: &Held,
    name: &Name,
    plan: Plan<'_>,
    fresh: &mut PxdList,
) -> Result<Tx, Refusal>
    requires directory { dir.now.page < V.PageView.block_count view.old }
    requires fits { FitsDinode dir.now.inode }
    requires links { dir.now.inode.nlink + 1 < 4294967296 }
    requires object { FitsNew plan.object }
    requires extent { FitsPxd plan.seat.extent }
    requires page { plan.page < V.PageView.block_count view.old }
    requires new { IfSome plan.extent FitsExtent }
    requires name { length name.now ≤ 255 }
    requires enough { 8 ≤ length (blocks_of fresh.old) }
    requires within { AllBelow (V.PageView.block_count view.old) (blocks_of fresh.old) }
    ensures image { V.PageView.tells → V.PageView.image view.new ≡ V.PageView.image view.old }
    ensures count_of_blocks { V.PageView.block_count view.new ≡ V.PageView.block_count view.old }
    ensures device { V.PageView.device view.new ≡ V.PageView.device view.old }
    ensures fault { Carries (V.PageView.faults view.old) (V.PageView.faults view.new) result }
    ensures makes { V.PageView.tells → IfOk result (Makes (V.PageView.block_count view.old) (page_of (V.PageView.image view.old)) dir.now name.now plan.entry fresh.old fresh.new) }
    ensures taken { IfOk result (λ tx. TakesFront (blocks_of fresh.old) (blocks_of fresh.new)) }
    ensures refused { V.PageView.tells → IfErr result (GainRefused (V.PageView.block_count view.old) (page_of (V.PageView.image view.old)) dir.now name.now (gain_of plan.entry dir.now) fresh.old) }
{
    let mut tx = Tx::new(alloc);
    let gain = Gain {
        inode: plan.seat.number,
        links: links_after(plan.object, dir.inode.nlink),
        now: plan.now,
    };
    match gain_name(alloc, view, dir, name, gain, fresh, &mut tx) {
        Ok(()) => {}
        Err(e) => return Err(e),
    }
    match tell_between(alloc, plan.extent, &mut tx) {
        Ok(()) => {}
        Err(_) => return Err(Refusal::OutOfMemory),
    }
    let d = new_inode(plan.object, plan.seat, plan.now);
    match put_inode(alloc, view, plan.page, plan.seat.number, &d, &mut tx) {
        Ok(()) => Ok(tx),
        Err(e) => Err(e),
    }
}

/// Tells a new inode extent, if there is one.
fn tell_between(alloc: Global, extent: Option<NewExtent>, tx: &mut Tx) -> Result<(), AllocError>
    requires { IfSome extent FitsExtent }
    ensures { OnOk result (IsBetween extent tx.old tx.new) }
{
    match extent {
        None => Ok(()),
        Some(extent) => tell_extent(alloc, extent, tx),
    }
}

/// A directory has one link more for a directory in it.
fn links_after(object: NewObject<'_>, links: u32) -> u32
    requires { links + 1 < 4294967296 }
    ensures { result ≡ links_after object.entry links }
{
    match object {
        NewObject::Directory { .. } => links + 1,
        _ => links,
    }
}
