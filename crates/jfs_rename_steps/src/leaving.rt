//! An object that has its new name loses the old one.

ghost use Rattle.std.specs.Prelude.{◌≡◌, ◌≤◌, ◌<◌, length, IfOk, IfErr};
ghost use Rattle.jfs_disk.specs.Image.{page_of};
ghost use Rattle.jfs_inode.specs.Inode.{FitsDinode};
ghost use Rattle.jfs_loss.specs.way.specs.Answer.{Carries};
ghost use Rattle.jfs_rename_steps.specs.Moves.{Leaves, StaysNamed};

use crate::entries::lose_entry;
use crate::objects::arrive;
use jfs_bits::Moment;
use jfs_loss::way::Held;
use jfs_name::Name;
use jfs_plain::Refusal;
use jfs_ranges::{PageView, Tx};
use std::alloc::Global;

/// An object, the directory to which it comes, and the one that it leaves, as it stands then, with the links that it has afterwards.
#[derive(Clone, Copy)]
pub struct Leaving {
    pub object: Held,
    pub parent: u32,
    pub source: Held,
    pub links: u32,
}

/// On top of a transaction after which it has the new name, the object arrives and loses the old one. A refusal is that of `lose_entry`, or a fault or want of memory.
pub fn leave<V: PageView>(
    alloc: Global,
    view: &mut V,
    leaving: &Leaving,
    name: &Name,
    now: Moment,
    tx: Tx,
) -> Result<Tx, Refusal>
    requires object { leaving.now.object.page < V.PageView.block_count view.old }
    requires object_fits { FitsDinode leaving.now.object.inode }
    requires source { leaving.now.source.page < V.PageView.block_count view.old }
    requires source_fits { FitsDinode leaving.now.source.inode }
    requires name { length name.now ≤ 255 }
    ensures image { V.PageView.tells → V.PageView.image view.new ≡ V.PageView.image view.old }
    ensures count_of_blocks { V.PageView.block_count view.new ≡ V.PageView.block_count view.old }
    ensures device { V.PageView.device view.new ≡ V.PageView.device view.old }
    ensures fault { Carries (V.PageView.faults view.old) (V.PageView.faults view.new) result }
    ensures leaves { V.PageView.tells → IfOk result (Leaves (V.PageView.block_count view.old) (page_of (V.PageView.image view.old)) leaving.now name.now now tx) }
    ensures stays { V.PageView.tells → IfErr result (StaysNamed (V.PageView.block_count view.old) (page_of (V.PageView.image view.old)) leaving.now name.now now tx) }
{
    let mut before = tx;
    match arrive(
        alloc,
        view,
        &leaving.object,
        leaving.parent,
        now,
        &mut before,
    ) {
        Ok(()) => {}
        Err(e) => return Err(e),
    }
    lose_entry(
        alloc,
        view,
        &leaving.source,
        name,
        leaving.links,
        now,
        &before,
    )
}
