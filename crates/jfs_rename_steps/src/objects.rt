//! What becomes of the objects: one arrives under its new name, and one that had the name loses it.

ghost use Rattle.std.specs.Prelude.{◌≡◌, ◌<◌, true, OnOk, IfOk, IfErr};
ghost use Rattle.jfs_disk.specs.Image.{page_of};
ghost use Rattle.jfs_inode.specs.Inode.{FitsDinode};
ghost use Rattle.jfs_loss.specs.way.specs.Answer.{Carries, is_open};
ghost use Rattle.jfs_loss.specs.objects.specs.Objects.{has_names};
ghost use Rattle.jfs_loss.specs.steps.specs.Put.{AddsInode, TellsLines};
ghost use Rattle.jfs_rename_steps.specs.Objects.{goes, unnamed, HasArrived, Arrives, FreesIf, MeetsIf};

use jfs_bits::{Moment, get_array, put_array};
use jfs_dtree::set_parent;
use jfs_inode::Dinode;
use jfs_loss::free_object;
use jfs_loss::reader::has_names;
use jfs_loss::steps::put_inode;
use jfs_loss::way::Held;
use jfs_plain::Refusal;
use jfs_ranges::{PageView, Tx};
use std::alloc::Global;

/// The transaction that frees all that an object has, where it goes with the name that it loses: a directory, or an object with one link; else an empty one. A directory is taken to have no names. It is `Damaged`
/// where a page of the object's tree breaks a rule, the first one in the order of the file.
pub fn free_if_gone<V: PageView>(alloc: Global, view: &mut V, old: &Held) -> Result<Tx, Refusal>
    requires fits { FitsDinode old.now.inode }
    ensures image { V.PageView.tells → V.PageView.image view.new ≡ V.PageView.image view.old }
    ensures count_of_blocks { V.PageView.block_count view.new ≡ V.PageView.block_count view.old }
    ensures device { V.PageView.device view.new ≡ V.PageView.device view.old }
    ensures fault { Carries (V.PageView.faults view.old) (V.PageView.faults view.new) result }
    ensures frees { V.PageView.tells → IfOk result (FreesIf (goes old.now.inode) (V.PageView.block_count view.old) (page_of (V.PageView.image view.old)) old.now.inode) }
    ensures meets { V.PageView.tells → IfErr result (MeetsIf (goes old.now.inode) (V.PageView.block_count view.old) (page_of (V.PageView.image view.old)) old.now) }
{
    if goes(&old.inode) {
        free_object(alloc, view, old)
    } else {
        Ok(Tx::new(alloc))
    }
}

/// An object loses its name to another: its inode has no link where it goes, else one less, and this time as that of its last change.
pub fn displace<V: PageView>(
    alloc: Global,
    view: &mut V,
    old: &Held,
    now: Moment,
    tx: &mut Tx,
) -> Result<(), Refusal>
    requires page { old.now.page < V.PageView.block_count view.old }
    requires fits { FitsDinode old.now.inode }
    ensures image { V.PageView.tells → V.PageView.image view.new ≡ V.PageView.image view.old }
    ensures count_of_blocks { V.PageView.block_count view.new ≡ V.PageView.block_count view.old }
    ensures device { V.PageView.device view.new ≡ V.PageView.device view.old }
    ensures fault { Carries (V.PageView.faults view.old) (V.PageView.faults view.new) result }
    ensures only { IfErr result (λ why. is_open why ≡ true) }
    ensures puts { V.PageView.tells → OnOk result (AddsInode (V.PageView.block_count view.old) (page_of (V.PageView.image view.old)) old.now.page old.now.number (unnamed old.now.inode now) tx.old tx.new) }
    ensures lines { V.PageView.tells → OnOk result (TellsLines (V.PageView.block_count view.old) (page_of (V.PageView.image view.old)) old.now.page tx.old tx.new) }
{
    let d = unnamed(&old.inode, now);
    put_inode(alloc, view, old.page, old.number, &d, tx)
}

/// An object arrives in a directory: it has this time as that of its last change, and a directory has that one as its parent.
pub fn arrive<V: PageView>(
    alloc: Global,
    view: &mut V,
    object: &Held,
    parent: u32,
    now: Moment,
    tx: &mut Tx,
) -> Result<(), Refusal>
    requires page { object.now.page < V.PageView.block_count view.old }
    requires fits { FitsDinode object.now.inode }
    ensures image { V.PageView.tells → V.PageView.image view.new ≡ V.PageView.image view.old }
    ensures count_of_blocks { V.PageView.block_count view.new ≡ V.PageView.block_count view.old }
    ensures device { V.PageView.device view.new ≡ V.PageView.device view.old }
    ensures fault { Carries (V.PageView.faults view.old) (V.PageView.faults view.new) result }
    ensures only { IfErr result (λ why. is_open why ≡ true) }
    ensures arrives { V.PageView.tells → OnOk result (Arrives (V.PageView.block_count view.old) (page_of (V.PageView.image view.old)) object.now parent now tx.old tx.new) }
{
    let d = arrived(&object.inode, parent, now);
    match put_inode(alloc, view, object.page, object.number, &d, tx) {
        Ok(()) => Ok(()),
        Err(e) => Err(e),
    }
}

/// Whether an object goes with the name that it loses.
fn goes(d: &Dinode) -> bool
    ensures { result ≡ goes d.now }
{
    has_names(d) || d.nlink <= 1
}

/// The inode of an object that lost its name.
fn unnamed(d: &Dinode, now: Moment) -> Dinode
    ensures { result ≡ unnamed d.now now }
{
    let mut after = *d;
    if goes(d) {
        after.nlink = 0;
    } else {
        after.nlink = d.nlink.saturating_sub(1);
        after.ctime = now;
    }
    after
}

/// The inode of an object that has come to a directory.
fn arrived(d: &Dinode, parent: u32, now: Moment) -> Dinode
    requires fits { FitsDinode d.now }
    ensures arrived { HasArrived (has_names d.now) d.now parent now result }
    ensures fits { FitsDinode result }
{
    let mut after = *d;
    if has_names(d) {
        let mut root: [u8; 288] = get_array(&d.rest, 96);
        set_parent(&mut root, parent);
        put_array(&mut after.rest, 96, &root);
    }
    after.ctime = now;
    after
}
