//! A directory gains a name, leads one to another inode, or loses one; then its inode is put.

ghost use Rattle.std.specs.Prelude.{◌≡◌, ◌≤◌, ◌<◌, [], length, Err, IfOk, IfErr};
ghost use Rattle.jfs_disk.specs.Image.{page_of};
ghost use Rattle.jfs_inode.specs.Inode.{FitsDinode};
ghost use Rattle.jfs_loss.specs.page_tree.specs.Form.{AllBelow};
ghost use Rattle.jfs_loss.specs.page_tree.specs.Fresh.{blocks_of};
ghost use Rattle.jfs_loss.specs.way.specs.Answer.{Carries, Answers};
ghost use Rattle.jfs_loss.specs.steps.specs.Gains.{GainRefused, TakesFront};
ghost use Rattle.jfs_loss.specs.Causes.{lost_from};
ghost use Rattle.jfs_loss.specs.Inodes.{frees_in};
ghost use Rattle.jfs_rename_steps.specs.Entries.{GainsEntry, LeadsEntry, LosesEntry, LossRefused, turned};

use jfs_bits::{Moment, PxdList, get_array, put_array};
use jfs_dtree::{add, replace};
use jfs_inode::Dinode;
use jfs_loss::lead_steps::{own_after, remove_on_top};
use jfs_loss::steps::{Gain, from_names, put_inode};
use jfs_loss::way::Held;
use jfs_name::Name;
use jfs_plain::Refusal;
use jfs_ranges::{Edit, PageView, Tx};
use std::alloc::Global;

/// A directory's inode after a step, and the transaction up to there.
#[derive(Drop)]
pub struct Entered {
    pub inode: Dinode,
    pub tx: Tx,
}

/// A directory gains a name of at most 255 units, and has so many links then: its tree takes blocks from `fresh` in its order, and its inode is put. A refusal is that of `jfs_dtree::add`, with
/// the directory's number and page; or a fault or want of memory.
pub fn gain_entry<V: PageView>(
    alloc: Global,
    view: &mut V,
    dir: &Held,
    name: &Name,
    gain: Gain,
    fresh: &mut PxdList,
) -> Result<Entered, Refusal>
    requires page { dir.now.page < V.PageView.block_count view.old }
    requires fits { FitsDinode dir.now.inode }
    requires name { length name.now ≤ 255 }
    requires enough { 8 ≤ length (blocks_of fresh.old) }
    requires within { AllBelow (V.PageView.block_count view.old) (blocks_of fresh.old) }
    ensures image { V.PageView.tells → V.PageView.image view.new ≡ V.PageView.image view.old }
    ensures count_of_blocks { V.PageView.block_count view.new ≡ V.PageView.block_count view.old }
    ensures device { V.PageView.device view.new ≡ V.PageView.device view.old }
    ensures fault { Carries (V.PageView.faults view.old) (V.PageView.faults view.new) result }
    ensures front { IfOk result (λ after. TakesFront (blocks_of fresh.old) (blocks_of fresh.new)) }
    ensures after_fits { IfOk result (λ after. FitsDinode after.inode) }
    ensures gains { V.PageView.tells → IfOk result (GainsEntry (V.PageView.block_count view.old) (page_of (V.PageView.image view.old)) dir.now name.now gain fresh.old fresh.new) }
    ensures refused { V.PageView.tells → IfErr result (GainRefused (V.PageView.block_count view.old) (page_of (V.PageView.image view.old)) dir.now name.now gain fresh.old) }
{
    let mut root: [u8; 288] = get_array(&dir.inode.rest, 96);
    let mut tx = Tx::new(alloc);
    match add(alloc, view, &mut root, name, gain.inode, fresh, &mut tx) {
        Ok(()) => {}
        Err(e) => return Err(from_names(dir.number, dir.page, e)),
    }
    let own = own_after(dir.inode.nblocks, &tx);
    let inode = turned(&dir.inode, &root, own, gain.links, gain.now);
    match put_inode(alloc, view, dir.page, dir.number, &inode, &mut tx) {
        Ok(()) => Ok(Entered { inode, tx }),
        Err(e) => Err(e),
    }
}

/// A directory's name of at most 255 units leads to inode `n`, in its slot, and the directory's inode is put, on top of edits that leave the pages that the view shows. It answers that inode.
/// `NotFound` where the leaf at the end of the name's way doesn't have it; `Damaged` names the first page of that way that breaks a rule.
pub fn lead_entry<V: PageView>(
    alloc: Global,
    view: &mut V,
    dir: &Held,
    name: &Name,
    n: u32,
    now: Moment,
    tx: &mut Tx,
) -> Result<Dinode, Refusal>
    requires page { dir.now.page < V.PageView.block_count view.old }
    requires fits { FitsDinode dir.now.inode }
    requires name { length name.now ≤ 255 }
    ensures image { V.PageView.tells → V.PageView.image view.new ≡ V.PageView.image view.old }
    ensures count_of_blocks { V.PageView.block_count view.new ≡ V.PageView.block_count view.old }
    ensures device { V.PageView.device view.new ≡ V.PageView.device view.old }
    ensures fault { Carries (V.PageView.faults view.old) (V.PageView.faults view.new) result }
    ensures after_fits { IfOk result FitsDinode }
    ensures leads { V.PageView.tells → IfOk result (LeadsEntry (V.PageView.block_count view.old) (page_of (V.PageView.image view.old)) dir.now name.now n now tx.old tx.new) }
    ensures kept { V.PageView.tells → IfErr result (λ why. Answers (lost_from (V.PageView.block_count view.old) (page_of (V.PageView.image view.old)) dir.now name.now) (Err why)) }
{
    let mut root: [u8; 288] = get_array(&dir.inode.rest, 96);
    match replace(alloc, view, &mut root, name, n, tx) {
        Ok(_) => {}
        Err(e) => return Err(from_names(dir.number, dir.page, e)),
    }
    let own = dir.inode.nblocks;
    let inode = turned(&dir.inode, &root, own, dir.inode.nlink, now);
    match put_inode(alloc, view, dir.page, dir.number, &inode, tx) {
        Ok(()) => Ok(inode),
        Err(e) => Err(e),
    }
}

/// A directory as a transaction leaves it loses a name of at most 255 units, and has so many links then; its inode is put. The answer's transaction begins with that one. A refusal is that of
/// `jfs_dtree::remove` on the pages as the transaction leaves them, or a fault or want of memory.
pub fn lose_entry<V: PageView>(
    alloc: Global,
    view: &mut V,
    dir: &Held,
    name: &Name,
    links: u32,
    now: Moment,
    tx: &Tx,
) -> Result<Tx, Refusal>
    requires page { dir.now.page < V.PageView.block_count view.old }
    requires fits { FitsDinode dir.now.inode }
    requires name { length name.now ≤ 255 }
    ensures image { V.PageView.tells → V.PageView.image view.new ≡ V.PageView.image view.old }
    ensures count_of_blocks { V.PageView.block_count view.new ≡ V.PageView.block_count view.old }
    ensures device { V.PageView.device view.new ≡ V.PageView.device view.old }
    ensures fault { Carries (V.PageView.faults view.old) (V.PageView.faults view.new) result }
    ensures loses { V.PageView.tells → IfOk result (LosesEntry (V.PageView.block_count view.old) (page_of (V.PageView.image view.old)) dir.now name.now links now tx.now) }
    ensures kept { V.PageView.tells → IfErr result (LossRefused (V.PageView.block_count view.old) (page_of (V.PageView.image view.old)) dir.now name.now tx.now) }
{
    let mut root: [u8; 288] = get_array(&dir.inode.rest, 96);
    let mut gone = match remove_on_top(alloc, view, tx, &mut root, name) {
        Ok(gone) => gone.tx,
        Err(e) => return Err(from_names(dir.number, dir.page, e)),
    };
    let before = frees_in(tx);
    let fewer = frees_in(&gone).saturating_sub(before);
    let own = dir.inode.nblocks.saturating_sub(fewer);
    let inode = turned(&dir.inode, &root, own, links, now);
    match put_inode(alloc, view, dir.page, dir.number, &inode, &mut gone) {
        Ok(()) => Ok(gone),
        Err(e) => Err(e),
    }
}

/// How many edits free blocks.
fn frees_in(tx: &Tx) -> u64
    ensures { result ≡ frees_in tx.now }
{
    let mut count = 0;
    for edit in tx.as_slice() {
        if let Edit::Free(_) = edit {
            count += 1;
        }
    }
    count
}

/// The directory's inode with another root, so many blocks and so many links, written now.
fn turned(d: &Dinode, root: &[u8; 288], own: u64, links: u32, now: Moment) -> Dinode
    ensures value { result ≡ turned d.now root.now own links now }
    ensures width { length root.now ≡ 288 }
    ensures size { length d.now.rest ≡ 384 }
{
    let mut after = *d;
    put_array(&mut after.rest, 96, root);
    after.nblocks = own;
    after.nlink = links;
    after.mtime = now;
    after.ctime = now;
    after
}
