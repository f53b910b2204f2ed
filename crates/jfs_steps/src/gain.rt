//! A directory gains a name.

ghost use Rattle.std.specs.Prelude.{◌≡◌, ◌<◌, ◌≤◌, ℕ, [], length, OnOk, OnErr, IfErr};
ghost use Rattle.jfs_disk.specs.Image.{page_of};
ghost use Rattle.jfs_inode.specs.Inode.{FitsDinode};
ghost use Rattle.jfs_way.specs.page_tree.specs.Form.{AllBelow};
ghost use Rattle.jfs_way.specs.page_tree.specs.Fresh.{blocks_of, TakenInOrder};
ghost use Rattle.jfs_way.specs.Answer.{Carries};
ghost use Rattle.jfs_steps.specs.Gains.{GainsName, GainRefused, TakesFront, with_root};
ghost use Rattle.jfs_steps.specs.After.{allocs_in};

use crate::answer::from_names;
use crate::put::put_inode;
use jfs_bits::{Moment, PxdList, get_array, put_array};
use jfs_inode::Dinode;
use jfs_name::Name;
use jfs_ranges::{Edit, PageView, Tx};
use jfs_way::Held;
use jfs_way::dtree::add;
use jfs_way::plain::Refusal;
use std::alloc::Global;

/// What a directory gains beside the name: the inode that the name names, the directory's link count, and the time of its last change.
#[derive(Clone, Copy)]
pub struct Gain {
    pub inode: u32,
    pub links: u32,
    pub now: Moment,
}

/// A directory gains a name of at most 255 units, by a transaction that has no edits yet: its tree's pages, which take blocks from `fresh` in its order, and then its inode.
/// A refusal is that of `jfs_way::dtree::add`, with the directory's number and page; after one the transaction may have edits, and `fresh` may have fewer blocks.
pub fn gain_name<V: PageView>(
    alloc: Global,
    view: &mut V,
    dir: &Held,
    name: &Name,
    gain: Gain,
    fresh: &mut PxdList,
    tx: &mut Tx,
) -> Result<(), Refusal>
    requires page { dir.now.page < V.PageView.block_count view.old }
    requires fits { FitsDinode dir.now.inode }
    requires name { length name.now ≤ 255 }
    requires enough { 8 ≤ length (blocks_of fresh.old) }
    requires within { AllBelow (V.PageView.block_count view.old) (blocks_of fresh.old) }
    requires empty { tx.old ≡ [] }
    ensures image { V.PageView.tells → V.PageView.image view.new ≡ V.PageView.image view.old }
    ensures count_of_blocks { V.PageView.block_count view.new ≡ V.PageView.block_count view.old }
    ensures device { V.PageView.device view.new ≡ V.PageView.device view.old }
    ensures fault { Carries (V.PageView.faults view.old) (V.PageView.faults view.new) result }
    ensures gains { V.PageView.tells → OnOk result (GainsName (V.PageView.block_count view.old) (page_of (V.PageView.image view.old)) dir.now name.now gain fresh.old fresh.new tx.new) }
    ensures refused { V.PageView.tells → IfErr result (GainRefused (V.PageView.block_count view.old) (page_of (V.PageView.image view.old)) dir.now name.now gain fresh.old) }
    ensures front { OnOk result (TakesFront (blocks_of fresh.old) (blocks_of fresh.new)) }
{
    let mut root: [u8; 288] = get_array(&dir.inode.rest, 96);
    match add(alloc, view, &mut root, name, gain.inode, fresh, tx) {
        Ok(()) => {}
        Err(e) => return Err(from_names(dir.number, dir.page, e)),
    }
    let d = with_root(&dir.inode, &root, gain, allocs_in(tx));
    put_inode(alloc, view, dir.page, dir.number, &d, tx)
}

/// How many edits take blocks.
fn allocs_in(tx: &Tx) -> u64
    ensures { result ≡ allocs_in tx.now }
{
    let mut count = 0;
    for edit in tx.as_slice() {
        if let Edit::Alloc(_) = edit {
            count += 1;
        }
    }
    count
}

/// The inode with another root, so many links and so many blocks more, written now.
fn with_root(d: &Dinode, root: &[u8; 288], gain: Gain, more: u64) -> Dinode
    ensures value { result ≡ with_root d.now root.now gain more }
    ensures width { length root.now ≡ 288 }
    ensures size { length d.now.rest ≡ 384 }
{
    let mut after = *d;
    put_array(&mut after.rest, 96, root);
    after.nblocks = d.nblocks.wrapping_add(more);
    after.nlink = gain.links;
    after.mtime = gain.now;
    after.ctime = gain.now;
    after
}
