//! A directory loses a name.

ghost use Rattle.std.specs.Prelude.{◌≡◌, ◌≤◌, ◌<◌, ℕ, length, Err, OnOk, IfErr};
ghost use Rattle.jfs_disk.specs.Image.{page_of};
ghost use Rattle.jfs_steps.specs.way.specs.Answer.{Carries, Answers};
ghost use Rattle.jfs_inode.specs.Inode.{FitsDinode};
ghost use Rattle.jfs_loss.specs.Inodes.{frees_in, lessened};
ghost use Rattle.jfs_loss.specs.Loses.{LosesName};
ghost use Rattle.jfs_loss.specs.Causes.{lost_from};

use crate::answer::from_names;
use jfs_bits::{Moment, get_array, put_array};
use jfs_inode::Dinode;
use jfs_lead_steps::dtree::remove;
use jfs_name::Name;
use jfs_plain::Refusal;
use jfs_ranges::{Edit, PageView, Tx};
use jfs_steps::put_inode;
use jfs_steps::way::Held;
use std::alloc::Global;

/// Takes a name out of a directory, which has so many links afterwards and is written now. The transaction gets the lines of the tree's pages that change, what
/// frees those that are no more, and the lines of the inode's page that change; of its count of blocks goes one for each. `NotFound` where the leaf at the end of the name's way doesn't have it;
/// `Damaged` names the first page of that way that breaks a rule.
pub fn lose_name<V: PageView>(
    alloc: Global,
    view: &mut V,
    dir: &Held,
    name: &Name,
    links: u32,
    now: Moment,
    tx: &mut Tx,
) -> Result<(), Refusal>
    requires page { dir.now.page < V.PageView.block_count view.old }
    requires fits { FitsDinode dir.now.inode }
    requires name { length name.now ≤ 255 }
    ensures image { V.PageView.tells → V.PageView.image view.new ≡ V.PageView.image view.old }
    ensures count_of_blocks { V.PageView.block_count view.new ≡ V.PageView.block_count view.old }
    ensures device { V.PageView.device view.new ≡ V.PageView.device view.old }
    ensures fault { Carries (V.PageView.faults view.old) (V.PageView.faults view.new) result }
    ensures loses { V.PageView.tells → OnOk result (LosesName (V.PageView.block_count view.old) (page_of (V.PageView.image view.old)) dir.now name.now links now tx.old tx.new) }
    ensures kept { V.PageView.tells → IfErr result (λ why. Answers (lost_from (V.PageView.block_count view.old) (page_of (V.PageView.image view.old)) dir.now name.now) (Err why)) }
{
    let mut root: [u8; 288] = get_array(&dir.inode.rest, 96);
    let before = frees_in(tx);
    match remove(alloc, view, &mut root, name, tx) {
        Ok(_) => {}
        Err(e) => return Err(from_names(dir.number, dir.page, e)),
    }
    let fewer = frees_in(tx).saturating_sub(before);
    let d = lessened(&dir.inode, &root, links, fewer, now);
    put_inode(alloc, view, dir.page, dir.number, &d, tx)
}

/// How many edits free blocks.
fn frees_in(tx: &Tx) -> u64
    ensures { result ≡ frees_in tx.now }
{
    let mut count = 0;
    for edit in tx.as_slice() {
        if let Edit::Free(_) = edit {
            count += 1;
        }
    }
    count
}

/// The directory's inode with another root, so many links and so many blocks fewer, written now.
fn lessened(d: &Dinode, root: &[u8; 288], links: u32, fewer: u64, now: Moment) -> Dinode
    ensures value { result ≡ lessened d.now root.now links fewer now }
    ensures width { length root.now ≡ 288 }
    ensures size { length d.now.rest ≡ 384 }
{
    let mut after = *d;
    put_array(&mut after.rest, 96, root);
    after.nblocks = d.nblocks.saturating_sub(fewer);
    after.nlink = links;
    after.mtime = now;
    after.ctime = now;
    after
}
