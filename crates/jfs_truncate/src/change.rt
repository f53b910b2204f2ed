//! A file with another size.

ghost use Rattle.std.specs.Prelude.{◌≡◌, ◌<◌, length, min, IfOk};
ghost use Rattle.jfs_disk.specs.Image.{page_of};
ghost use Rattle.jfs_inode.specs.Inode.{FitsDinode};
ghost use Rattle.jfs_read.specs.way.specs.Answer.{Carries};
ghost use Rattle.jfs_data_steps.specs.After.{AreWholePages, LieWithin};
ghost use Rattle.jfs_data_steps.specs.File.{resized};
ghost use Rattle.jfs_truncate.specs.Tail.{blocks_for, tail_block, IsTail};
ghost use Rattle.jfs_truncate.specs.Call.{Resizes, MeetsCut};

use crate::answer::from_extents;
use crate::tail::tail;
use jfs_bits::{Moment, get_array, put_array};
use jfs_data_steps::DataList;
use jfs_data_steps::lead_steps::own_after;
use jfs_data_steps::steps::put_inode;
use jfs_inode::Dinode;
use jfs_plain::Refusal;
use jfs_ranges::{PageView, Tx};
use jfs_read::way::Held;
use jfs_xtree::cut_to;
use std::alloc::Global;

/// What a truncate does: these blocks are written, and then the transaction is appended.
#[derive(Drop)]
pub struct Truncated {
    pub tx: Tx,
    pub blocks: DataList,
}

/// Gives a file another size, written now. What it has past its last block that stays is freed, data and pages of its tree; a block in which the bytes end that stay gets
/// zeros behind them, in place. So what the file gains is a hole. `Damaged` names the first page that breaks a rule: on the way to that block, and then where the cut meets it.
pub fn resize<V: PageView>(
    alloc: Global,
    view: &mut V,
    at: &Held,
    size: u64,
    now: Moment,
) -> Result<Truncated, Refusal>
    requires page { at.now.page < V.PageView.block_count view.old }
    requires fits { FitsDinode at.now.inode }
    ensures image { V.PageView.tells → V.PageView.image view.new ≡ V.PageView.image view.old }
    ensures count_of_blocks { V.PageView.block_count view.new ≡ V.PageView.block_count view.old }
    ensures device { V.PageView.device view.new ≡ V.PageView.device view.old }
    ensures fault { Carries (V.PageView.faults view.old) (V.PageView.faults view.new) result }
    ensures within { IfOk result (λ out. LieWithin (V.PageView.block_count view.old) out.blocks) }
    ensures whole { IfOk result (λ out. AreWholePages out.blocks) }
    ensures tail { V.PageView.tells → IfOk result (λ out. IsTail (page_of (V.PageView.image view.old)) (min at.now.inode.size size)
        (tail_block (V.PageView.block_count view.old) (page_of (V.PageView.image view.old)) at.now.inode (min at.now.inode.size size)) out.blocks) }
    ensures resizes { V.PageView.tells → IfOk result (λ out. Resizes (V.PageView.block_count view.old) (page_of (V.PageView.image view.old)) at.now size now out.tx) }
    ensures meets { V.PageView.tells → MeetsCut (V.PageView.block_count view.old) (page_of (V.PageView.image view.old)) size at.now result }
{
    let kept = at.inode.size.min(size);
    let blocks = match tail(alloc, view, at, kept) {
        Ok(blocks) => blocks,
        Err(e) => return Err(e),
    };
    let mut root: [u8; 288] = get_array(&at.inode.rest, 96);
    let mut tx = Tx::new(alloc);
    match cut_to(alloc, view, &mut root, blocks_for(kept), &mut tx) {
        Ok(()) => {}
        Err(e) => return Err(from_extents(at.page, e)),
    }
    let own = own_after(at.inode.nblocks, &tx);
    let d = resized(&at.inode, &root, size, own, now);
    match put_inode(alloc, view, at.page, at.number, &d, &mut tx) {
        Ok(()) => Ok(Truncated { tx, blocks }),
        Err(e) => Err(e),
    }
}

/// How many blocks so many bytes take.
fn blocks_for(bytes: u64) -> u64
    ensures { result ≡ blocks_for bytes }
{
    if bytes % 4096 == 0 {
        bytes / 4096
    } else {
        bytes / 4096 + 1
    }
}

/// The inode with another root, so many bytes and so many blocks, written now.
fn resized(d: &Dinode, root: &[u8; 288], size: u64, own: u64, now: Moment) -> Dinode
    ensures value { result ≡ resized d.now root.now size own now }
    ensures width { length root.now ≡ 288 }
    ensures rest { length d.now.rest ≡ 384 }
{
    let mut after = *d;
    put_array(&mut after.rest, 96, root);
    after.size = size;
    after.nblocks = own;
    after.mtime = now;
    after.ctime = now;
    after
}
