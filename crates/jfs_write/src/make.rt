//! What a write does to a file, once blocks are reserved for it.

ghost use Rattle.std.specs.Prelude.{◌≡◌, ◌≤◌, ◌<◌, ◌/◌, true, length, IfOk, IfErr};
ghost use Rattle.jfs_disk.specs.Image.{page_of};
ghost use Rattle.jfs_inode.specs.Inode.{FitsDinode};
ghost use Rattle.jfs_tree.specs.Form.{AllBelow};
ghost use Rattle.jfs_tree.specs.Fresh.{blocks_of};
ghost use Rattle.jfs_xtree.specs.Node.{all_within};
ghost use Rattle.jfs_link.specs.meaning.specs.Readers.{root_of};
ghost use Rattle.jfs_read.specs.way.specs.Answer.{Carries};
ghost use Rattle.jfs_link.specs.steps.specs.Gains.{TakesFront};
ghost use Rattle.jfs_write_pages.specs.data_steps.specs.After.{AreWholePages, LieWithin};
ghost use Rattle.jfs_write_pages.specs.data_steps.specs.File.{resized};
ghost use Rattle.jfs_put_range.specs.Call.{IsShortRange};
ghost use Rattle.jfs_write_pages.specs.Spots.{holes_in, placed, extents_for, SpotsFit};
ghost use Rattle.jfs_write.specs.Look.{FitsBytes, needs_extents, spots_at};
ghost use Rattle.jfs_write.specs.Tree.{RefusesExtents};
ghost use Rattle.jfs_write.specs.Make.{Edits, Makes};

use crate::data::data_of;
use crate::tree::{put_extents, take_runs};
use jfs_bits::{Moment, PxdList, Xad, get_array, put_array};
use jfs_inode::Dinode;
use jfs_link::lead_steps::own_after;
use jfs_link::steps::put_inode;
use jfs_plain::Refusal;
use jfs_ranges::{PageView, Tx};
use jfs_read::way::Held;
use jfs_write_pages::data_steps::DataList;
use jfs_write_pages::{Change, Spot, placed};
use std::alloc::Global;

/// What a write does: these blocks are written, and then the transaction is appended.
#[derive(Drop)]
pub struct Written {
    pub tx: Tx,
    pub blocks: DataList,
}

/// The blocks that are written, and the transaction. The file's holes get the blocks of `runs` in their order, and pages of its tree those of `fresh`.
pub(crate) fn make<V: PageView>(
    alloc: Global,
    view: &mut V,
    at: &Held,
    change: &Change,
    es: &[Xad],
    spots: &[Option<Spot>],
    runs: &PxdList,
    fresh: &mut PxdList,
    now: Moment,
) -> Result<Written, Refusal>
    requires page { at.now.page < V.PageView.block_count view.old }
    requires fits { FitsDinode at.now.inode }
    requires bytes { FitsBytes change.now.offset (length change.now.bytes.now) }
    requires extents { all_within (V.PageView.block_count view.old) es.now ≡ true }
    requires spots { spots.now ≡ spots_at es.now change.now.offset (length change.now.bytes.now) }
    requires runs { AllBelow (V.PageView.block_count view.old) (blocks_of runs.now) }
    requires holes { holes_in spots.now ≤ length (blocks_of runs.now) }
    requires enough { needs_extents spots.now ≡ true → 15 ≤ length (blocks_of fresh.old) }
    requires within { AllBelow (V.PageView.block_count view.old) (blocks_of fresh.old) }
    ensures image { V.PageView.tells → V.PageView.image view.new ≡ V.PageView.image view.old }
    ensures count_of_blocks { V.PageView.block_count view.new ≡ V.PageView.block_count view.old }
    ensures device { V.PageView.device view.new ≡ V.PageView.device view.old }
    ensures fault { Carries (V.PageView.faults view.old) (V.PageView.faults view.new) result }
    ensures within { IfOk result (λ out. LieWithin (V.PageView.block_count view.old) out.blocks) }
    ensures whole { IfOk result (λ out. AreWholePages out.blocks) }
    ensures taken { IfOk result (λ out. TakesFront (blocks_of fresh.old) (blocks_of fresh.new)) }
    ensures makes { V.PageView.tells → IfOk result (Makes (V.PageView.block_count view.old) (page_of (V.PageView.image view.old)) at.now change.now.size change.now.offset change.now.bytes.now es.now spots.now runs.now fresh.old fresh.new now) }
    ensures refused { V.PageView.tells → IfErr result (RefusesExtents (V.PageView.block_count view.old) (page_of (V.PageView.image view.old)) at.now.page (extents_for (placed (change.now.offset / 4096) spots.now (blocks_of runs.now))) (root_of at.now.inode) (blocks_of fresh.old)) }
{
    let first = change.offset / 4096;
    let Ok(spots) = placed(alloc, spots, first, runs, view.blocks()) else {
        return Err(Refusal::OutOfMemory);
    };
    let blocks = match data_of(alloc, view, at, change, es, spots.as_slice()) {
        Ok(blocks) => blocks,
        Err(e) => return Err(e),
    };
    let size = change.size.max(change.offset + change.bytes.len() as u64);
    match edits_of(alloc, view, at, size, spots.as_slice(), runs, fresh, now) {
        Ok(tx) => Ok(Written { tx, blocks }),
        Err(e) => Err(e),
    }
}

/// The transaction: the tree gets the extents, the runs are taken, and the inode is put with this size.
fn edits_of<V: PageView>(
    alloc: Global,
    view: &mut V,
    at: &Held,
    size: u64,
    spots: &[Spot],
    runs: &PxdList,
    fresh: &mut PxdList,
    now: Moment,
) -> Result<Tx, Refusal>
    requires page { at.now.page < V.PageView.block_count view.old }
    requires fits { FitsDinode at.now.inode }
    requires spots { SpotsFit spots.now }
    requires range { 0 < length (extents_for spots.now) → IsShortRange (V.PageView.block_count view.old) (extents_for spots.now) }
    requires enough { 0 < length (extents_for spots.now) → 15 ≤ length (blocks_of fresh.old) }
    requires within { AllBelow (V.PageView.block_count view.old) (blocks_of fresh.old) }
    ensures image { V.PageView.tells → V.PageView.image view.new ≡ V.PageView.image view.old }
    ensures count_of_blocks { V.PageView.block_count view.new ≡ V.PageView.block_count view.old }
    ensures device { V.PageView.device view.new ≡ V.PageView.device view.old }
    ensures fault { Carries (V.PageView.faults view.old) (V.PageView.faults view.new) result }
    ensures taken { IfOk result (λ tx. TakesFront (blocks_of fresh.old) (blocks_of fresh.new)) }
    ensures edits { V.PageView.tells → IfOk result (Edits (V.PageView.block_count view.old) (page_of (V.PageView.image view.old)) at.now size spots.now runs.now fresh.old fresh.new now) }
    ensures refused { V.PageView.tells → IfErr result (RefusesExtents (V.PageView.block_count view.old) (page_of (V.PageView.image view.old)) at.now.page (extents_for spots.now) (root_of at.now.inode) (blocks_of fresh.old)) }
{
    let mut root: [u8; 288] = get_array(&at.inode.rest, 96);
    let mut tx = Tx::new(alloc);
    match put_extents(alloc, view, at.page, &mut root, spots, fresh, &mut tx) {
        Ok(()) => {}
        Err(e) => return Err(e),
    }
    match take_runs(runs, &mut tx) {
        Ok(()) => {}
        Err(_) => return Err(Refusal::OutOfMemory),
    }
    let own = own_after(at.inode.nblocks, &tx);
    let d = resized(&at.inode, &root, size, own, now);
    match put_inode(alloc, view, at.page, at.number, &d, &mut tx) {
        Ok(()) => Ok(tx),
        Err(e) => Err(e),
    }
}

/// The inode with another root, so many bytes and so many blocks, written now.
fn resized(d: &Dinode, root: &[u8; 288], size: u64, own: u64, now: Moment) -> Dinode
    ensures value { result ≡ resized d.now root.now size own now }
    ensures width { length root.now ≡ 288 }
    ensures rest { length d.now.rest ≡ 384 }
{
    let mut after = *d;
    put_array(&mut after.rest, 96, root);
    after.size = size;
    after.nblocks = own;
    after.mtime = now;
    after.ctime = now;
    after
}
