//! Blocks are reserved for a write, and it is made.

ghost use Rattle.std.specs.Prelude.{◌≡◌, ◌<◌, true, length, IfOk, IfErr};
ghost use Rattle.jfs_disk.specs.Image.{page_of};
ghost use Rattle.jfs_inode.specs.Inode.{FitsDinode};
ghost use Rattle.jfs_file_blocks.specs.room.specs.Laws.{blocks_in};
ghost use Rattle.jfs_xtree.specs.Node.{all_within};
ghost use Rattle.jfs_write_pages.specs.data_steps.specs.After.{AreWholePages, LieWithin};
ghost use Rattle.jfs_write.specs.Look.{FitsBytes, spots_at};
ghost use Rattle.jfs_write.specs.Call.{CarriesStop, MapAfter, MakesReserved, NotMade, WritesAt, StoppedAt};

use crate::answer::Stop;
use crate::look::{blocks_in, extents_of, want_for};
use crate::make::{Written, make};
use jfs_bits::{Moment, Xad};
use jfs_bmap::BlockMap;
use jfs_file_blocks::claim::ClaimError;
use jfs_file_blocks::reserve_blocks;
use jfs_plain::Refusal;
use jfs_ranges::PageView;
use jfs_read::way::Held;
use jfs_write_pages::{Change, Spot, spots_from};
use std::alloc::Global;

/// Puts bytes into a file that a call holds, of so many bytes. Refused where its tree breaks a rule, at the first page that does, and where it doesn't take the extents; `NeedsLog` where fewer blocks are free
/// than it wants: one for each hole, and where the tree gets extents fifteen for its pages. After an `Err` the map is as before.
pub fn write_at<V: PageView>(
    alloc: Global,
    view: &mut V,
    blocks: &mut BlockMap,
    at: &Held,
    change: &Change,
    now: Moment,
) -> Result<Written, Stop>
    requires map { blocks_in blocks.old ≡ V.PageView.block_count view.old }
    requires page { at.now.page < V.PageView.block_count view.old }
    requires fits { FitsDinode at.now.inode }
    requires bytes { FitsBytes change.now.offset (length change.now.bytes.now) }
    ensures image { V.PageView.tells → V.PageView.image view.new ≡ V.PageView.image view.old }
    ensures count_of_blocks { V.PageView.block_count view.new ≡ V.PageView.block_count view.old }
    ensures device { V.PageView.device view.new ≡ V.PageView.device view.old }
    ensures fault { CarriesStop (V.PageView.faults view.old) (V.PageView.faults view.new) result }
    ensures within { IfOk result (λ out. LieWithin (V.PageView.block_count view.old) out.blocks) }
    ensures whole { IfOk result (λ out. AreWholePages out.blocks) }
    ensures map { MapAfter blocks.old blocks.new result }
    ensures made { V.PageView.tells → IfOk result (WritesAt (V.PageView.block_count view.old) (page_of (V.PageView.image view.old)) at.now change.now.size change.now.offset change.now.bytes.now now blocks.old blocks.new) }
    ensures stopped { V.PageView.tells → IfErr result (StoppedAt (V.PageView.block_count view.old) (page_of (V.PageView.image view.old)) at.now change.now.offset (length change.now.bytes.now) blocks.old) }
{
    let es = match extents_of(alloc, view, at) {
        Ok(es) => es,
        Err(e) => return Err(Stop::Refused(e)),
    };
    let first = change.offset / 4096;
    let count = blocks_in(change.offset, change.bytes.len());
    match spots_from(alloc, es.as_slice(), view.blocks(), first, count) {
        Ok(spots) => make_reserved(
            alloc,
            view,
            blocks,
            at,
            change,
            es.as_slice(),
            spots.as_slice(),
            now,
        ),
        Err(_) => Err(Stop::Refused(Refusal::OutOfMemory)),
    }
}

/// Reserves what the write wants, makes it, and gives back what the tree left. After an `Err` the map is as before.
fn make_reserved<V: PageView>(
    alloc: Global,
    view: &mut V,
    blocks: &mut BlockMap,
    at: &Held,
    change: &Change,
    es: &[Xad],
    spots: &[Option<Spot>],
    now: Moment,
) -> Result<Written, Stop>
    requires map { blocks_in blocks.old ≡ V.PageView.block_count view.old }
    requires page { at.now.page < V.PageView.block_count view.old }
    requires fits { FitsDinode at.now.inode }
    requires bytes { FitsBytes change.now.offset (length change.now.bytes.now) }
    requires extents { all_within (V.PageView.block_count view.old) es.now ≡ true }
    requires spots { spots.now ≡ spots_at es.now change.now.offset (length change.now.bytes.now) }
    ensures image { V.PageView.tells → V.PageView.image view.new ≡ V.PageView.image view.old }
    ensures count_of_blocks { V.PageView.block_count view.new ≡ V.PageView.block_count view.old }
    ensures device { V.PageView.device view.new ≡ V.PageView.device view.old }
    ensures fault { CarriesStop (V.PageView.faults view.old) (V.PageView.faults view.new) result }
    ensures within { IfOk result (λ out. LieWithin (V.PageView.block_count view.old) out.blocks) }
    ensures whole { IfOk result (λ out. AreWholePages out.blocks) }
    ensures map { MapAfter blocks.old blocks.new result }
    ensures made { V.PageView.tells → IfOk result (MakesReserved (V.PageView.block_count view.old) (page_of (V.PageView.image view.old)) at.now change.now.size change.now.offset change.now.bytes.now es.now spots.now now blocks.old blocks.new) }
    ensures stopped { V.PageView.tells → IfErr result (NotMade (V.PageView.block_count view.old) (page_of (V.PageView.image view.old)) at.now change.now.offset es.now spots.now blocks.old) }
{
    let want = want_for(es, spots, view.blocks());
    let mut reserved = match reserve_blocks(alloc, blocks, want) {
        Ok(reserved) => reserved,
        Err(ClaimError::NeedsLog) => return Err(Stop::NeedsLog),
        Err(ClaimError::Memory) => return Err(Stop::Refused(Refusal::OutOfMemory)),
    };
    match make(
        alloc,
        view,
        at,
        change,
        es,
        spots,
        &reserved.runs,
        &mut reserved.claim.fresh,
        now,
    ) {
        Ok(written) => {
            reserved.settle(blocks);
            Ok(written)
        }
        Err(e) => {
            reserved.undo(blocks);
            Err(Stop::Refused(e))
        }
    }
}
