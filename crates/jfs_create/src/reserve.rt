//! Blocks are reserved for an object, and its edits are made.

ghost use Rattle.std.specs.Prelude.{◌≡◌, ◌<◌, ◌≤◌, ◌+◌, length, IfOk, IfErr};
ghost use Rattle.jfs_disk.specs.Image.{page_of};
ghost use Rattle.jfs_link.specs.room.specs.Laws.{blocks_in};
ghost use Rattle.jfs_inode.specs.Inode.{FitsDinode};
ghost use Rattle.jfs_create.specs.New.{FitsNew};
ghost use Rattle.jfs_create.specs.Seat.{IsSiteWithin, needs_run};
ghost use Rattle.jfs_create.specs.Reserved.{MakesReserved, NotMade, CarriesStop, MapAfter};

use crate::make::make;
use crate::plan::{Draft, plan_of};
use crate::seats::Site;
use jfs_bmap::BlockMap;
use jfs_link::claim::{ClaimError, Want, take};
use jfs_link::way::Held;
use jfs_name::Name;
use jfs_plain::Refusal;
use jfs_ranges::{PageView, Tx};
use std::alloc::Global;

/// Why an object isn't made.
#[derive(Clone, Copy, PartialEq, Eq, Debug)]
pub enum Stop {
    /// The call is refused.
    Refused(Refusal),
    /// Busy blocks stand between the call and its blocks.
    NeedsLog,
}

/// How many blocks a directory's tree may take.
const TREE_BLOCKS: u32 = 8;

/// Reserves a run of four blocks where an inode extent is to be made, and then eight blocks one by one for the directory's tree; makes the edits (as `make` does), and gives back what the
/// tree left. After an `Err` the map is as before.
pub(crate) fn make_reserved<V: PageView>(
    alloc: Global,
    view: &mut V,
    blocks: &mut BlockMap,
    dir: &Held,
    name: &Name,
    draft: Draft<'_>,
) -> Result<Tx, Stop>
    requires map { blocks_in blocks.old ≡ V.PageView.block_count view.old }
    requires directory { dir.now.page < V.PageView.block_count view.old }
    requires fits { FitsDinode dir.now.inode }
    requires links { dir.now.inode.nlink + 1 < 4294967296 }
    requires object { FitsNew draft.object }
    requires site { IsSiteWithin (V.PageView.block_count view.old) draft.site }
    requires name { length name.now ≤ 255 }
    ensures image { V.PageView.tells → V.PageView.image view.new ≡ V.PageView.image view.old }
    ensures count_of_blocks { V.PageView.block_count view.new ≡ V.PageView.block_count view.old }
    ensures device { V.PageView.device view.new ≡ V.PageView.device view.old }
    ensures fault { CarriesStop (V.PageView.faults view.old) (V.PageView.faults view.new) result }
    ensures makes { V.PageView.tells → IfOk result (MakesReserved (V.PageView.block_count view.old) (page_of (V.PageView.image view.old)) dir.now name.now draft.entry blocks.old blocks.new) }
    ensures stopped { V.PageView.tells → IfErr result (NotMade (V.PageView.block_count view.old) (page_of (V.PageView.image view.old)) dir.now name.now draft.entry blocks.old) }
    ensures map { MapAfter blocks.old blocks.new result }
{
    let want = Want {
        run: needs_run(draft.site),
        blocks: TREE_BLOCKS,
    };
    let mut claim = match take(alloc, blocks, want) {
        Ok(claim) => claim,
        Err(ClaimError::NeedsLog) => return Err(Stop::NeedsLog),
        Err(ClaimError::Memory) => return Err(Stop::Refused(Refusal::OutOfMemory)),
    };
    let plan = plan_of(draft, claim.run);
    match make(alloc, view, dir, name, plan, &mut claim.fresh) {
        Ok(tx) => {
            claim.settle(blocks);
            Ok(tx)
        }
        Err(e) => {
            claim.undo(blocks);
            Err(Stop::Refused(e))
        }
    }
}

/// Whether an extent is to be made.
fn needs_run(site: Site) -> bool
    ensures { result ≡ needs_run site }
{
    match site {
        Site::There(_) => false,
        Site::Founding(_) => true,
    }
}
