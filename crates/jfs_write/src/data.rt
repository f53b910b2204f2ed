//! The blocks that a write puts bytes into.

ghost use Rattle.std.specs.Prelude.{◌≡◌, ◌≤◌, ◌<◌, ◌+◌, ◌++◌, ◌/◌, ◌^◌, true, OnOk, IfOk, IfErr};
ghost use Rattle.jfs_disk.specs.Image.{page_of};
ghost use Rattle.jfs_xtree.specs.Node.{all_within};
ghost use Rattle.jfs_read.specs.way.specs.Answer.{Carries, is_open};
ghost use Rattle.jfs_write_pages.specs.data_steps.specs.After.{AreWholePages, LieWithin};
ghost use Rattle.jfs_write_pages.specs.Spots.{spots_between, AllSpots};
ghost use Rattle.jfs_write_pages.specs.Pages.{told, pages_for};
ghost use Rattle.jfs_write.specs.Data.{lie_within};

use jfs_bits::{Rule, Xad};
use jfs_plain::Refusal;
use jfs_ranges::PageView;
use jfs_read::way::Held;
use jfs_write_pages::data_steps::DataList;
use jfs_write_pages::{Change, Spot, push_between, push_pages};
use std::alloc::{AllocError, Global};

/// The blocks of a file that a write puts bytes into, and before them those from the file's end on in which it puts zeros, each with its whole page.
pub(crate) fn data_of<V: PageView>(
    alloc: Global,
    view: &mut V,
    at: &Held,
    change: &Change,
    es: &[Xad],
    spots: &[Spot],
) -> Result<DataList, Refusal>
    requires within { all_within (V.PageView.block_count view.old) es.now ≡ true }
    requires low { change.now.offset < 2 ^ 52 }
    requires spots { AllSpots (V.PageView.block_count view.old) spots.now }
    ensures image { V.PageView.tells → V.PageView.image view.new ≡ V.PageView.image view.old }
    ensures count_of_blocks { V.PageView.block_count view.new ≡ V.PageView.block_count view.old }
    ensures device { V.PageView.device view.new ≡ V.PageView.device view.old }
    ensures fault { Carries (V.PageView.faults view.old) (V.PageView.faults view.new) result }
    ensures within { IfOk result (LieWithin (V.PageView.block_count view.old)) }
    ensures whole { IfOk result AreWholePages }
    ensures only { V.PageView.tells → IfErr result (λ why. is_open why ≡ true) }
    ensures pages { V.PageView.tells → IfOk result (λ ds. told ds ≡ pages_for (page_of (V.PageView.image view.old)) change.now.size change.now.offset change.now.bytes.now (spots_between (change.now.size / 4096) (change.now.offset / 4096) es.now ++ spots.now)) }
{
    let Ok(all) = with_gap(alloc, change, es, view.blocks(), spots) else {
        return Err(Refusal::OutOfMemory);
    };
    let mut list = DataList::new(alloc);
    match push_pages(view, all.as_slice(), change, &mut list) {
        Ok(()) => {}
        Err(e) => return Err(e),
    }
    if lie_within(&list, view.blocks()) {
        Ok(list)
    } else {
        // each of these blocks does
        Err(Refusal::Damaged {
            page: at.page,
            rule: Rule::Range,
        })
    }
}

/// The recorded blocks from the file's end to the bytes, and then these.
fn with_gap(
    alloc: Global,
    change: &Change,
    es: &[Xad],
    blocks: u32,
    spots: &[Spot],
) -> Result<Vec<Spot>, AllocError>
    requires within { all_within blocks es.now ≡ true }
    ensures { IfOk result (λ all. all.items ≡ spots_between (change.now.size / 4096) (change.now.offset / 4096) es.now ++ spots.now) }
{
    let mut all = Vec::new(alloc);
    push_between(
        &mut all,
        es,
        blocks,
        change.size / 4096,
        change.offset / 4096,
    )?;
    for spot in spots {
        all.push(*spot)?;
    }
    Ok(all)
}

/// Whether each of these blocks lies within so many.
fn lie_within(list: &DataList, blocks: u32) -> bool
    ensures { result ≡ lie_within blocks list.now }
{
    for d in list.as_slice() {
        if d.block >= blocks {
            return false;
        }
    }
    true
}
