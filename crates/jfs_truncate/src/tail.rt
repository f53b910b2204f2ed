//! The block in which the bytes of a file end that stay.

ghost use Rattle.std.specs.Prelude.{◌≡◌, ◌≤◌, ◌<◌, length, IfOk, IfErr, IfSome};
ghost use Rattle.jfs_disk.specs.Image.{page_of};
ghost use Rattle.jfs_xtree.specs.Spells.{broken_for, found_for};
ghost use Rattle.jfs_read.specs.meaning.specs.Readers.{root_of};
ghost use Rattle.jfs_read.specs.way.specs.Answer.{Carries, Answers};
ghost use Rattle.jfs_read.specs.Read.{block_by, unless_bad, IsWayOf, OpenWhereSpelled};
ghost use Rattle.jfs_data_steps.specs.After.{AreWholePages, LieWithin};
ghost use Rattle.jfs_truncate.specs.Tail.{tail_way, tail_block, IsTail, zeroed};

use crate::answer::{from_extents, from_view};
use jfs_bits::Rule;
use jfs_data_steps::{DataList, DataPage};
use jfs_disk::Page;
use jfs_plain::Refusal;
use jfs_ranges::PageView;
use jfs_read::reader::{page_of_block, root_in};
use jfs_read::way::Held;
use jfs_xtree::lookup;
use std::alloc::Global;

/// The block of the volume that holds block `k` of a file; `None` where the file reads as zeros. `Damaged` names the first page on the way to it that breaks a rule.
fn block_at<V: PageView>(view: &mut V, at: &Held, k: u64) -> Result<Option<u32>, Refusal>
    ensures image { V.PageView.tells → V.PageView.image view.new ≡ V.PageView.image view.old }
    ensures count_of_blocks { V.PageView.block_count view.new ≡ V.PageView.block_count view.old }
    ensures device { V.PageView.device view.new ≡ V.PageView.device view.old }
    ensures fault { Carries (V.PageView.faults view.old) (V.PageView.faults view.new) result }
    ensures within { IfOk result (λ block. IfSome block (λ n. n < V.PageView.block_count view.old)) }
    ensures meets { V.PageView.tells → Answers (unless_bad at.now.page (broken_for (V.PageView.block_count view.old) (page_of (V.PageView.image view.old)) (root_of at.now.inode) k)
        (block_by (found_for (V.PageView.block_count view.old) (page_of (V.PageView.image view.old)) (root_of at.now.inode) k) k)) result }
    ensures sound { V.PageView.tells → IfErr result (OpenWhereSpelled (V.PageView.block_count view.old) (page_of (V.PageView.image view.old)) at.now.inode) }
{
    let found = match lookup(view, root_in(&at.inode), k) {
        Ok(Some(found)) => found,
        Ok(None) => return Ok(None),
        Err(e) => return Err(from_extents(at.page, e)),
    };
    match page_of_block([found].as_slice(), view.blocks(), k) {
        Ok(block) => Ok(block),
        // no extent of a page without a broken rule reaches past the end
        Err(_) => Err(Refusal::Damaged {
            page: at.page,
            rule: Rule::Range,
        }),
    }
}

/// The block in which the first `kept` bytes of a file end, with zeros behind them. There is none where they end with a block, or where the file reads as zeros there.
/// `Damaged` names the first page on the way to it that breaks a rule.
pub fn tail<V: PageView>(
    alloc: Global,
    view: &mut V,
    at: &Held,
    kept: u64,
) -> Result<DataList, Refusal>
    ensures image { V.PageView.tells → V.PageView.image view.new ≡ V.PageView.image view.old }
    ensures count_of_blocks { V.PageView.block_count view.new ≡ V.PageView.block_count view.old }
    ensures device { V.PageView.device view.new ≡ V.PageView.device view.old }
    ensures fault { Carries (V.PageView.faults view.old) (V.PageView.faults view.new) result }
    ensures within { IfOk result (LieWithin (V.PageView.block_count view.old)) }
    ensures whole { IfOk result AreWholePages }
    ensures tail { V.PageView.tells → IfOk result (IsTail (page_of (V.PageView.image view.old)) kept (tail_block (V.PageView.block_count view.old) (page_of (V.PageView.image view.old)) at.now.inode kept)) }
    ensures way { V.PageView.tells → IsWayOf at.now.page (tail_way (V.PageView.block_count view.old) (page_of (V.PageView.image view.old)) at.now.inode kept) result }
    ensures sound { V.PageView.tells → IfErr result (OpenWhereSpelled (V.PageView.block_count view.old) (page_of (V.PageView.image view.old)) at.now.inode) }
{
    let mut list = DataList::new(alloc);
    let from = (kept % 4096) as usize;
    if from == 0 {
        return Ok(list);
    }
    let block = match block_at(view, at, kept / 4096) {
        Ok(Some(block)) => block,
        Ok(None) => return Ok(list),
        Err(e) => return Err(e),
    };
    let page = match view.page(block) {
        Ok(page) => zeroed(page, from),
        Err(e) => return Err(from_view(e)),
    };
    match list.push(DataPage { block, page }) {
        Ok(()) => Ok(list),
        Err(_) => Err(Refusal::OutOfMemory),
    }
}

/// A copy of a page with zeros from a place on.
fn zeroed(page: &Page, from: usize) -> Page
    requires { from ≤ 4096 }
    ensures value { result.0 ≡ zeroed from page.now.0 }
    ensures size { length result.0 ≡ 4096 }
{
    let mut after = Page(page.0);
    after.0[from..].fill(0);
    after
}
