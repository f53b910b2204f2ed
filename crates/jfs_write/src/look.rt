//! What a write finds in a file, and which blocks it wants.

ghost use Rattle.std.specs.Prelude.{◌≡◌, ◌≤◌, ◌<◌, ◌+◌, true, length, IfOk};
ghost use Rattle.jfs_disk.specs.Image.{page_of};
ghost use Rattle.jfs_xtree.specs.Node.{all_within};
ghost use Rattle.jfs_plain.specs.Step.{blocks_in};
ghost use Rattle.jfs_read.specs.way.specs.Answer.{Carries, Answers};
ghost use Rattle.jfs_write.specs.Look.{spelled_at, needs_extents, want_for};

use crate::answer::from_extents;
use jfs_bits::{Rule, Xad, XadList};
use jfs_file_blocks::FileWant;
use jfs_plain::Refusal;
use jfs_ranges::PageView;
use jfs_read::reader::root_in;
use jfs_read::way::Held;
use jfs_write_pages::{Spot, are_within, hint_behind, holes_in};
use jfs_xtree::extents;
use std::alloc::Global;

/// How many blocks a file's tree may take.
const TREE_BLOCKS: u32 = 15;

/// The extents of a file, or `Damaged` at the first page of its tree that breaks a rule.
pub(crate) fn extents_of<V: PageView>(
    alloc: Global,
    view: &mut V,
    at: &Held,
) -> Result<XadList, Refusal>
    ensures image { V.PageView.tells → V.PageView.image view.new ≡ V.PageView.image view.old }
    ensures count_of_blocks { V.PageView.block_count view.new ≡ V.PageView.block_count view.old }
    ensures device { V.PageView.device view.new ≡ V.PageView.device view.old }
    ensures fault { Carries (V.PageView.faults view.old) (V.PageView.faults view.new) result }
    ensures within { IfOk result (λ es. all_within (V.PageView.block_count view.old) es ≡ true) }
    ensures meets { V.PageView.tells → Answers (spelled_at (V.PageView.block_count view.old) (page_of (V.PageView.image view.old)) at.now) result }
{
    let es = match extents(alloc, view, root_in(&at.inode)) {
        Ok(es) => es,
        Err(e) => return Err(from_extents(at.page, e)),
    };
    if are_within(es.as_slice(), view.blocks()) {
        Ok(es)
    } else {
        // no page without a broken rule has such an extent
        Err(Refusal::Damaged {
            page: at.page,
            rule: Rule::Range,
        })
    }
}

/// How many blocks a range of bytes touches.
pub(crate) fn blocks_in(offset: u64, count: usize) -> u32
    requires some { 0 < count }
    requires few { count ≤ 65536 }
    ensures blocks { result ≡ blocks_in offset count }
    ensures few { result ≤ 17 }
{
    ((offset % 4096) as u32 + count as u32).div_ceil(4096)
}

/// What a write to these blocks of a file with these extents wants reserved: a block for each hole; and where one of them isn't recorded yet, blocks for pages of its tree.
pub(crate) fn want_for(es: &[Xad], spots: &[Option<Spot>], blocks: u32) -> FileWant
    requires within { all_within blocks es.now ≡ true }
    requires few { length spots.now ≤ 17 }
    ensures value { result ≡ want_for es.now spots.now }
{
    FileWant {
        hint: hint_behind(es, blocks),
        blocks: holes_in(spots),
        pages: if needs_extents(spots) { TREE_BLOCKS } else { 0 },
    }
}

/// Whether one of these blocks is a hole, or isn't recorded.
fn needs_extents(spots: &[Option<Spot>]) -> bool
    ensures { result ≡ needs_extents spots.now }
{
    for spot in spots {
        match spot {
            Some(spot) if spot.recorded => {}
            _ => return true,
        }
    }
    false
}
