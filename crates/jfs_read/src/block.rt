//! One block of a file.

ghost use Rattle.std.specs.Prelude.{◌≡◌, ◌≤◌, ◌<◌, ◌+◌, ◌++◌, ◌/◌, ◌%◌, length, replicate, OnOk, IfOk, IfErr, IfSome, Err};
ghost use Rattle.jfs_disk.specs.Image.{page_of};
ghost use Rattle.jfs_disk.specs.declared.disk.Fault.{Fault};
ghost use Rattle.jfs_inode.specs.Inode.{FitsDinode};
ghost use Rattle.jfs_xtree.specs.Spells.{CarriesXt, broken_for, found_for};
ghost use Rattle.jfs_way.specs.meaning.specs.Readers.{root_of};
ghost use Rattle.jfs_bits.specs.Field.{range_of};
ghost use Rattle.jfs_plain.specs.Step.{bytes_from};
ghost use Rattle.jfs_plain.specs.declared.refusal.Refusal.TheVariants.{OutOfMemory};
ghost use Rattle.jfs_way.specs.Answer.{Carries, CarriesCause, Answers};
ghost use Rattle.jfs_read.specs.Read.{block_by, byte_on_way, unless_bad, extents_refusal, IsWayOf, OpenWhereSpelled};

use jfs_bits::{Blob, Rule, Xad};
use jfs_plain::Refusal;
use jfs_ranges::{PageView, ViewError};
use jfs_tree::NO_PAGE;
use jfs_way::Held;
use jfs_way::reader::{page_of_block, root_in};
use jfs_xtree::{XtError, lookup};

/// A call on the extent tree failed whose root stands in an inode on this page.
fn from_extents(page: u32, e: XtError) -> Refusal
    ensures count { (before now : Fault) → CarriesXt {T = Unit {0}} before now (Err e) → CarriesCause before now result }
    ensures value { result ≡ extents_refusal page e }
{
    match e {
        XtError::View(ViewError::Read(fault)) => Refusal::IoFault { fault },
        XtError::View(ViewError::Memory) => Refusal::OutOfMemory,
        XtError::Bad { page: bad, rule } => Refusal::Damaged {
            page: if bad == NO_PAGE { page } else { bad },
            rule,
        },
    }
}

/// The page of block `k` of a file; `None` where the file reads as zeros.
fn page_at<V: PageView>(view: &mut V, at: &Held, k: u64) -> Result<Option<u32>, Refusal>
    ensures image { V.PageView.tells → V.PageView.image view.new ≡ V.PageView.image view.old }
    ensures count_of_blocks { V.PageView.block_count view.new ≡ V.PageView.block_count view.old }
    ensures device { V.PageView.device view.new ≡ V.PageView.device view.old }
    ensures fault { Carries (V.PageView.faults view.old) (V.PageView.faults view.new) result }
    ensures within { IfOk result (λ page. IfSome page (λ n. n < V.PageView.block_count view.old)) }
    ensures meets { V.PageView.tells → Answers (unless_bad at.now.page (broken_for (V.PageView.block_count view.old) (page_of (V.PageView.image view.old)) (root_of at.now.inode) k)
        (block_by (found_for (V.PageView.block_count view.old) (page_of (V.PageView.image view.old)) (root_of at.now.inode) k) k)) result }
    ensures sound { V.PageView.tells → IfErr result (OpenWhereSpelled (V.PageView.block_count view.old) (page_of (V.PageView.image view.old)) at.now.inode) }
{
    let found = match lookup(view, root_in(&at.inode), k) {
        Ok(Some(found)) => found,
        Ok(None) => return Ok(None),
        Err(e) => return Err(from_extents(at.page, e)),
    };
    match page_of_block([found].as_slice(), view.blocks(), k) {
        Ok(page) => Ok(page),
        // no extent of a page without a broken rule reaches past the end
        Err(_) => Err(Refusal::Damaged {
            page: at.page,
            rule: Rule::Range,
        }),
    }
}

/// Appends so many bytes of a file from offset `i` on, which lie in one of its blocks.
pub(crate) fn push_part<V: PageView>(
    view: &mut V,
    at: &Held,
    i: u64,
    count: usize,
    bytes: &mut Blob,
) -> Result<(), Refusal>
    requires one { i % 4096 + count ≤ 4096 }
    ensures image { V.PageView.tells → V.PageView.image view.new ≡ V.PageView.image view.old }
    ensures count_of_blocks { V.PageView.block_count view.new ≡ V.PageView.block_count view.old }
    ensures device { V.PageView.device view.new ≡ V.PageView.device view.old }
    ensures fault { Carries (V.PageView.faults view.old) (V.PageView.faults view.new) result }
    ensures size { OnOk result (length bytes.new ≡ length bytes.old + count) }
    ensures part { V.PageView.tells → OnOk result (bytes.new ≡ bytes.old ++ bytes_from (byte_on_way (V.PageView.block_count view.old) (page_of (V.PageView.image view.old)) at.now.inode) i count) }
    ensures way { V.PageView.tells → IsWayOf at.now.page (broken_for (V.PageView.block_count view.old) (page_of (V.PageView.image view.old)) (root_of at.now.inode) (i / 4096)) result }
    ensures sound { V.PageView.tells → IfErr result (OpenWhereSpelled (V.PageView.block_count view.old) (page_of (V.PageView.image view.old)) at.now.inode) }
{
    let from = (i % 4096) as usize;
    let n = match page_at(view, at, i / 4096) {
        Ok(Some(n)) => n,
        Ok(None) => return push_zeros(count, bytes),
        Err(e) => return Err(e),
    };
    match view.page(n) {
        Ok(page) => push(&page.0, from, count, bytes),
        Err(e) => Err(from_extents(at.page, XtError::View(e))),
    }
}

/// Appends so many bytes of a page.
fn push(page: &[u8; 4096], from: usize, count: usize, bytes: &mut Blob) -> Result<(), Refusal>
    requires { from + count ≤ 4096 }
    ensures width { length page.now ≡ 4096 }
    ensures pushed { OnOk result (bytes.new ≡ bytes.old ++ range_of page.now from count) }
    ensures size { OnOk result (length bytes.new ≡ length bytes.old + count) }
    ensures memory { IfErr result (λ why. why ≡ OutOfMemory) }
{
    match bytes.extend_from_slice(&page[from..from + count]) {
        Ok(()) => Ok(()),
        Err(_) => Err(Refusal::OutOfMemory),
    }
}

/// Appends so many zeros.
fn push_zeros(count: usize, bytes: &mut Blob) -> Result<(), Refusal>
    requires { count ≤ 4096 }
    ensures pushed { OnOk result (bytes.new ≡ bytes.old ++ replicate count 0) }
    ensures size { OnOk result (length bytes.new ≡ length bytes.old + count) }
    ensures memory { IfErr result (λ why. why ≡ OutOfMemory) }
{
    match bytes.extend_from_slice(&[0; 4096][..count]) {
        Ok(()) => Ok(()),
        Err(_) => Err(Refusal::OutOfMemory),
    }
}
