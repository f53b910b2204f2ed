//! What a transaction takes and frees.

ghost use Rattle.std.specs.Prelude.{◌≡◌, ◌++◌, OnOk, IfOk, drop};
ghost use Rattle.jfs_ranges.specs.Apply.{touches_edit, touches_tx};
ghost use Rattle.jfs_volume.specs.Runs.{taken_by, taken_in, freed_by, freed_in, page_freed, pages_freed};

use jfs_bits::{PageKind, Pxd, PxdList};
use jfs_halves::FreedPage;
use jfs_ranges::Edit;
use std::alloc::{AllocError, Global};

/// How many bytes the four pages of an inode extent have, which are logged whole.
const EXTENT_BYTES: usize = 16_384;

/// Adds the run that an edit takes, if it takes one: new inodes take theirs.
fn push_taken(edit: &Edit, runs: &mut PxdList) -> Result<(), AllocError>
    ensures { OnOk result (runs.new ≡ runs.old ++ taken_by edit.now) }
{
    match edit {
        Edit::Alloc(run) => runs.push(*run),
        Edit::Lines {
            page,
            kind: PageKind::Inode,
            bytes,
            ..
        } => {
            if bytes.len() == EXTENT_BYTES {
                let addr = u64::from(*page);
                return runs.push(Pxd { len: 4, addr });
            }
            Ok(())
        }
        Edit::Lines { .. } | Edit::NoRedo { .. } | Edit::Free(_) => Ok(()),
    }
}

/// Adds the run that an edit frees, if it frees one.
fn push_freed(edit: &Edit, runs: &mut PxdList) -> Result<(), AllocError>
    ensures { OnOk result (runs.new ≡ runs.old ++ freed_by edit.now) }
{
    match edit {
        Edit::Free(run) => runs.push(*run),
        Edit::Lines { .. } | Edit::NoRedo { .. } | Edit::Alloc(_) => Ok(()),
    }
}

/// The runs of blocks that a transaction takes, in order. `Err` is want of memory.
pub(crate) fn taken_runs(alloc: Global, edits: &[Edit]) -> Result<PxdList, AllocError>
    ensures { IfOk result (λ runs. runs ≡ taken_in edits.now) }
{
    let mut runs = PxdList::new(alloc);
    for edit in edits {
        push_taken(edit, &mut runs)?;
    }
    Ok(runs)
}

/// The runs of blocks that a transaction frees, in order. `Err` is want of memory.
pub(crate) fn freed_runs(alloc: Global, edits: &[Edit]) -> Result<PxdList, AllocError>
    ensures { IfOk result (λ runs. runs ≡ freed_in edits.now) }
{
    let mut runs = PxdList::new(alloc);
    for edit in edits {
        push_freed(edit, &mut runs)?;
    }
    Ok(runs)
}

/// Whether an edit puts a byte into page `n`.
fn touches_page(edit: &Edit, n: u32) -> bool
    ensures { result ≡ touches_edit n edit.now }
{
    let pages = edit.pages();
    let page = u64::from(n);
    pages.first <= page && page < pages.end
}

/// Whether one of the edits from a place on puts a byte into page `n`.
fn touches_from(edits: &[Edit], from: usize, n: u32) -> bool
    ensures { result ≡ touches_tx n (drop from edits.now) }
{
    for i in from..edits.len() {
        if touches_page(&edits[i], n) {
            return true;
        }
    }
    false
}

/// Adds the page that an edit of entry `number` frees, if it frees one: a NoRedo's, unless the edits from a place on put lines there.
fn push_page(
    edit: &Edit,
    edits: &[Edit],
    from: usize,
    number: u64,
    pages: &mut Vec<FreedPage>,
) -> Result<(), AllocError>
    ensures { OnOk result (pages.new.items ≡ pages.old.items ++ page_freed number (drop from edits.now) edit.now) }
{
    if let Edit::NoRedo { page } = edit {
        if !touches_from(edits, from, *page) {
            pages.push(FreedPage {
                page: *page,
                by_entry: number,
            })?;
        }
    }
    Ok(())
}

/// The pages that a transaction of entry `number` frees, in order. `Err` is want of memory.
pub(crate) fn freed_pages(
    alloc: Global,
    edits: &[Edit],
    number: u64,
) -> Result<Vec<FreedPage>, AllocError>
    ensures { IfOk result (λ pages. pages.items ≡ pages_freed number edits.now) }
{
    let mut pages = Vec::new(alloc);
    for i in 0..edits.len() {
        push_page(&edits[i], edits, i + 1, number, &mut pages)?;
    }
    Ok(pages)
}
