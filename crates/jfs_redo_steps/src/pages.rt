//! The pages of a disk after redo.

ghost use Rattle.std.specs.Prelude.{◌≡◌, ◌≤◌, ◌<◌, ℕ, List, length, set, OnOk, OnErr};
ghost use Rattle.jfs_disk.specs.Image.{page_of, ArePages};
ghost use Rattle.jfs_disk.specs.Crash.{last_of};
ghost use Rattle.jfs_disk.specs.Moment.{IsResting, now_of};
ghost use Rattle.jfs_disk.specs.Fault.{HasCause};
ghost use Rattle.jfs_ranges.specs.declared.edit.Edit.{Edit};
ghost use Rattle.jfs_records.specs.Redo.{redone, all_of};
ghost use Rattle.jfs_redo_steps.specs.ByPage.{edits_in, RiseFrom, IsIndex};
ghost use Rattle.jfs_redo_steps.specs.Pages.{ArePagesRedone, MayBeTorn, IsStopped, AreOnTheWay, WritesPage};

use crate::index::{PageEdit, edits_by_page, own_from};
use crate::page::redo_page;
use jfs_disk::{Disk, DiskError, Page};
use jfs_ranges::Tx;
use std::alloc::Global;

/// Redoes the first `count` pages of a disk: each that transactions change or free is read, and written as they made it unless it is so already. Pages are synced by nobody. The work grows
/// with the transactions' edits and `count`, and the memory with the edits, at 16 bytes for each page that one changes or frees.
///
/// # Errors
///
/// Memory for an index of the edits ran out: nothing is written. A page could not be read or written: then the first of them are redone, the one that failed may hold front sectors of what
/// redo makes of it, and all others are as they were.
pub fn redo_pages<D: Disk>(
    alloc: Global,
    disk: &mut D,
    transactions: &[Tx],
    count: u32,
) -> Result<(), DiskError>
    requires within { count ≤ D.page_count disk.old }
    requires some { 0 < count }
    ensures pages { D.page_count disk.new ≡ D.page_count disk.old }
    ensures room { D.room disk.new ≡ D.room disk.old }
    ensures redone { D.tells → OnOk result (ArePagesRedone count (all_of transactions.now) (D.image disk.old) (D.image disk.new)) }
    ensures stopped { D.tells → OnErr result (IsStopped count (all_of transactions.now) (D.image disk.old) (D.image disk.new)) }
    // Where nothing was pending, a crash at each moment leaves pages on the way, of which redo makes the same again (`pages_are_redone_again`).
    ensures moments { D.tells → D.tells_crashes → IsResting (last_of (D.past disk.old)) → AreOnTheWay count (all_of transactions.now) (D.image disk.old) (now_of (D.past disk.old)) (D.past disk.new) }
    ensures cause { HasCause (D.fault_count disk.old) (D.fault_count disk.new) result }
{
    let index = match edits_by_page(alloc, transactions, count) {
        Ok(index) => index,
        Err(_) => return Err(DiskError::Memory),
    };
    match redo_by_index(disk, index.as_slice(), count) {
        Ok(()) => Ok(()),
        Err(e) => Err(e),
    }
}

/// The same by an index of the edits.
fn redo_by_index<D: Disk>(disk: &mut D, index: &[PageEdit<'_>], count: u32) -> Result<(), DiskError>
    requires within { count ≤ D.page_count disk.old }
    requires rising { RiseFrom 0 index.now }
    ensures pages { D.page_count disk.new ≡ D.page_count disk.old }
    ensures room { D.room disk.new ≡ D.room disk.old }
    ensures redone { OnOk result (D.tells → (es : List Edit) → IsIndex count es index.now → ArePagesRedone count es (D.image disk.old) (D.image disk.new)) }
    ensures stopped { OnErr result (D.tells → (es : List Edit) → IsIndex count es index.now → IsStopped count es (D.image disk.old) (D.image disk.new)) }
    ensures moments { D.tells → D.tells_crashes → (es : List Edit) → IsIndex count es index.now → IsResting (last_of (D.past disk.old)) → AreOnTheWay count es (D.image disk.old) (now_of (D.past disk.old)) (D.past disk.new) }
    ensures cause { HasCause (D.fault_count disk.old) (D.fault_count disk.new) result }
{
    let mut page = Page::zeros();
    let mut at = 0;
    for p in 0..count {
        let own = own_from(index, at, p);
        match redo_on_disk(disk, own, p, &mut page) {
            Ok(()) => {}
            Err(e) => return Err(e),
        }
        at += own.len();
    }
    Ok(())
}

/// Redoes page `p` by its edits; `page` is room for it.
fn redo_on_disk<D: Disk>(
    disk: &mut D,
    edits: &[PageEdit<'_>],
    p: u32,
    page: &mut Page,
) -> Result<(), DiskError>
    requires within { p < D.page_count disk.old }
    ensures pages { D.page_count disk.new ≡ D.page_count disk.old }
    ensures room { D.room disk.new ≡ D.room disk.old }
    ensures redone { D.tells → OnOk result (D.image disk.new ≡ set (D.image disk.old) p (redone p (page_of (D.image disk.old) p) (page_of (D.image disk.old) p) (edits_in edits.now))) }
    ensures torn { D.tells → OnErr result (MayBeTorn p (edits_in edits.now) (D.image disk.old) (D.image disk.new)) }
    ensures writes { D.tells → D.tells_crashes → WritesPage p (redone p (page_of (D.image disk.old) p) (page_of (D.image disk.old) p) (edits_in edits.now)) (D.past disk.old) (D.past disk.new) }
    ensures cause { HasCause (D.fault_count disk.old) (D.fault_count disk.new) result }
{
    if edits.is_empty() {
        return Ok(());
    }
    match disk.read(p, page) {
        Ok(()) => {}
        Err(e) => return Err(e),
    }
    if redo_page(edits, p, page) {
        return Ok(());
    }
    match disk.write(p, page) {
        Ok(()) => Ok(()),
        Err(e) => Err(e),
    }
}
