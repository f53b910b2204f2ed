//! Room in memory for what an entry adds.

ghost use Rattle.std.specs.Prelude.{◌≡◌, ◌<◌, ◌≤◌, ◌+◌, ℕ, true, length, vec_capacity, OnOk};
ghost use Rattle.jfs_ranges.specs.Apply.{touches_tx};
ghost use Rattle.jfs_pages.specs.Device.{HasReadFault, IsSame};
ghost use Rattle.jfs_pages.specs.Dirty.{is_among};
ghost use Rattle.jfs_pages.specs.Kept.{dirty_in, held_in, shown};
ghost use Rattle.jfs_volume.specs.Text.{text_in};

use crate::draft::Draft;
use crate::waiting::WaitingText;
use jfs_disk::Disk;
use jfs_halves::FreedPage;
use jfs_pages::PageCache;
use jfs_plain::Entry;
use jfs_ranges::{Tx, ViewError};
use std::alloc::AllocError;

/// Makes room in the lists for what an entry adds. `Err` is want of memory; the lists have what they had.
fn make_room(
    text: &mut WaitingText,
    pages: &mut Vec<FreedPage>,
    entries: &mut Vec<Entry>,
    draft: &Draft,
) -> Result<(), AllocError>
    ensures bytes { OnOk result (length text.new.text.bytes.items + length draft.now.text.bytes.items ≤ vec_capacity text.new.text.bytes) }
    ensures ends { OnOk result (length text.new.text.ends.items + length draft.now.text.ends.items ≤ vec_capacity text.new.text.ends) }
    ensures pages { OnOk result (length pages.new.items + length draft.now.pages.items ≤ vec_capacity pages.new) }
    ensures entries { OnOk result (length entries.new.items + 1 ≤ vec_capacity entries.new) }
    ensures same { (text_in text.new ≡ text_in text.old) × (pages.new.items ≡ pages.old.items) × (entries.new.items ≡ entries.old.items) }
{
    text.reserve(draft.text.bytes().len(), draft.text.ends().len())?;
    pages.reserve(draft.pages.len())?;
    entries.reserve(1)?;
    Ok(())
}

/// Makes room in the lists for what an entry adds, and holds the pages that it changes. At `Err` pages and lists have what they had.
pub(crate) fn make_ready<D: Disk>(
    cache: &mut PageCache<D>,
    text: &mut WaitingText,
    pages: &mut Vec<FreedPage>,
    entries: &mut Vec<Entry>,
    tx: &Tx,
    draft: &Draft,
) -> Result<(), ViewError>
    requires { (n : ℕ) → touches_tx n tx.now ≡ true → n < cache.old.blocks }
    ensures bytes { OnOk result (length text.new.text.bytes.items + length draft.now.text.bytes.items ≤ vec_capacity text.new.text.bytes) }
    ensures ends { OnOk result (length text.new.text.ends.items + length draft.now.text.ends.items ≤ vec_capacity text.new.text.ends) }
    ensures pages { OnOk result (length pages.new.items + length draft.now.pages.items ≤ vec_capacity pages.new) }
    ensures entries { OnOk result (length entries.new.items + 1 ≤ vec_capacity entries.new) }
    ensures held { OnOk result ((n : ℕ) → touches_tx n tx.now ≡ true → is_among n (held_in cache.new.kept) ≡ true) }
    ensures same { (text_in text.new ≡ text_in text.old) × (pages.new.items ≡ pages.old.items) × (entries.new.items ≡ entries.old.items) }
    ensures dirty { dirty_in cache.new.kept ≡ dirty_in cache.old.kept }
    ensures shown { D.tells → (q : ℕ) → shown (D.image cache.new.disk) cache.new.kept q ≡ shown (D.image cache.old.disk) cache.old.kept q }
    ensures disk { IsSame D.tells D.tells_crashes (D.image cache.old.disk) (D.image cache.new.disk) (D.past cache.old.disk) (D.past cache.new.disk) }
    ensures blocks { cache.new.blocks ≡ cache.old.blocks }
    ensures parts { (D.page_count cache.new.disk ≡ D.page_count cache.old.disk) × (D.room cache.new.disk ≡ D.room cache.old.disk) }
    ensures cause { HasReadFault (D.fault_count cache.old.disk) (D.fault_count cache.new.disk) result }
{
    match make_room(text, pages, entries, draft) {
        Ok(()) => {}
        Err(_) => return Err(ViewError::Memory),
    }
    cache.hold(tx, &[])
}
