//! What an entry with a transaction needs before it joins.

ghost use Rattle.std.specs.Prelude.{◌≡◌, ◌<◌, ◌≤◌, ◌+◌, ◌^◌, ◌++◌, ◌∷◌, [], true, length, vec_capacity, IfOk};
ghost use Rattle.std.specs.List.{AllByRecursion};
ghost use Rattle.jfs_bmap.specs.States.{Owned, AreReserved, put_state, released};
ghost use Rattle.jfs_logfmt.specs.Written.{Fits};
ghost use Rattle.jfs_logpages.specs.Records.{log_text, ends_of};
ghost use Rattle.jfs_logpages.specs.Ring.{ends_with};
ghost use Rattle.jfs_records.specs.Records.{noted, records_of};
ghost use Rattle.jfs_records.specs.Entries.{entry as item_of, item_records, item_size};
ghost use Rattle.jfs_volume.specs.Room.{has_room};
ghost use Rattle.jfs_volume.specs.Runs.{taken_in, freed_in, pages_freed};
ghost use Rattle.jfs_volume.specs.Text.{text_in};

use crate::runs::{freed_pages, freed_runs, taken_runs};
use crate::waiting::WaitingText;
use jfs_bits::PxdList;
use jfs_bmap::BlockMap;
use jfs_halves::FreedPage;
use jfs_logpages::GroupText;
use jfs_plain::Entry;
use jfs_ranges::Edit;
use jfs_records::{Note, entry_text};
use std::alloc::{AllocError, Global};

/// What an entry adds to the lists of a volume: its records as they will stand behind all that waits, the pages that it frees, and the runs of blocks that it takes and frees.
#[derive(Drop)]
pub struct Draft {
    pub(crate) text: GroupText,
    pub(crate) pages: Vec<FreedPage>,
    pub(crate) taken: PxdList,
    pub(crate) freed: PxdList,
}

/// What the entry with a number adds, whose records begin at a position of the log. `Err` is want of memory.
pub(crate) fn make_draft(
    alloc: Global,
    edits: &[Edit],
    notes: &[Note],
    ring: u32,
    number: u64,
    at: u64,
) -> Result<Draft, AllocError>
    requires noted { length edits.now ≡ length notes.now }
    requires ring { (0 < ring) × (ring < 2 ^ 16) }
    requires at { at < 2 ^ 60 }
    requires number { number < 2 ^ 32 }
    requires fits { AllByRecursion Fits (records_of (noted edits.now notes.now)) }
    requires small { item_size (item_of number (noted edits.now notes.now)) < 2 ^ 31 }
    ensures text { IfOk result (λ d. d.text.bytes.items ≡ log_text (item_records ring at (item_of number (noted edits.now notes.now)))) }
    ensures ends { IfOk result (λ d. d.text.ends.items ≡ ends_of 0 (item_records ring at (item_of number (noted edits.now notes.now)))) }
    ensures last { IfOk result (λ d. d.text.last ≡ number) }
    ensures pages { IfOk result (λ d. d.pages.items ≡ pages_freed number edits.now) }
    ensures taken { IfOk result (λ d. d.taken ≡ taken_in edits.now) }
    ensures freed { IfOk result (λ d. d.freed ≡ freed_in edits.now) }
{
    Ok(Draft {
        text: entry_text(alloc, edits, notes, ring, number as u32, at, number)?,
        pages: freed_pages(alloc, edits, number)?,
        taken: taken_runs(alloc, edits)?,
        freed: freed_runs(alloc, edits)?,
    })
}

/// The blocks that an entry takes have owners, and those that it frees are busy for it. It takes no memory.
pub(crate) fn take_runs(blocks: &mut BlockMap, draft: &Draft, number: u64)
    requires reserved { AreReserved blocks.old draft.now.taken }
    requires spare { length draft.now.freed ≤ blocks.old.spare }
    ensures { blocks.new ≡ released draft.now.freed number (put_state Owned draft.now.taken blocks.old) }
{
    blocks.own(&draft.taken);
    blocks.release(&draft.freed, number);
}

/// Adds to the lists what an entry adds, within room that was made. It takes no memory.
pub(crate) fn add(
    text: &mut WaitingText,
    pages: &mut Vec<FreedPage>,
    entries: &mut Vec<Entry>,
    draft: &Draft,
    entry: Entry,
)
    requires bytes { length text.old.text.bytes.items + length draft.now.text.bytes.items ≤ vec_capacity text.old.text.bytes }
    requires ends { length text.old.text.ends.items + length draft.now.text.ends.items ≤ vec_capacity text.old.text.ends }
    requires pages { length pages.old.items + length draft.now.pages.items ≤ vec_capacity pages.old }
    requires entries { length entries.old.items + 1 ≤ vec_capacity entries.old }
    requires room { has_room (text_in text.old) (length draft.now.text.bytes.items) ≡ true }
    ensures text { text_in text.new ≡ record (text_in text.old) {
      bytes = text.old.text.bytes.items ++ draft.now.text.bytes.items;
      ends = ends_with (length text.old.text.bytes.items) text.old.text.ends.items draft.now.text.ends.items;
      last = draft.now.text.last;
    } }
    ensures pages { pages.new.items ≡ pages.old.items ++ draft.now.pages.items }
    ensures entries { entries.new.items ≡ entries.old.items ++ entry ∷ [] }
{
    text.join(&draft.text);
    match pages.extend_from_slice(&draft.pages) {
        Ok(()) => {}
        Err(_) => unreachable!(),
    }
    match entries.push(entry) {
        Ok(()) => {}
        Err(_) => unreachable!(),
    }
}
