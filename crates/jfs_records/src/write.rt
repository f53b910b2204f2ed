//! The text of an entry.

ghost use Rattle.std.specs.Prelude.{◌≡◌, ◌<◌, ◌≤◌, ◌+◌, ◌^◌, ◌++◌, length, OnOk, IfOk};
ghost use Rattle.std.specs.List.{AllByRecursion};
ghost use Rattle.jfs_logfmt.specs.Written.{Fits};
ghost use Rattle.jfs_logpages.specs.Back.{address_at};
ghost use Rattle.jfs_logpages.specs.Records.{sizes_of, log_text, ends_of};
ghost use Rattle.jfs_records.specs.Records.{noted, records_of as records_of_tx};
ghost use Rattle.jfs_records.specs.Entries.{stamped, chained, entry, item_records, item_size};

use crate::note::Note;
use crate::regroup::records_of;
use jfs_logfmt::Record;
use jfs_logpages::{GroupText, address};
use jfs_ranges::Edit;
use std::alloc::{AllocError, Global};

/// Sets the number of the record's entry, and the address of the record before it.
fn stamp(r: &mut Record, number: u32, before: u32)
    ensures { r.new ≡ stamped number before r.old }
{
    match r {
        Record::Redo { tid, back, .. } => {
            *tid = number;
            *back = before;
        }
        Record::NoRedo { tid, back, .. } => {
            *tid = number;
            *back = before;
        }
        Record::Update { tid, back, .. } => {
            *tid = number;
            *back = before;
        }
        Record::Commit { tid, back } => {
            *tid = number;
            *back = before;
        }
        Record::SyncPt { .. } => {}
    }
}

/// Adds the records of an entry and its COMMIT. `at` is the position where they begin, `last` the entry's number in the
/// history.
fn push_records(
    records: &mut [Record],
    ring: u32,
    number: u32,
    at: u64,
    last: u64,
    into: &mut GroupText,
) -> Result<(), AllocError>
    requires ring { (0 < ring) × (ring < 2 ^ 16) }
    requires at { at < 2 ^ 60 }
    requires fits { AllByRecursion Fits records.old }
    requires small { length into.old.bytes.items + (sizes_of records.old + 36) < 2 ^ 31 }
    ensures ends { OnOk result (into.new.ends.items ≡ into.old.ends.items ++ ends_of (length into.old.bytes.items) (chained ring number 0 at records.old)) }
    ensures text { OnOk result (into.new.bytes.items ≡ into.old.bytes.items ++ log_text (chained ring number 0 at records.old)) }
    ensures last { OnOk result (into.new.last ≡ last) }
{
    let mut back = 0;
    let start = into.bytes().len();
    for r in records.iter_mut() {
        stamp(r, number, back);
        into.push(r, last)?;
        back = address(ring, at + (into.bytes().len() - start) as u64);
    }
    into.push(&Record::Commit { tid: number, back }, last)
}

/// The text of an entry with this number, whose records begin at position `at` of a log with `ring` ring pages: its
/// records and its COMMIT. `last` is the entry's number in the history.
///
/// # Errors
///
/// Want of memory alone.
pub fn entry_text(
    alloc: Global,
    edits: &[Edit],
    notes: &[Note],
    ring: u32,
    number: u32,
    at: u64,
    last: u64,
) -> Result<GroupText, AllocError>
    requires noted { length edits.now ≡ length notes.now }
    requires ring { (0 < ring) × (ring < 2 ^ 16) }
    requires at { at < 2 ^ 60 }
    requires fits { AllByRecursion Fits (records_of_tx (noted edits.now notes.now)) }
    requires small { item_size (entry number (noted edits.now notes.now)) < 2 ^ 31 }
    ensures text { IfOk result (λ text. text.bytes.items ≡ log_text (item_records ring at (entry number (noted edits.now notes.now)))) }
    ensures ends { IfOk result (λ text. text.ends.items ≡ ends_of 0 (item_records ring at (entry number (noted edits.now notes.now)))) }
    ensures last { IfOk result (λ text. text.last ≡ last) }
{
    let mut records = records_of(alloc, edits, notes)?;
    let mut text = GroupText::new(alloc, last);
    push_records(records.as_mut_slice(), ring, number, at, last, &mut text)?;
    Ok(text)
}
