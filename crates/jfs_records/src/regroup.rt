//! The records of a transaction.

ghost use Rattle.std.specs.Prelude.{◌≡◌, ◌<◌, ◌≤◌, ◌^◌, ◌++◌, ◌∷◌, true, [], List, length, OnOk, IfOk};
ghost use Rattle.jfs_logfmt.specs.declared.log_record.Record.{Record as LogRecord};
ghost use Rattle.jfs_logfmt.specs.declared.log_record.Record.TheVariants.{Update};
ghost use Rattle.jfs_records.specs.Records.{noted, record_for, records_of as records_of_tx, is_alike as is_record_alike, join as join_record};
ghost use Rattle.jfs_records.specs.Steps.{IsOpen, IsGrouped};

use crate::alike::data_size;
use crate::note::{Note, note_at};
use crate::open::Open;
use jfs_bits::{Blob, LineRange, Pxd, PxdList, Ranges};
use jfs_logfmt::{PageType, Record};
use jfs_ranges::Edit;
use std::alloc::{AllocError, Global};
use std::mem;

/// A range of lines, with a copy of its bytes.
fn range_of(alloc: Global, first: u32, bytes: &Blob) -> Result<LineRange, AllocError>
    ensures { IfOk result (λ range. range ≡ record { first = first; bytes = bytes.now }) }
{
    let mut copy = Blob::new(alloc);
    copy.extend_from_slice(bytes.as_slice())?;
    Ok(LineRange { first, bytes: copy })
}

/// The record of a list with one run.
fn update_of(alloc_list: Global, note: Note, alloc: bool, run: Pxd) -> Result<Record, AllocError>
    ensures { IfOk result (λ r. r ≡ Update 0 0 note.fileset note.inode alloc (run ∷ [])) }
{
    let mut list = PxdList::new(alloc_list);
    list.push(run)?;
    Ok(Record::Update {
        tid: 0,
        back: 0,
        fileset: note.fileset,
        inode: note.inode,
        alloc,
        list,
    })
}

/// The record of one edit.
fn record_of(alloc: Global, edit: &Edit, note: Note) -> Result<Record, AllocError>
    ensures { IfOk result (λ r. r ≡ record_for note edit.now) }
{
    match edit {
        Edit::Lines {
            page,
            kind,
            first,
            bytes,
        } => {
            let mut ranges = Ranges::new(alloc);
            ranges.push(range_of(alloc, *first, bytes)?)?;
            let len = PageType::new(*kind, note.new_page).blocks();
            Ok(Record::Redo {
                tid: 0,
                back: 0,
                fileset: note.fileset,
                inode: note.inode,
                kind: *kind,
                new_page: note.new_page,
                at: Pxd {
                    len,
                    addr: u64::from(*page),
                },
                ranges,
            })
        }
        Edit::NoRedo { page } => Ok(Record::NoRedo {
            tid: 0,
            back: 0,
            fileset: note.fileset,
            inode: note.inode,
            kind: note.kind,
            at: Pxd {
                len: 1,
                addr: u64::from(*page),
            },
        }),
        Edit::Alloc(run) => update_of(alloc, note, true, *run),
        Edit::Free(run) => update_of(alloc, note, false, *run),
    }
}

/// Puts an edit into a record of the same page or map.
fn join(alloc: Global, record: &mut Record, edit: &Edit, note: Note) -> Result<(), AllocError>
    requires alike { is_record_alike record.old (record_for note edit.now) ≡ true }
    ensures { OnOk result (record.new ≡ join_record record.old (record_for note edit.now)) }
{
    match record {
        Record::Redo { ranges, .. } => match edit {
            Edit::Lines { first, bytes, .. } => ranges.push(range_of(alloc, *first, bytes)?),
            Edit::NoRedo { .. } | Edit::Alloc(_) | Edit::Free(_) => Ok(()),
        },
        Record::Update { list, .. } => match edit {
            Edit::Alloc(run) => list.push(*run),
            Edit::Free(run) => list.push(*run),
            Edit::Lines { .. } | Edit::NoRedo { .. } => Ok(()),
        },
        Record::NoRedo { .. } | Record::Commit { .. } | Record::SyncPt { .. } => Ok(()),
    }
}

/// The records so far, and the last one, which is still open.
#[derive(Drop)]
struct Grouping<'a> {
    closed: Vec<Record>,
    last: Record,
    open: Open<'a>,
}

impl<'a> Grouping<'a> {
    /// Takes one edit more. `Err` is want of memory.
    fn add(&mut self, alloc: Global, edit: &'a Edit, note: Note) -> Result<(), AllocError>
        requires { IsOpen self.old.open.first.now self.old.open.owner self.old.open.bytes self.old.last }
        ensures { OnOk result ((rest whole : List LogRecord) → IsGrouped self.old.open.first.now self.old.open.owner self.old.open.bytes self.old.closed.items self.old.last (record_for note edit.now ∷ rest) whole
            → IsGrouped self.new.open.first.now self.new.open.owner self.new.open.bytes self.new.closed.items self.new.last rest whole) }
    {
        if self.open.joins(edit, note) {
            self.open.bytes += data_size(edit);
            join(alloc, &mut self.last, edit, note)
        } else {
            let next = record_of(alloc, edit, note)?;
            self.open = Open::new(edit, note);
            self.closed.push(mem::replace(&mut self.last, next))?;
            Ok(())
        }
    }
}

/// The records of a transaction, without the number of its entry and without addresses: ranges of one page in one
/// record, blocks of one object in lists of at most 8,191 runs, in the edits' order.
///
/// # Errors
///
/// Want of memory alone.
pub fn records_of(alloc: Global, edits: &[Edit], notes: &[Note]) -> Result<Vec<Record>, AllocError>
    requires noted { length edits.now ≡ length notes.now }
    ensures { IfOk result (λ records. records.items ≡ records_of_tx (noted edits.now notes.now)) }
{
    if edits.is_empty() {
        return Ok(Vec::new(alloc));
    }
    let first = &edits[0];
    let owner = note_at(notes, 0);
    let mut grouping = Grouping {
        closed: Vec::new(alloc),
        last: record_of(alloc, first, owner)?,
        open: Open::new(first, owner),
    };
    for i in 1..edits.len() {
        let note = note_at(notes, i);
        grouping.add(alloc, &edits[i], note)?;
    }
    let Grouping { closed, last, .. } = grouping;
    let mut records = closed;
    records.push(last)?;
    Ok(records)
}
