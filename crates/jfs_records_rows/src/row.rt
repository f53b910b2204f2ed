//! Edits, what each of their records holds, and the bytes of the entry.

use jfs_bits::{Blob, PageKind, Pxd};
use jfs_logfmt::Record;
use jfs_ranges::{Edit, Tx};
use jfs_records::{Note, Notes, entry_size, records_of};
use std::alloc::{AllocError, Global};

/// Edits of one object, whose number comes first.
#[derive(Clone, Copy)]
pub enum Step {
    /// Of a page, which is new or not: its number, its kind, the first line and the number of lines.
    Lines(u32, bool, u32, PageKind, u32, u16),
    /// A page that goes.
    NoRedo(u32, u32),
    /// A block that is taken.
    Alloc(u32, u32),
    /// From a block on so many that are freed, each as a run of its own.
    Free(u32, u32, u32),
}

/// A run of one block.
fn run_at(block: u32) -> Pxd {
    Pxd {
        len: 1,
        addr: u64::from(block),
    }
}

/// Lines of nothing but sevens.
fn lines_of(
    alloc: Global,
    page: u32,
    kind: PageKind,
    first: u32,
    lines: u16,
) -> Result<Edit, AllocError> {
    let mut bytes = Blob::new(alloc);
    for _byte in 0..usize::from(lines) * kind.line_size() {
        bytes.push(7)?;
    }
    Ok(Edit::Lines {
        page,
        kind,
        first,
        bytes,
    })
}

/// Adds the edits of a step, and their notes.
fn add(alloc: Global, step: Step, edits: &mut Tx, notes: &mut Notes) -> Result<(), AllocError> {
    let (inode, new_page, count) = match step {
        Step::Lines(owner, new_page, ..) => (owner, new_page, 1),
        Step::NoRedo(owner, _) | Step::Alloc(owner, _) => (owner, false, 1),
        Step::Free(owner, _, count) => (owner, false, count),
    };
    for k in 0..count {
        edits.push(match step {
            Step::Lines(_, _, page, kind, first, lines) => {
                lines_of(alloc, page, kind, first, lines)?
            }
            Step::NoRedo(_, page) => Edit::NoRedo { page },
            Step::Alloc(_, block) => Edit::Alloc(run_at(block)),
            Step::Free(_, block, _) => Edit::Free(run_at(block.wrapping_add(k))),
        })?;
        notes.push(Note {
            fileset: 16,
            inode,
            kind: PageKind::Xtree,
            new_page,
        })?;
    }
    Ok(())
}

/// How many ranges or runs a record has.
fn held(record: &Record) -> usize {
    match record {
        Record::Redo { ranges, .. } => ranges.len(),
        Record::Update { list, .. } => list.len(),
        Record::NoRedo { .. } | Record::Commit { .. } | Record::SyncPt { .. } => 0,
    }
}

/// Whether the records hold so much.
fn hold(records: &[Record], most: &[usize]) -> bool {
    if records.len() != most.len() {
        return false;
    }
    for i in 0..records.len() {
        if held(&records[i]) != most[i] {
            return false;
        }
    }
    true
}

/// Whether the records of the steps hold so much, and the entry has so many bytes.
pub fn holds(alloc: Global, steps: &[Step], most: &[usize], size: u64) -> bool {
    let mut edits = Tx::new(alloc);
    let mut notes = Notes::new(alloc);
    for step in steps {
        match add(alloc, *step, &mut edits, &mut notes) {
            Ok(()) => {}
            Err(_) => return false,
        }
    }
    if edits.len() != notes.len() || entry_size(edits.as_slice(), notes.as_slice()) != size {
        return false;
    }
    match records_of(alloc, edits.as_slice(), notes.as_slice()) {
        Ok(records) => hold(records.as_slice(), most),
        Err(_) => false,
    }
}
