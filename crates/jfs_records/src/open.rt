//! The record that the next edit may still join.

ghost use Rattle.std.specs.Prelude.{◌≡◌, ◌<◌, ◌+◌, ◌^◌, true};
ghost use Rattle.jfs_logfmt.specs.declared.log_record.Record.{Record as LogRecord};
ghost use Rattle.jfs_records.specs.Records.{record_for, joins as joins_record};
ghost use Rattle.jfs_records.specs.Sizes.{edit_bytes};
ghost use Rattle.jfs_records.specs.Steps.{IsOpen};

use crate::alike::{data_size, is_alike};
use crate::note::Note;
use jfs_ranges::Edit;

/// The record that the next edit may still join: its first edit, whose note it has, and the bytes of its data.
#[derive(Clone, Copy)]
pub struct Open<'a> {
    pub first: &'a Edit,
    pub owner: Note,
    pub bytes: usize,
}

impl<'a> Open<'a> {
    /// A record of one edit.
    pub fn new(first: &'a Edit, owner: Note) -> Open<'a>
        ensures { IsOpen result.first.now result.owner result.bytes (record_for owner first.now) }
    {
        Open {
            first,
            owner,
            bytes: data_size(first),
        }
    }

    /// Whether the edit joins the record.
    pub fn joins(self, edit: &Edit, note: Note) -> bool
        ensures joins { (r : LogRecord) → IsOpen self.entry.first.now self.entry.owner self.entry.bytes r → result ≡ joins_record r (record_for note edit.now) }
        ensures small { result ≡ true → self.entry.bytes + edit_bytes edit.now < 2 ^ 16 }
    {
        self.bytes.saturating_add(data_size(edit)) < 65_536
            && is_alike(self.first, self.owner, edit, note)
    }
}
