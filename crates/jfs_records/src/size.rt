//! How much text a transaction takes.

ghost use Rattle.std.specs.Prelude.{◌≡◌, ◌-◌, ◌^◌, ◌∷◌, ℕ, List, min, length};
ghost use Rattle.jfs_logfmt.specs.declared.log_record.Record.{Record as LogRecord};
ghost use Rattle.jfs_records.specs.Records.{noted, record_for};
ghost use Rattle.jfs_records.specs.Sizes.{entry_size as size_of_entry};
ghost use Rattle.jfs_records.specs.Steps.{IsMeasured};

use crate::alike::data_size;
use crate::note::{Note, note_at};
use crate::open::Open;
use jfs_ranges::Edit;

/// The bytes of a transaction's records so far, and its last record.
#[derive(Clone, Copy)]
struct Measure<'a> {
    open: Open<'a>,
    size: u64,
}

impl<'a> Measure<'a> {
    /// Counts one edit more.
    fn add(&mut self, edit: &'a Edit, note: Note)
        ensures { (rest : List LogRecord) (whole : ℕ) → IsMeasured self.old.open.first.now self.old.open.owner self.old.open.bytes self.old.size (record_for note edit.now ∷ rest) whole
            → IsMeasured self.new.open.first.now self.new.open.owner self.new.open.bytes self.new.size rest whole }
    {
        let more = data_size(edit);
        self.size = self.size.saturating_add(more as u64);
        if self.open.joins(edit, note) {
            self.open.bytes += more;
        } else {
            self.open = Open::new(edit, note);
            self.size = self.size.saturating_add(36);
        }
    }
}

/// The bytes that a transaction's records and its COMMIT take in the log, up to the greatest number. Takes no memory.
pub fn entry_size(edits: &[Edit], notes: &[Note]) -> u64
    requires noted { length edits.now ≡ length notes.now }
    ensures { result ≡ min (size_of_entry (noted edits.now notes.now)) (2 ^ 64 - 1) }
{
    if edits.is_empty() {
        return 36;
    }
    let owner = note_at(notes, 0);
    let open = Open::new(&edits[0], owner);
    let size = (open.bytes as u64).saturating_add(72);
    let mut measure = Measure { open, size };
    for i in 1..edits.len() {
        let note = note_at(notes, i);
        measure.add(&edits[i], note);
    }
    measure.size
}
