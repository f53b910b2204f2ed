//! What is true of every text of the log.

ghost use Rattle.jfs_logfmt.specs.Text.{SpellsOneAtMost};
ghost use Rattle.jfs_logfmt.specs.Written.{SpellsWritten, HasSize};

/// A text spells at most one record, so that all readings of the same bytes are of the same records.
pub fn spells_one_at_most()
    ensures { SpellsOneAtMost }
{}

/// The text that is written of a record spells it, and has 36 bytes more than the record's data.
pub fn written_is_spelled()
    ensures spells { SpellsWritten }
    ensures size { HasSize }
{}
