//! What holds of the transactions of write and fill.

ghost use Rattle.jfs_writes_logged.specs.Calls.{WriteLaw};

/// A write logs what matters, once its data is in the file's own blocks and in blocks that weren't in use; and so does a fill.
pub fn writes_of_files_are_logged()
    ensures { WriteLaw }
{}
