//! What holds of the transaction of a rename.

ghost use Rattle.jfs_moves_logged.specs.Calls.{RenameLaw};

/// A rename logs what matters: within a directory or from one to another, where nothing had the name, and where it was a file's or an empty directory's.
pub fn renames_are_logged()
    ensures { RenameLaw }
{}
