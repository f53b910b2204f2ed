//! What holds of the transactions of file calls.

ghost use Rattle.jfs_files_logged.specs.Calls.{FilesLaw};

/// Each file call logs what matters where it is done, once its data is written.
pub fn changes_of_files_are_logged()
    ensures { FilesLaw }
{}
