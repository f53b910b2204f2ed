//! What holds of the transactions of unlink and rmdir.

ghost use Rattle.jfs_names_logged.specs.Calls.{LossLaw};

/// An unlink logs what matters, whether its object stays or goes, and so does the removal of a directory.
pub fn lost_names_are_logged()
    ensures { LossLaw }
{}
