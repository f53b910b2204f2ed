//! What holds of the transactions by which a directory gains a name.

ghost use Rattle.jfs_gains_logged.specs.Calls.{GainLaw};

/// A link logs what matters, and so does a new file, directory or symbolic link, in an inode extent that is there or in a new one.
pub fn gained_names_are_logged()
    ensures { GainLaw }
{}
