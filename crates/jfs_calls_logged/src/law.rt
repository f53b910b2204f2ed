//! What holds of the transaction of a file call.

ghost use Rattle.jfs_calls_logged.specs.Calls.{ModeLaw};
ghost use Rattle.jfs_calls_logged.specs.Found.{FoundLaw};

/// On a consistent volume a path that leads somewhere leads to an object of its tree, whose inode stands in its place; and so does a name, which stands in a directory.
pub fn paths_lead_to_objects()
    ensures { FoundLaw }
{}

/// The change of a mode logs what matters.
pub fn changes_of_modes_are_logged()
    ensures { ModeLaw }
{}
