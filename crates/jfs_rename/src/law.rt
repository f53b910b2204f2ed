//! What the transactions of a rename do to a consistent volume.

ghost use Rattle.jfs_rename.specs.Done.{MoveLaw, ReplaceLaw};

/// On a consistent volume where nothing bars it, the transaction of `move_to_free`, by blocks without owners, takes the plain step and leaves the volume consistent, with the plain tree: for files and directories, in one directory or between two.
pub fn moves_take_the_plain_step()
    ensures { MoveLaw }
{}

/// The same of the transaction of `move_over`: what the other object had is free where it goes.
pub fn replacements_take_the_plain_step()
    ensures { ReplaceLaw }
{}
