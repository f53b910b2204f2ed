//! What holds of a mount.

ghost use Rattle.jfs_mounted_held.specs.Mounted.{MountedLaw};

/// The volume of a mount is held, where the image is consistent, no tree of the maps' files and of the bad blocks' breaks a rule, and the maps' pages are canonical.
pub fn mounts_are_held()
    ensures { MountedLaw }
{}
