//! What is known of a volume's maps from its mount on, and what its pages mean at the end.

ghost use Rattle.jfs_unmount.specs.Laws.{MountLaw, SettledLaw};
ghost use Rattle.jfs_unmount.specs.Synced.{StillKnownLaw};

/// With the maps that a mount finds of a consistent image, all is known of their files.
pub fn mounts_know_the_files_of_maps()
    ensures { MountLaw }
{}

/// All is known of them behind a syncpoint, also behind one that failed.
pub fn syncpoints_leave_what_is_known()
    ensures { StillKnownLaw }
{}

/// Where the pages of a mounted volume show its maps, these pages alone are a consistent image with its tree, whatever the superblock's page has.
pub fn settled_pages_have_the_tree()
    ensures { SettledLaw }
{}
