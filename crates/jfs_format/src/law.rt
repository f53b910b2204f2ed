//! What the readers of a volume say of a new one.

ghost use Rattle.jfs_format.specs.Laws.{SuperIsAccepted, InodesAreAccepted, FreeAreCounted, RootsRead};

/// The superblock of a new volume breaks no rule on its disk.
pub fn new_superblock_is_accepted()
    ensures { SuperIsAccepted }
{}

/// The inodes 0 to 3 of a new volume's fileset break no rule.
pub fn new_inodes_are_accepted()
    ensures { InodesAreAccepted }
{}

/// The numbers of free blocks and of free inodes of a new volume are those of its sets.
pub fn free_are_counted()
    ensures { FreeAreCounted }
{}

/// The roots of extent trees break no rule of their form, and have the extents that were asked for.
pub fn roots_read()
    ensures { RootsRead }
{}
