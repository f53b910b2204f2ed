//! What holds of a volume that was redone.

ghost use Rattle.jfs_redone_volumes.specs.Redone.{RedoneLaw, SuperblockLaw};

/// The pages of a volume that redo left, but for the superblock's, are those that the core of log redo makes of what a crash left.
pub fn redo_leaves_what_the_core_redoes()
    ensures { RedoneLaw }
{}

/// The superblock's page says nothing of a volume's sets, places, objects and owners: whatever stands there, it is the same volume.
pub fn superblocks_leave_volumes()
    ensures { SuperblockLaw }
{}
