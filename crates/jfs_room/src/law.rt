//! How the room of a volume follows from what is kept in memory.

ghost use Rattle.jfs_room.specs.Laws.{FreeLaw, RunLaw, FreshLaw, AddedLaw, DeepLaw, HeldLaw, RoomLaw};

/// Where maps agree, the free blocks of the room are as many as `BlockMap::unowned` counts.
pub fn unowned_blocks_are_free()
    ensures { FreeLaw }
{}

/// Where maps agree, a run that the block map has once all busy blocks are settled is there for an inode extent; where no block is reserved, there is one exactly where `BlockMap::has_four_once_settled` says so.
pub fn runs_are_free_once_settled()
    ensures { RunLaw }
{}

/// Where maps agree, the inode that a new object gets is what the inode map picks: the free number; or the first one of the place that needs an extent, if there is a run for it.
pub fn fresh_inode_is_picked()
    ensures { FreshLaw }
{}

/// Once the inode map has the extent that a pick needs, the number that it picks is the one that the room gave before: the first of that extent.
pub fn added_extents_bring_the_fresh_inode()
    ensures { AddedLaw }
{}

/// A directory is too deep for a name where the tree below its root is, as the call `is_deep` of directories tells; what isn't a directory never is.
pub fn directories_are_deep_by_their_roots()
    ensures { DeepLaw }
{}

/// Whether the directory that a walk gave is too deep for a name is told by the root in its inode.
pub fn held_directories_are_deep_by_their_roots()
    ensures { HeldLaw }
{}

/// All of the room at once, on a volume whose maps agree and where no block is reserved.
pub fn room_is_known_by_maps()
    ensures { RoomLaw }
{}
