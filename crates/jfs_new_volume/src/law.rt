//! The law of new volumes.

ghost use Rattle.jfs_new_volume.specs.Law.{NewVolumeLaw, NewTreeLaw, NewRoomLaw};

/// What `format` makes has four objects, of which inode 2 is an empty directory, and maps that agree with them.
pub fn new_volume_is_sound()
    ensures { NewVolumeLaw }
{}

/// What `format` makes is consistent, and its tree is that of `PlainTree::new`.
pub fn new_volume_has_the_new_tree()
    ensures { NewTreeLaw }
{}

/// What `format` makes has room in all blocks behind its areas, and inode 4 for the first object.
pub fn new_volume_has_room()
    ensures { NewRoomLaw }
{}
