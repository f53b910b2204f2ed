//! What holds of the pages of a volume's maps, whatever a crash leaves of them.

ghost use Rattle.jfs_left_maps.specs.Items.{FoursLaw, ItemsLaw};
ghost use Rattle.jfs_left_maps.specs.Sizes.{SizesLaw};

/// The pages of both maps say how many blocks and inode allocation groups there are, and the bits of blocks past the volume's end are set, at each moment and after each crash.
pub fn maps_say_their_sizes()
    ensures { SizesLaw }
{}

/// What a crash leaves of an item of the maps is what it was after some entry, and redo of a window gives what it is after the window's last.
pub fn items_are_of_the_history()
    ensures { ItemsLaw }
{}

/// Each inode extent that is there has four blocks, after each entry.
pub fn extents_have_four_blocks()
    ensures { FoursLaw }
{}
