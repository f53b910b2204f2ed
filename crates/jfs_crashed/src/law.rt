//! What holds of each volume that a crash left.

ghost use Rattle.jfs_crashed.specs.Crashed.{OwnLogLaw};

/// Of a volume that was mounted where its maps agreed, and after each entry still agree, whatever a crash leaves of it, and for each log image: the fixed areas name each block of the maps' files once, no inode extent has one of their pages, and the log keeps off them.
/// So the maps stand apart from all that redo changes, and a redo that is stopped is made again. It has the premises that no entry has a line of a page of the maps, and that the inode map's control page still tells as many pages.
pub fn own_logs_keep_off_the_maps()
    ensures { OwnLogLaw }
{}
