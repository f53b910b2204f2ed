//! What holds of each volume.

ghost use Rattle.jfs_face.specs.Laws.{FaceLaw};
ghost use Rattle.jfs_face.specs.Marks.{MarksLaw};
ghost use Rattle.jfs_face.specs.Mounted.{MountedLaw};
ghost use Rattle.jfs_face.specs.Recovered.{RecoveredLaw};
ghost use Rattle.jfs_face.specs.Redo.{RedoLaw};

/// A volume whose maps stand in its fixed areas keeps all that the core of log redo asks of it, whatever its pages hold and whichever map pages an entry is told to change.
pub fn volumes_keep_the_laws()
    ensures { FaceLaw }
{}

/// By the places that an image gives, its maps stand in its fixed areas, and each block has the owner that the image gives it.
pub fn mounted_volumes_are_seen_as_they_are()
    ensures { MountedLaw }
{}

/// A page of the maps changes with an entry only where it tells of a block that the entry takes or frees, of an inode that it takes or puts back, of an extent, or of a list that an inode allocation group joins or leaves.
pub fn other_map_pages_stay()
    ensures { MarksLaw }
{}

/// For every list of allowed steps from a sound core, whatever a crash then leaves, and for each log image: redo finds a front of the history with all that was acknowledged before the steps,
/// and the volume that it leaves has the blocks and inodes in use, the objects and the owners of the one after this front; its maps agree with its inodes.
pub fn volumes_survive_crashes()
    ensures { RecoveredLaw }
{}

/// Pages that are redone by all edits in a row, and map pages that follow from what these edits leave of the maps, are redo of the transactions; and what they leave of the maps is what a
/// volume has in use after them, blocks and inode extents.
pub fn redo_goes_edit_by_edit()
    ensures { RedoLaw }
{}
