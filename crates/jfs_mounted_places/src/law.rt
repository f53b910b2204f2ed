//! What holds of a volume that was just mounted.

ghost use Rattle.jfs_mounted_places.specs.Places.{FitLaw, KnownLaw};
ghost use Rattle.jfs_mounted_places.specs.Mounted.{MountedLaw};

/// The numbers of a superblock that is accepted have a place on the pages of the maps.
pub fn accepted_volumes_fit_their_maps()
    ensures { FitLaw }
{}

/// Where all is known of the maps' files and neither map has changed, a consistent volume is the one that its pages spell, and both files are whole and have each of their pages, in the places that are known.
pub fn known_files_stand_in_places()
    ensures { KnownLaw }
{}

/// So a volume that was just mounted is held, where the maps' pages that were found are of bytes, and the bits past the volume's end are set. Of what else stands on them nothing is asked.
pub fn mounted_volumes_are_held()
    ensures { MountedLaw }
{}
