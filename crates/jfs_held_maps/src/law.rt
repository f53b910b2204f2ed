//! What holds of the maps of a mounted volume.

ghost use Rattle.jfs_held_maps.specs.Maps.{ChangeLaw, MountedLaw, ReplaceLaw, RunLaw};
ghost use Rattle.jfs_held_maps.specs.Places.{FirstLaw, FixedLaw, PlacesLaw};

/// A volume whose maps broke no rule when it was mounted has them from then on.
pub fn mounted_volumes_have_maps()
    ensures { MountedLaw }
{}

/// Each change that a held volume may make keeps them.
pub fn changes_keep_maps()
    ensures { ChangeLaw }
{}

/// So does a run of changes.
pub fn runs_keep_maps()
    ensures { RunLaw }
{}

/// The files of both maps lie where they did, as long as the other pages of the fixed areas stay.
pub fn files_stay_in_their_places()
    ensures { PlacesLaw }
{}

/// Other volumes of the same halves and the same core have them too.
pub fn volumes_leave_maps()
    ensures { ReplaceLaw }
{}

/// The first 16 pages are pages of the fixed areas beside the maps.
pub fn first_pages_are_fixed()
    ensures { FirstLaw }
{}

/// Whatever a crash leaves of a held volume has such pages as they were mounted.
pub fn crashes_leave_fixed_pages()
    ensures { FixedLaw }
{}
