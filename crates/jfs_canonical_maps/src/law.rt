//! What holds of images with canonical map pages.

ghost use Rattle.jfs_canonical_maps.specs.Places.{OwnPlacesLaw};
ghost use Rattle.jfs_canonical_maps.specs.Laws.{MapPageLaw, FollowLaw, CoreLaw, OneLaw};

/// On a volume whose maps agree each page of both maps' files has a block of its own.
pub fn agreeing_volumes_have_own_places()
    ensures { OwnPlacesLaw }
{}

/// For whatever the maps keep, as far as it fits their fields, there is a canonical page in each place of a map: the bytes that a function gives.
pub fn canonical_map_pages_are_there()
    ensures { MapPageLaw }
{}

/// For each image whose map pages are bytes there is one with canonical map pages; one follows each entry that takes no block and no place past the volume's end; and one is what redo of such entries leaves.
pub fn entries_have_images()
    ensures { FollowLaw }
{}

/// Each entry of a sound core that takes no block and no place past the volume's end has an image.
pub fn entries_of_cores_have_images()
    ensures { CoreLaw }
{}

/// No other image follows: each one is given by its entry.
pub fn images_are_one()
    ensures { OneLaw }
{}
