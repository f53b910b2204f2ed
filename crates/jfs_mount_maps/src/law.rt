//! What maps that were found give.

ghost use Rattle.jfs_mount_maps.specs.Maps.{MapsLaw};

/// With the maps that were found, the pages are the image's volume: its tree and its room, consistent where the image is.
pub fn found_maps_give_the_image()
    ensures { MapsLaw }
{}
