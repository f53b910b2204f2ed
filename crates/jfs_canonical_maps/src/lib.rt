//! An image with canonical map pages follows each entry of a volume, and it is one. Definitions and laws alone: no call stands on them yet.
#![tactic(auto)]

mod law;

pub use law::{
    agreeing_volumes_have_own_places, canonical_map_pages_are_there, entries_have_images,
    entries_of_cores_have_images, images_are_one,
};
