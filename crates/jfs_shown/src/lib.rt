//! The pages of both maps' files, and the maps in memory that they show: the volume that pages and maps are is the one that the pages alone spell.
#![tactic(auto)]

mod law;

pub use law::{
    canonical_pages_show_maps, changes_keep_files, changes_keep_what_is_known, files_are_framed,
    map_pages_are_apart, shown_maps_give_the_image, written_pages_show_maps,
};
