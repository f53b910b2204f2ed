//! What a mount accepts has its maps in places of their own, which fit, and is a volume that is held from the first moment on. Definitions and laws alone.
#![tactic(auto)]

mod law;

pub use law::{
    accepted_volumes_fit_their_maps, known_files_stand_in_places, mounted_volumes_are_held,
};
