//! What a new volume means: its objects, and that its maps agree with them.
#![tactic(auto)]

mod law;

pub use law::{new_volume_has_room, new_volume_has_the_new_tree, new_volume_is_sound};
