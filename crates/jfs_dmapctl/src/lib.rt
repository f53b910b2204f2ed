//! Control pages of the block map, kept canonical in place.
#![tactic(auto)]

mod change;
mod law;
mod layout;
mod map_control;
mod page;
mod part;
mod read;

pub use change::{ctl_find, ctl_set};
pub use law::controls_agree;
pub use map_control::{MapControl, read_map_control, write_map_control};
pub use page::ctl_canonical;
pub use read::ctl_root;
