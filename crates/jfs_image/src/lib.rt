//! The file tree and the room of an image, computed plainly from its pages.
#![tactic(auto)]

mod area;
mod content;
mod held;
mod inode;
mod judged;
mod node;
mod open;
mod opened;
mod room;
mod space;
mod standing;
mod tallied;
mod tally;
mod target;
mod tree;
mod view;

pub use room::{Room, room_of};
pub use tree::tree_of;
pub use view::ListView;
