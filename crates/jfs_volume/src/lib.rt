//! A mounted volume: its pages behind a cache, its maps, and what it has done since the mount. Each call says what it changes of the volume's half of a history.
#![tactic(auto)]

mod append;
mod asking;
mod calling;
mod data;
mod draft;
mod entries;
mod front;
mod give_back;
mod gone;
mod group;
mod home;
mod home_maps;
mod join;
mod joined;
mod marks;
mod outcome;
mod placing;
mod point;
mod ready;
mod runs;
mod settle;
mod stale;
mod start;
mod told;
mod volume;
mod waiting;
mod write;

pub use asking::Asks;
pub use calling::Called;
pub use front::Front;
pub use joined::Joined;
pub use outcome::Outcome;
pub use volume::Volume;
pub use waiting::WaitingText;
