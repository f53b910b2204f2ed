//! The block map of a volume: which blocks have owners, which are reserved, and which are busy.
#![tactic(auto)]

mod block_map;
mod disown;
mod entries;
mod freed;
mod group;
mod law;
mod map_file;
mod map_pages;
mod owned_map;
mod page_of_set;
mod release;
mod reserve;
mod reserve_each;
mod reserved;
mod settle;

pub use block_map::BlockMap;
pub use group::{greatest_run_under, map_numbers};
pub use law::{
    map_pages_agree, only_their_pages_change, owners_change, root_is_greatest_run,
    roots_make_level_zero,
};
pub use map_file::write_unused;
pub use owned_map::OwnedMap;
pub use reserve::{NoSpace, ReserveError};
