//! Pages of the block map and of the inode map, compared with what the owners of blocks and the inodes in use say.
#![tactic(auto)]

mod block_map;
mod block_page;
mod compare;
mod iag_page;
mod inode_map;

pub use block_map::check_block_map;
pub use block_page::is_canonical;
pub use iag_page::{IagReport, judge_iag};
pub use inode_map::{Control, check_inode_map};
