//! Pages of directory trees, in place. (JFS Layout, dtree: `dtpage_t`, `dtroot_t`.)
#![tactic(auto)]

mod check;
mod edit;
mod entry;
mod find;
mod follow;
mod head;
mod left;
mod link;
mod make;
mod order;
mod put;
mod read;
mod release;
mod table;
mod write;

pub use check::dt_check;
pub use edit::{dt_insert, dt_remove, dt_set_inode};
pub use entry::{count_of, dt_child, dt_inode, dt_name, free_of, is_leaf};
pub use find::dt_find;
pub use head::{BadDt, DtEntry, DtForm, DtHead, PageFull, Place};
pub use link::dt_link;
pub use make::dt_new;
pub use read::dt_slots;
