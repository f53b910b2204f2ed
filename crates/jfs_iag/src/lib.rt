//! Pages of the inode map: the page of an inode allocation group and the control page, both ways and in their canonical form.
#![tactic(auto)]

mod canonical;
mod control;
mod iag;
mod law;

pub use canonical::{
    Links, NO_EXTENT, extent_has_free, has_clear_bit, iag_canonical, iag_with_links, is_there,
};
pub use control::{InodeControl, InodeGroup, read_inode_control, write_inode_control};
pub use iag::{END, Iag, read_iag, write_iag};
pub use law::{control_pages_agree, iag_pages_agree};
