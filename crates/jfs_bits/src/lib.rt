//! Fields in pages: numbers, bits, descriptors, flags, lists, and the names of the format's rules.
#![tactic(auto)]

mod bits;
mod descriptor;
mod extent;
mod field;
mod flags;
mod list;
mod rule;

pub use bits::{bit, clear_run, lowest_run, max_bud, set_run};
pub use descriptor::{Moment, Pxd, get_moment, get_pxd, put_moment, put_pxd};
pub use extent::{Dxd, Xad, XadList, get_dxd, get_xad, put_dxd, put_xad};
pub use field::{
    get_array, get_u8, get_u16, get_u32, get_u64, put_array, put_u8, put_u16, put_u32, put_u64,
};
pub use flags::SuperFlags;
pub use list::{Blob, LineRange, PxdList, Ranges, Sequence};
pub use rule::{PageKind, Rule, require};
