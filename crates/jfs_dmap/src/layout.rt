//! Where the parts of a dmap page stand. (JFS Layout, dmap_t.)

/// The number of free blocks.
pub const FREE: usize = 4;

/// The tree, and what stands behind it.
pub const TREE: usize = 33;

pub const TREE_END: usize = 374;

/// The working map, of which the tree and the counts tell.
pub const WORKING_MAP: usize = 2048;

/// The persistent map; it ends the page.
pub const PERSISTENT_MAP: usize = 3072;
