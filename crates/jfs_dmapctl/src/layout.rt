//! Where the parts of a control page stand. (JFS Layout, dmapctl.)

/// The value of a wholly free leaf.
pub const WHOLE: usize = 16;

/// The tree, and what stands behind it.
pub const TREE: usize = 17;

pub const TREE_END: usize = 1382;
