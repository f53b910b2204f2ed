//! What a volume means: its file tree, its room, and when it is consistent.
#![tactic(auto)]

mod law;

pub use law::{
    calls_keep_trees_consistent, data_leaves_nodes, free_blocks_are_unused, fresh_numbers_are_free,
    inode_extent_leaves_the_tree, new_trees_are_consistent, nodes_are_in_use, one_node_goes,
    one_node_is_set,
};

pub mod dtree {
    //! Passed on from `jfs_dtree`.

    pub use jfs_dtree::{DtError, add, find, is_deep, list, remove};
}

pub mod plain {
    //! Passed on from `jfs_plain`.

    pub use jfs_plain::Refusal;
}

pub mod xtree {
    //! Passed on from `jfs_xtree`.

    pub use jfs_xtree::{XtError, cut_to, extents};
}
