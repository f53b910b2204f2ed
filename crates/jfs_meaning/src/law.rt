//! Laws of a volume's tree.

ghost use Rattle.jfs_meaning.specs.Laws.{SetTreeLaw, DropTreeLaw, ExtentTreeLaw, DataTreeLaw, FreeLaw, NewTreeLaw, StepLaw, NodesLaw, FreshLaw};

/// Setting an object, or making one, changes its node and its contents alone.
pub fn one_node_is_set()
    ensures { SetTreeLaw }
{}

/// Dropping an object drops its node and its contents alone.
pub fn one_node_goes()
    ensures { DropTreeLaw }
{}

/// An inode extent that is added leaves the tree.
pub fn inode_extent_leaves_the_tree()
    ensures { ExtentTreeLaw }
{}

/// Writing a file's data in place, or blocks without an owner, leaves all nodes and all other contents.
pub fn data_leaves_nodes()
    ensures { DataTreeLaw }
{}

/// Where maps agree, the free blocks of a volume's room are those that aren't in use.
pub fn free_blocks_are_unused()
    ensures { FreeLaw }
{}

/// The tree of a new volume is consistent.
pub fn new_trees_are_consistent()
    ensures { NewTreeLaw }
{}

/// Where maps agree and no tree breaks a rule, the nodes of a volume's tree are its inodes in use.
pub fn nodes_are_in_use()
    ensures { NodesLaw }
{}

/// The number that the room of a consistent volume gives a new object is free, and isn't reserved.
pub fn fresh_numbers_are_free()
    ensures { FreshLaw }
{}

/// Every call keeps a tree consistent, whatever it is answered.
pub fn calls_keep_trees_consistent()
    ensures { StepLaw }
{}
