//! What holds of these bytes.

ghost use Rattle.jfs_map_bytes.specs.Laws.{BlockMapLaw, InodeMapLaw};

/// For each set of blocks there is a canonical page of each number of the block map's file: the bytes that a function gives. The volume's sizes have to fit the fields.
pub fn block_map_pages_are_there()
    ensures { BlockMapLaw }
{}

/// For each set of inodes and extents there is a canonical page of each number of the inode map's file, its list words among it: the bytes that a function gives. The map's sizes have to fit the fields.
pub fn inode_map_pages_are_there()
    ensures { InodeMapLaw }
{}
