//! What a mount reads of a volume.

ghost use Rattle.jfs_mount.specs.Files.{LieWithin};

use jfs_bits::XadList;
use jfs_reader::InodeMap;

/// The files of the two maps, of a volume whose file system part has so many blocks. No extent of theirs names a block behind it.
#[derive(Drop)]
pub struct Maps {
    /// The number of blocks of the file system part.
    pub blocks: u32,
    /// The extents of the block map's file, inode 2 of the aggregate.
    pub block_map: XadList,
    /// The inode map.
    pub inodes: InodeMap,
    ghost map_lies: { LieWithin blocks block_map },
    ghost inodes_lie: { LieWithin blocks inodes.extents },
}

/// A volume that breaks no rule of a mount.
#[derive(Drop)]
pub struct Mounted {
    /// The files of the two maps.
    pub maps: Maps,
    /// The first block of each inode extent that is there; each IAG has 128 places.
    pub places: Vec<Option<u32>>,
}
