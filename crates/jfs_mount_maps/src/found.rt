//! What is found of a volume's maps, or why nothing is.

ghost use Rattle.std.specs.Prelude.{◌≡◌};

use jfs_bmap::BlockMap;
use jfs_disk::Fault;
use jfs_imap::InodeMap;
use jfs_map_files::MapFiles;
use jfs_sets::mount_rules::BadMount;

/// The maps of a volume that is to be mounted, as file calls keep them in memory: no block is reserved or busy.
#[derive(Drop)]
pub struct FoundMaps {
    pub blocks: BlockMap,
    pub inodes: InodeMap,
    /// The most bytes that a file may have, by the length of the log.
    pub file_limit: u64,
    /// Where the pages of both maps' files lie; both maps are as these pages are.
    pub files: MapFiles,
}

/// Why no maps were found.
#[derive(Clone, Copy, PartialEq, Eq, Debug)]
pub enum MapsError {
    /// A rule of a mount is broken, the first one.
    BadImage(BadMount),
    /// The device failed; the fault names its part and its count now.
    Read(Fault),
    /// Memory ran out.
    Memory,
}
