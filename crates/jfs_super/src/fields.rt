//! The fields of a superblock.

use jfs_bits::{Moment, Pxd, SuperFlags};
use uuid::Uuid;

/// The state of a volume, as its number stands on the disk. (JFS header, `s_state`.)
#[derive(Clone, Copy, PartialEq, Eq, Debug)]
pub struct VolumeState(pub u32);

impl VolumeState {
    /// Unmounted after its last write.
    pub const CLEAN: VolumeState = VolumeState(0);
    /// Mounted, or not unmounted since.
    pub const MOUNTED: VolumeState = VolumeState(1);
    /// Left in a state that the log can't mend.
    pub const DIRTY: VolumeState = VolumeState(2);
    /// The redo of its log failed.
    pub const REDO_FAILED: VolumeState = VolumeState(4);
    /// Being made longer.
    pub const EXTENDING: VolumeState = VolumeState(8);

    /// All of them.
    pub const KNOWN: [VolumeState; 5] = [
        VolumeState::CLEAN,
        VolumeState::MOUNTED,
        VolumeState::DIRTY,
        VolumeState::REDO_FAILED,
        VolumeState::EXTENDING,
    ];
}

/// A superblock: the fields of page 8, in their order there. (JFS header, `struct jfs_superblock`.)
#[derive(Clone, Copy, PartialEq, Eq)]
pub struct Super {
    /// The number that the letters `JFS1` make.
    pub magic: u32,
    pub version: u32,
    /// The length of the file system part in 512-byte blocks.
    pub size: u64,
    /// The size of a block in bytes, and its logarithm.
    pub bsize: u32,
    pub l2bsize: u16,
    /// The logarithm of the number of 512-byte blocks in a block.
    pub l2bfactor: u16,
    /// The size of a block of the device in bytes, and its logarithm.
    pub pbsize: u32,
    pub l2pbsize: u16,
    /// The number of blocks of an allocation group.
    pub agsize: u32,
    pub flag: SuperFlags,
    pub state: VolumeState,
    pub compress: u32,
    /// The second aggregate inode table and the second aggregate inode map.
    pub ait2: Pxd,
    pub aim2: Pxd,
    pub logdev: u32,
    pub logserial: u32,
    /// The inline log.
    pub logpxd: Pxd,
    /// The work space of the checker.
    pub fsckpxd: Pxd,
    /// When it was last written.
    pub time: Moment,
    pub fsckloglen: u32,
    pub fscklog: u8,
    pub fpack: [u8; 11],
    /// Of a volume that is being made longer: its size, its work space and its log.
    pub xsize: u64,
    pub xfsckpxd: Pxd,
    pub xlogpxd: Pxd,
    pub uuid: Uuid,
    pub label: [u8; 16],
    pub loguuid: Uuid,
}

/// The layout of a volume.
#[derive(Clone, Copy, PartialEq, Eq, Debug)]
pub struct Geometry {
    /// The number of blocks of the file system part.
    pub blocks: u32,
    /// The number of blocks of an allocation group.
    pub agsize: u32,
    /// The inline log.
    pub log: Pxd,
    /// No file gets longer, in bytes. It follows from the length of the log.
    pub file_limit: u64,
}
