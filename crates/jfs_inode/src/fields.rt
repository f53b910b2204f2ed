//! The fields of an inode.

use jfs_bits::{Dxd, Moment, Pxd};

/// An inode: the fields of its first 128 bytes in their order there, and the rest of its 512. (JFS Layout, `struct dinode`.)
#[derive(Clone, Copy, PartialEq, Eq)]
pub struct Dinode {
    /// The stamp of the fileset that the inode belongs to; all its inodes have the same.
    pub inostamp: u32,
    /// The number of the fileset.
    pub fileset: u32,
    /// The inode's own number.
    pub number: u32,
    /// How often the inode's number was used anew.
    pub generation: u32,
    /// The inode extent that the inode lies in.
    pub ixpxd: Pxd,
    /// The number of bytes of the object.
    pub size: u64,
    /// The number of blocks that the inode owns.
    pub nblocks: u64,
    /// The number of names.
    pub nlink: u32,
    pub uid: u32,
    pub gid: u32,
    /// The Unix mode in the low 16 bits, and JFS's own bits above them.
    pub mode: u32,
    /// When it was last read, when its inode and when its contents were last changed, and when it was made.
    pub atime: Moment,
    pub ctime: Moment,
    pub mtime: Moment,
    pub otime: Moment,
    /// The access control list and the extended attributes.
    pub acl: Dxd,
    pub ea: Dxd,
    /// The next number of a directory's index table.
    pub next_index: u32,
    pub acltype: u32,
    /// The bytes from byte 128 on: a directory's first index slots, the root of the tree or a short target.
    pub rest: [u8; 384],
}

impl Dinode {
    /// The bits of `mode` that hold the type of the object. (POSIX, `S_IFMT`.)
    pub const TYPE: u32 = 0xf000;
    /// The type of a directory.
    pub const DIRECTORY: u32 = 0x4000;
    /// The type of a regular file.
    pub const REGULAR: u32 = 0x8000;
    /// The type of a symbolic link.
    pub const LINK: u32 = 0xa000;

    /// The known types: besides these, character and block devices, pipes and sockets.
    pub const TYPES: [u32; 7] = [
        Dinode::DIRECTORY,
        Dinode::REGULAR,
        Dinode::LINK,
        0x2000,
        0x6000,
        0x1000,
        0xc000,
    ];

    /// The bit of `mode` that an inode of a fileset has beside its Unix mode. (JFS header, `IFJOURNAL`.)
    pub const JOURNALLED: u32 = 0x0001_0000;
}
