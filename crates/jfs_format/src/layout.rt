//! Where the parts of a new volume stand.

ghost use Rattle.std.specs.Prelude.{◌≡◌, ◌+◌, ◌^◌, ◌<◌, ◌≤◌};
ghost use Rattle.jfs_format.specs.Layout.{IsFormattable, IsLayout, layout_of, log_pages, work_pages, group_size, map_pages, second_table, second_map, inode_map, first_inodes, owned_blocks, free_blocks};

use jfs_bits::Pxd;

/// The fewest and the most pages of a disk that is formatted.
pub const LEAST_PAGES: u32 = 4096;

pub const MOST_PAGES: u32 = 8_388_608;

/// The layout of a new volume. The superblock stands on page 8, the aggregate inode map on pages 9 and 10, the aggregate inode
/// table on pages 11 to 14, the superblock's copy on page 15, and all else that has owners from page 16 on.
#[derive(Clone, Copy, PartialEq, Eq, Debug)]
pub struct Layout {
    /// The blocks of the file system part.
    pub blocks: u32,
    /// The blocks of an allocation group.
    pub agsize: u32,
    /// The number of allocation groups.
    pub groups: u32,
    /// The number of dmaps of the block map.
    pub dmaps: u32,
    /// The number of inode allocation groups (IAGs) of the fileset's inode map.
    pub iags: u32,
    /// The work space of the checker.
    pub work: Pxd,
    /// The log.
    pub log: Pxd,
}

/// The blocks of an allocation group of a volume of so many blocks.
fn group_size(blocks: u32) -> u32
    ensures { result ≡ group_size blocks }
{
    if blocks <= 1 << 20 {
        1 << 13
    } else if blocks <= 1 << 21 {
        1 << 14
    } else if blocks <= 1 << 22 {
        1 << 15
    } else {
        1 << 16
    }
}

impl Layout {
    /// The layout of a new volume on a disk of so many pages.
    pub fn of(pages: u32) -> Layout
        requires { IsFormattable pages }
        ensures value { result ≡ layout_of pages }
        ensures bounds { IsLayout pages result }
    {
        let log = (pages / 256).clamp(1024, 32768);
        let work = 64 + 64 * (pages / (1 << 20));
        let blocks = pages - log - work;
        let agsize = group_size(blocks);
        let dmaps = blocks.div_ceil(8192);
        Layout {
            blocks,
            agsize,
            groups: blocks.div_ceil(agsize),
            dmaps,
            iags: dmaps.min(128),
            work: Pxd {
                len: work,
                addr: u64::from(blocks),
            },
            log: Pxd {
                len: log,
                addr: u64::from(pages - log),
            },
        }
    }

    /// How many blocks have owners: those from 0 on.
    pub fn owned(self) -> u32
        requires { owned_blocks self < 2 ^ 32 }
        ensures { result ≡ owned_blocks self }
    {
        31 + self.dmaps + self.iags
    }

    /// How many blocks are free.
    pub fn free(self) -> u32
        requires { owned_blocks self ≤ self.blocks }
        ensures { result ≡ free_blocks self }
    {
        self.blocks - self.owned()
    }
}
