//! The control page of an inode map, both ways.

ghost use Rattle.std.specs.Prelude.{◌≡◌, ◌+◌, ◌*◌, ◌<◌, ◌≤◌, ◌⊎◌, length, get_or, ℕ};
ghost use Rattle.jfs_bits.specs.Field.{range_of};
ghost use Rattle.jfs_bits.specs.Piece.{puts};
ghost use Rattle.jfs_iag.specs.Control.{IsInodeControl, FitsHead, head_of, group_at, no_group, FitsGroup, group_pieces};

use jfs_bits::{get_u32, put_u32};
use jfs_disk::Page;

/// What the control page says of one allocation group. (JFS Layout, `struct iagctl`.)
#[derive(Clone, Copy, PartialEq, Eq)]
pub struct InodeGroup {
    /// The first IAG of the group's list of those with a free inode, and of that of those with a free extent place.
    pub inofree: u32,
    pub extfree: u32,
    /// The number of inodes of the group's extents, and of the free ones among them.
    pub numinos: u32,
    pub numfree: u32,
}

/// The control page of an inode map. (JFS Layout, `struct dinomap`.)
#[derive(Clone, Copy, PartialEq, Eq)]
pub struct InodeControl {
    /// The first IAG of the list of those without an extent.
    pub freeiag: u32,
    /// The number of IAGs.
    pub nextiag: u32,
    /// The number of inodes of all extents, and of the free ones among them.
    pub numinos: u32,
    pub numfree: u32,
    /// The blocks of an inode extent, and their logarithm.
    pub nbperiext: u32,
    pub l2nbperiext: u32,
    pub diskblock: u32,
    /// The greatest number of an allocation group.
    pub maxag: u32,
    pub groups: [InodeGroup; 128],
}

/// The fields that a page holds.
pub fn read_inode_control(page: &Page) -> InodeControl
    ensures { IsInodeControl result page.now.0 }
{
    let bytes: &[u8] = &page.0;
    InodeControl {
        freeiag: get_u32(bytes, 0),
        nextiag: get_u32(bytes, 4),
        numinos: get_u32(bytes, 8),
        numfree: get_u32(bytes, 12),
        nbperiext: get_u32(bytes, 16),
        l2nbperiext: get_u32(bytes, 20),
        diskblock: get_u32(bytes, 24),
        maxag: get_u32(bytes, 28),
        groups: groups_of(bytes),
    }
}

/// What is said of group `g`.
fn group_of(bytes: &[u8], g: usize) -> InodeGroup
    requires size { length bytes.now ≡ 4096 }
    requires within { g < 128 }
    ensures { result ≡ group_at bytes.now g }
{
    let at = 2048 + 16 * g;
    InodeGroup {
        inofree: get_u32(bytes, at),
        extfree: get_u32(bytes, at + 4),
        numinos: get_u32(bytes, at + 8),
        numfree: get_u32(bytes, at + 12),
    }
}

/// What is said of each of the 128 groups.
fn groups_of(bytes: &[u8]) -> [InodeGroup; 128]
    requires { length bytes.now ≡ 4096 }
    ensures size { length result ≡ 128 }
    ensures value { (g : ℕ) → g < 128 → get_or result g no_group ≡ group_at bytes.now g }
{
    let none = InodeGroup {
        inofree: 0,
        extfree: 0,
        numinos: 0,
        numfree: 0,
    };
    let mut groups = [none; 128];
    for g in 0..128 {
        groups[g] = group_of(bytes, g);
    }
    groups
}

/// Puts the fields into a page; the reserved bytes stay.
pub fn write_inode_control(page: &mut Page, c: &InodeControl)
    ensures value { IsInodeControl c.now page.new.0 }
    ensures pad { range_of page.new.0 32 2016 ≡ range_of page.old.0 32 2016 }
    ensures size { length page.new.0 ≡ 4096 }
{
    let bytes: &mut [u8] = &mut page.0;
    put_head(bytes, c);
    put_groups(bytes, &c.groups);
}

/// Puts the fields before the groups.
fn put_head(bytes: &mut [u8], c: &InodeControl)
    requires { length bytes.old ≡ 4096 }
    ensures bytes { bytes.new ≡ puts (head_of c.now) bytes.old }
    ensures fits { FitsHead c.now }
{
    put_u32(bytes, 0, c.freeiag);
    put_u32(bytes, 4, c.nextiag);
    put_u32(bytes, 8, c.numinos);
    put_u32(bytes, 12, c.numfree);
    put_u32(bytes, 16, c.nbperiext);
    put_u32(bytes, 20, c.l2nbperiext);
    put_u32(bytes, 24, c.diskblock);
    put_u32(bytes, 28, c.maxag);
}

/// Puts what is said of group `g`.
fn put_group(bytes: &mut [u8], g: usize, group: InodeGroup)
    requires size { length bytes.old ≡ 4096 }
    requires within { g < 128 }
    ensures bytes { bytes.new ≡ puts (group_pieces g group) bytes.old }
    ensures fits { FitsGroup group }
{
    let at = 2048 + 16 * g;
    put_u32(bytes, at, group.inofree);
    put_u32(bytes, at + 4, group.extfree);
    put_u32(bytes, at + 8, group.numinos);
    put_u32(bytes, at + 12, group.numfree);
}

/// Puts what is said of each group.
fn put_groups(bytes: &mut [u8], groups: &[InodeGroup; 128])
    requires { length bytes.old ≡ 4096 }
    ensures value { (g : ℕ) → g < 128 → group_at bytes.new g ≡ get_or groups.now g no_group }
    ensures beside { (p n : ℕ) → p + n ≤ 2048 → range_of bytes.new p n ≡ range_of bytes.old p n }
{
    for g in 0..128 {
        put_group(bytes, g, groups[g]);
    }
}
