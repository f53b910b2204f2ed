//! The tables of inodes of a new volume.

ghost use Rattle.std.specs.Prelude.{◌≡◌, ◌≢◌, ◌<◌, ◌≤◌, ◌+◌, ◌*◌, ◌^◌, ℕ, OnOk};
ghost use Rattle.jfs_disk.specs.Fault.{HasCause};
ghost use Rattle.jfs_inode.specs.Inode.{FitsDinode};
ghost use Rattle.jfs_format.specs.Layout.{IsLayout};
ghost use Rattle.jfs_format.specs.Inodes.{inode_in, IsTablePage};
ghost use Rattle.jfs_format.specs.Volume.{HasPages};
ghost use Rattle.jfs_format.specs.Wrote.{WroteWithin};

use crate::inodes::{aggregate_inode, fileset_inode};
use crate::volume::NewVolume;
use crate::write::put;
use jfs_disk::{Disk, DiskError, Page};
use jfs_inode::{Dinode, write_dinode};

/// A table of inodes.
#[derive(Clone, Copy, PartialEq, Eq, Debug)]
pub enum Table {
    /// The inodes of the volume's own files.
    Aggregate,
    /// The inodes of the user's files.
    Fileset,
}

impl Table {
    /// Inode `number` of a new volume.
    pub fn inode(self, v: NewVolume, number: u32) -> Dinode
        requires { (pages : ℕ) × IsLayout pages v.layout }
        ensures value { result ≡ inode_in self v number }
        ensures fits { FitsDinode result }
    {
        match self {
            Table::Aggregate => aggregate_inode(v, number),
            Table::Fileset => fileset_inode(v, number),
        }
    }
}

/// Puts page 0 to 3 of a table.
pub fn fill_table(page: &mut Page, v: NewVolume, table: Table, k: u32)
    requires layout { (pages : ℕ) × IsLayout pages v.layout }
    requires within { k < 4 }
    ensures { IsTablePage (inode_in table v) k page.new.0 }
{
    *page = Page::zeros();
    for slot in 0..8 {
        write_dinode(page, slot, &table.inode(v, 8 * k + slot));
    }
}

/// Writes the first 32 inodes of a table to the four pages from `first` on.
pub fn write_table<D: Disk>(
    disk: &mut D,
    v: NewVolume,
    table: Table,
    first: u32,
    page: &mut Page,
) -> Result<(), DiskError>
    requires layout { (pages : ℕ) × IsLayout pages v.layout }
    requires place { first + 4 ≤ D.page_count disk.old }
    requires small { first + 4 < 2 ^ 32 }
    ensures wrote { WroteWithin D.Disk first 4 disk.old disk.new }
    ensures table { OnOk result (D.tells → HasPages first 4 (IsTablePage (inode_in table v)) (D.image disk.new)) }
    ensures cause { HasCause (D.fault_count disk.old) (D.fault_count disk.new) result }
    ensures no_memory { result ≢ Err DiskError.Memory }
{
    for k in 0..4 {
        fill_table(page, v, table, k);
        put(disk, first + k, page)?;
    }
    Ok(())
}
