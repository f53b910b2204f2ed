//! All pages of a new volume but its superblock, one area after the other.

ghost use Rattle.std.specs.Prelude.{◌≡◌, ◌≢◌, ◌<◌, ◌≤◌, ◌+◌, ◌-◌, ◌^◌, ℕ, drop, OnOk};
ghost use Rattle.jfs_disk.specs.Fault.{HasCause};
ghost use Rattle.jfs_disk.specs.Image.{page_of};
ghost use Rattle.jfs_imap.specs.Inodes.{IsInodePage};
ghost use Rattle.jfs_bmap.specs.MapFile.{IsMapPage};
ghost use Rattle.jfs_logpages.specs.Fresh.{IsFreshLog};
ghost use Rattle.jfs_format.specs.Layout.{IsLayout, inode_map, is_taken_block, map_pages, second_table};
ghost use Rattle.jfs_format.specs.Areas.{HasFront, HasCopies, HasFileset, IsUpToLog};
ghost use Rattle.jfs_format.specs.Wrote.{WroteWithin};
ghost use Rattle.jfs_format.specs.Steps.{WroteNamed};
ghost use Rattle.jfs_format.specs.Volume.{IsAllButSuper};

use crate::block_map::write_block_map;
use crate::inode_map::write_inode_map;
use crate::superblock::fill_super;
use crate::tables::{Table, write_table};
use crate::volume::NewVolume;
use crate::write::put;
use jfs_disk::{Disk, DiskError, Page};
use jfs_logpages::write_fresh;
use uuid::Uuid;

/// Writes pages 9 to 15: the aggregate inode map, the aggregate inode table and the superblock's copy.
fn write_front<D: Disk>(disk: &mut D, v: NewVolume, page: &mut Page) -> Result<(), DiskError>
    requires layout { (pages : ℕ) × IsLayout pages v.layout }
    requires place { 16 ≤ D.page_count disk.old }
    ensures wrote { WroteWithin D.Disk 9 7 disk.old disk.new }
    ensures front { OnOk result (D.tells → HasFront v (D.image disk.new)) }
    ensures cause { HasCause (D.fault_count disk.old) (D.fault_count disk.new) result }
    ensures no_memory { result ≢ Err DiskError.Memory }
{
    write_inode_map(disk, Table::Aggregate, v.layout, 9, page)?;
    write_table(disk, v, Table::Aggregate, 11, page)?;
    fill_super(page, v);
    put(disk, 15, page)?;
    Ok(())
}

/// Writes the copies of the aggregate inode table and the aggregate inode map.
fn write_copies<D: Disk>(disk: &mut D, v: NewVolume, page: &mut Page) -> Result<(), DiskError>
    requires layout { (pages : ℕ) × IsLayout pages v.layout }
    requires place { inode_map v.layout ≤ D.page_count disk.old }
    ensures wrote { WroteWithin D.Disk (second_table v.layout) 6 disk.old disk.new }
    ensures copies { OnOk result (D.tells → HasCopies v (D.image disk.new)) }
    ensures cause { HasCause (D.fault_count disk.old) (D.fault_count disk.new) result }
    ensures no_memory { result ≢ Err DiskError.Memory }
{
    let l = v.layout;
    write_table(disk, v, Table::Aggregate, 20 + l.dmaps, page)?;
    write_inode_map(disk, Table::Aggregate, l, 24 + l.dmaps, page)?;
    Ok(())
}

/// Writes the fileset's inode map and its first inodes.
fn write_fileset<D: Disk>(disk: &mut D, v: NewVolume, page: &mut Page) -> Result<(), DiskError>
    requires layout { (pages : ℕ) × IsLayout pages v.layout }
    requires place { inode_map v.layout + (5 + v.layout.iags) ≤ D.page_count disk.old }
    ensures wrote { WroteWithin D.Disk (inode_map v.layout) (5 + v.layout.iags) disk.old disk.new }
    ensures fileset { OnOk result (D.tells → HasFileset v (D.image disk.new)) }
    ensures cause { HasCause (D.fault_count disk.old) (D.fault_count disk.new) result }
    ensures no_memory { result ≢ Err DiskError.Memory }
{
    let l = v.layout;
    write_inode_map(disk, Table::Fileset, l, 26 + l.dmaps, page)?;
    write_table(disk, v, Table::Fileset, 27 + l.dmaps + l.iags, page)?;
    Ok(())
}

/// Writes the file system part but for page 8: pages 9 on, as far as blocks have owners.
fn write_blocks<D: Disk>(disk: &mut D, v: NewVolume, page: &mut Page) -> Result<(), DiskError>
    requires { IsLayout (D.page_count disk.old) v.layout }
    ensures wrote { WroteWithin D.Disk 9 (22 + v.layout.dmaps + v.layout.iags) disk.old disk.new }
    ensures blocks { OnOk result (D.tells → IsUpToLog v (D.image disk.new)) }
    ensures cause { HasCause (D.fault_count disk.old) (D.fault_count disk.new) result }
    ensures no_memory { result ≢ Err DiskError.Memory }
{
    write_front(disk, v, page)?;
    write_block_map(disk, v.layout, page)?;
    write_copies(disk, v, page)?;
    write_fileset(disk, v, page)?;
    Ok(())
}

/// Writes the log.
fn write_log<D: Disk>(disk: &mut D, v: NewVolume) -> Result<(), DiskError>
    requires { IsLayout (D.page_count disk.old) v.layout }
    ensures wrote { WroteWithin D.Disk (v.layout.log.addr + 1) (v.layout.log.len - 1) disk.old disk.new }
    ensures log { OnOk result (D.tells → IsFreshLog v.layout.log.len v.uuid (drop v.layout.log.addr (D.image disk.new))) }
    ensures cause { HasCause (D.fault_count disk.old) (D.fault_count disk.new) result }
    ensures no_memory { result ≢ Err DiskError.Memory }
{
    match write_fresh(disk, v.layout.log, Uuid::from_bytes(v.uuid)) {
        Ok(()) => Ok(()),
        Err(_) => Err(DiskError::Failed),
    }
}

/// Writes all of a new volume but its superblock.
pub fn write_all_but_super<D: Disk>(disk: &mut D, v: NewVolume) -> Result<(), DiskError>
    requires { IsLayout (D.page_count disk.old) v.layout }
    ensures wrote { WroteNamed D.Disk v.layout disk.old disk.new }
    ensures all { OnOk result (D.tells → IsAllButSuper v (D.image disk.new)) }
    ensures cause { HasCause (D.fault_count disk.old) (D.fault_count disk.new) result }
    ensures no_memory { result ≢ Err DiskError.Memory }
{
    let mut page = Page::zeros();
    write_blocks(disk, v, &mut page)?;
    write_log(disk, v)?;
    Ok(())
}
