//! The pages of both maps, written in their canonical form.

ghost use Rattle.std.specs.Prelude.{◌≡◌, ◌≤◌, ◌+◌, suc, length, OnOk};
ghost use Rattle.jfs_bits.specs.Field.{AreBytes};
ghost use Rattle.jfs_disk.specs.Fault.{HasCause};
ghost use Rattle.jfs_bmap.specs.Set.{taken_at};
ghost use Rattle.jfs_bmap.specs.MapFile.{IsMapPage, is_in_use, pages_of};
ghost use Rattle.jfs_imap.specs.Inodes.{IsInodePage};
ghost use Rattle.jfs_redo_steps.specs.objects.specs.Contents.{block_of};
ghost use Rattle.jfs_mount_maps.specs.mount_rules.specs.Files.{IsWithin, LieWithin};
ghost use Rattle.jfs_redo.specs.Put.{ArePut, InBytes, IsPut, place_if, put_at};
ghost use Rattle.jfs_redo.specs.Redo.{StaysBehind};
ghost use Rattle.jfs_redo.specs.Partly.{KeepsMixed, PutsPage, PutsFile};

use jfs_bits::Xad;
use jfs_bmap::OwnedMap;
use jfs_disk::{Disk, DiskError, Page};
use jfs_imap::InodeMap;
use jfs_mount_maps::mount_rules::from_block;
use jfs_mount_maps::reader::page_of_block;

/// Writes each page of the block map's file that is in use.
pub(crate) fn write_block_map<D: Disk>(
    disk: &mut D,
    map: &OwnedMap,
    extents: &[Xad],
    blocks: u32,
) -> Result<(), DiskError>
    requires within { blocks ≤ D.page_count disk.old }
    requires lie { LieWithin blocks extents.now }
    ensures pages { D.page_count disk.new ≡ D.page_count disk.old }
    ensures room { D.room disk.new ≡ D.room disk.old }
    ensures put { D.tells → OnOk result (ArePut (pages_of (length map.now.owned)) (λ k. place_if (is_in_use (length map.now.owned) k) (block_of extents.now k))
        (InBytes (IsMapPage (length map.now.owned) map.now.agsize (taken_at map.now.owned))) (D.image disk.old) (D.image disk.new)) }
    ensures behind { D.tells → StaysBehind blocks (D.image disk.old) (D.image disk.new) }
    ensures moments { D.tells → D.tells_crashes → KeepsMixed blocks (PutsFile (pages_of (length map.now.owned)) (λ k. place_if (is_in_use (length map.now.owned) k) (block_of extents.now k))
        (InBytes (IsMapPage (length map.now.owned) map.now.agsize (taken_at map.now.owned)))) (D.past disk.old) (D.past disk.new) }
    ensures cause { HasCause (D.fault_count disk.old) (D.fault_count disk.new) result }
{
    let mut page = Page::zeros();
    let mut rest = extents;
    for k in 0..map.pages() {
        rest = from_block(rest, u64::from(k));
        match write_if_in_use(disk, map, rest, blocks, k, &mut page) {
            Ok(()) => {}
            Err(e) => return Err(e),
        }
    }
    Ok(())
}

/// Writes page `k` of the block map's file, where it is in use; `page` is room for it.
fn write_if_in_use<D: Disk>(
    disk: &mut D,
    map: &OwnedMap,
    extents: &[Xad],
    blocks: u32,
    k: u32,
    page: &mut Page,
) -> Result<(), DiskError>
    requires within { blocks ≤ D.page_count disk.old }
    requires lies { IsWithin blocks (block_of extents.now k) }
    ensures pages { D.page_count disk.new ≡ D.page_count disk.old }
    ensures room { D.room disk.new ≡ D.room disk.old }
    ensures put { D.tells → OnOk result (IsPut (place_if (is_in_use (length map.now.owned) k) (block_of extents.now k))
        (InBytes (IsMapPage (length map.now.owned) map.now.agsize (taken_at map.now.owned)) k) (D.image disk.old) (D.image disk.new)) }
    ensures behind { D.tells → StaysBehind blocks (D.image disk.old) (D.image disk.new) }
    ensures moments { D.tells → D.tells_crashes → KeepsMixed blocks (PutsPage (place_if (is_in_use (length map.now.owned) k) (block_of extents.now k))
        (InBytes (IsMapPage (length map.now.owned) map.now.agsize (taken_at map.now.owned)) k)) (D.past disk.old) (D.past disk.new) }
    ensures cause { HasCause (D.fault_count disk.old) (D.fault_count disk.new) result }
{
    if !map.is_in_use(k) {
        return Ok(());
    }
    map.write_page(k, page);
    match write_at(disk, extents, blocks, u64::from(k), page) {
        Ok(()) => Ok(()),
        Err(e) => Err(e),
    }
}

/// Writes each page of the inode map's file: its control page, and one for each inode allocation group (IAG).
pub(crate) fn write_inode_map<D: Disk>(
    disk: &mut D,
    map: &InodeMap,
    iags: u32,
    extents: &[Xad],
    blocks: u32,
) -> Result<(), DiskError>
    requires within { blocks ≤ D.page_count disk.old }
    requires lie { LieWithin blocks extents.now }
    requires iags { iags ≡ map.now.iags }
    requires few { iags ≤ 65536 }
    ensures pages { D.page_count disk.new ≡ D.page_count disk.old }
    ensures room { D.room disk.new ≡ D.room disk.old }
    ensures put { D.tells → OnOk result (ArePut (suc iags) (block_of extents.now) (InBytes (IsInodePage map.now)) (D.image disk.old) (D.image disk.new)) }
    ensures behind { D.tells → StaysBehind blocks (D.image disk.old) (D.image disk.new) }
    ensures moments { D.tells → D.tells_crashes → KeepsMixed blocks (PutsFile (suc iags) (block_of extents.now) (InBytes (IsInodePage map.now))) (D.past disk.old) (D.past disk.new) }
    ensures cause { HasCause (D.fault_count disk.old) (D.fault_count disk.new) result }
{
    let mut page = Page::zeros();
    let mut rest = extents;
    for k in 0..iags + 1 {
        rest = from_block(rest, u64::from(k));
        map.write_page(k, &mut page);
        match write_at(disk, rest, blocks, u64::from(k), &page) {
            Ok(()) => {}
            Err(e) => return Err(e),
        }
    }
    Ok(())
}

/// Writes a page to the place of page `k` of a file, where it has one.
fn write_at<D: Disk>(
    disk: &mut D,
    extents: &[Xad],
    blocks: u32,
    k: u64,
    page: &Page,
) -> Result<(), DiskError>
    requires within { blocks ≤ D.page_count disk.old }
    requires lies { IsWithin blocks (block_of extents.now k) }
    ensures pages { D.page_count disk.new ≡ D.page_count disk.old }
    ensures room { D.room disk.new ≡ D.room disk.old }
    ensures put { D.tells → OnOk result (D.image disk.new ≡ put_at (block_of extents.now k) page.now.0 (D.image disk.old)) }
    ensures bytes { AreBytes page.now.0 }
    ensures behind { D.tells → StaysBehind blocks (D.image disk.old) (D.image disk.new) }
    ensures moments { D.tells → D.tells_crashes → KeepsMixed blocks (PutsPage (block_of extents.now k) (λ bytes. bytes ≡ page.now.0)) (D.past disk.old) (D.past disk.new) }
    ensures cause { HasCause (D.fault_count disk.old) (D.fault_count disk.new) result }
{
    note_bytes(page);
    match page_of_block(extents, blocks, k) {
        Ok(Some(at)) => disk.write(at, page),
        Ok(None) => Ok(()),
        Err(_) => unreachable!(),
    }
}

/// For the prover alone: a page has bytes.
fn note_bytes(page: &Page)
    ensures bytes { AreBytes page.now.0 }
    ensures size { length page.now.0 ≡ 4096 }
{
    are_bytes(page.bytes());
}

fn are_bytes(bytes: &[u8])
    ensures { AreBytes bytes.now }
{
    let _count = bytes.len();
}
