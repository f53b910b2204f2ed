//! The block map of a new volume.

ghost use Rattle.std.specs.Prelude.{◌≡◌, ◌≢◌, ◌<◌, ◌≤◌, ◌+◌, ◌*◌, ◌^◌, ℕ, ℤ, slice_index, length, OnOk, IfOk, IsErrOf, not};
ghost use Rattle.jfs_bits.specs.Bits.{is_taken, count_below, greatest_run};
ghost use Rattle.jfs_disk.specs.Fault.{HasCause};
ghost use Rattle.jfs_dmap.specs.Dmap.{taken_in};
ghost use Rattle.jfs_dmapctl.specs.Control.{IsControl, IsValue, value_at};
ghost use Rattle.jfs_bmap.specs.Pages.{leaf_ranks};
ghost use Rattle.jfs_bmap.specs.MapFile.{IsDmapPage, IsFirstPage, IsMapControlOf, IsMapPage};
ghost use Rattle.jfs_format.specs.Layout.{IsLayout, is_taken_block, map_pages, owned_blocks, free_blocks};
ghost use Rattle.jfs_format.specs.Volume.{HasPages};
ghost use Rattle.jfs_format.specs.Wrote.{WroteWithin};
ghost use Rattle.jfs_format.specs.Map.{free_from};
ghost use Rattle.jfs_format.specs.Leaves.{AreLeaves};

use crate::layout::Layout;
use crate::write::put;
use jfs_bits::set_run;
use jfs_bmap::{greatest_run_under, map_numbers, write_unused};
use jfs_disk::{Disk, DiskError, Page};
use jfs_dmap::{dmap_canonical, dmap_root};
use jfs_dmapctl::{MapControl, ctl_canonical, write_map_control};

/// A bit for each block of dmap `k`. All blocks with owners are within the first one.
fn set_of(l: Layout, k: u32) -> [u8; 1024]
    requires { (pages : ℕ) × IsLayout pages l }
    ensures { (i : ℕ) → i < 8192 → 8192 * k + i < l.blocks → is_taken result i ≡ is_taken_block l (8192 * k + i) }
{
    let mut set = [0u8; 1024];
    if k == 0 {
        set_run(&mut set, 0, l.owned());
    }
    set
}

/// Puts dmap `k`.
fn fill_dmap(page: &mut Page, l: Layout, k: u32)
    requires layout { (pages : ℕ) × IsLayout pages l }
    requires within { k < l.dmaps }
    ensures { IsDmapPage l.blocks (is_taken_block l) k page.new.0 }
{
    let blocks = (l.blocks - 8192 * k).min(8192);
    dmap_canonical(&set_of(l, k), 8192 * u64::from(k), blocks, page);
}

/// Writes the dmaps to the pages from 20 on, and answers what each leaf of level 0 has of them.
fn write_dmaps<D: Disk>(disk: &mut D, l: Layout, page: &mut Page) -> Result<[i8; 1024], DiskError>
    requires layout { (pages : ℕ) × IsLayout pages l }
    requires place { 20 + l.dmaps ≤ D.page_count disk.old }
    ensures wrote { WroteWithin D.Disk 20 l.dmaps disk.old disk.new }
    ensures leaves { IfOk result (λ leaves. AreLeaves (is_taken_block l) l.dmaps leaves) }
    ensures dmaps { OnOk result (D.tells → HasPages 20 l.dmaps (IsDmapPage l.blocks (is_taken_block l)) (D.image disk.new)) }
    ensures cause { HasCause (D.fault_count disk.old) (D.fault_count disk.new) result }
    ensures no_memory { IsErrOf result DiskError.Memory → ⊥ }
{
    let mut leaves = [-1i8; 1024];
    for k in 0..l.dmaps {
        fill_dmap(page, l, k);
        leaves[k as usize] = dmap_root(page);
        put(disk, 20 + k, page)?;
    }
    Ok(leaves)
}

/// Puts the control page of level 0.
fn fill_level_zero(page: &mut Page, l: Layout, leaves: &[i8; 1024])
    requires layout { (pages : ℕ) × IsLayout pages l }
    requires leaves { AreLeaves (is_taken_block l) l.dmaps leaves.now }
    ensures { IsControl 0 (leaf_ranks (is_taken_block l)) page.new.0 }
{
    ctl_canonical(leaves, 0, page);
}

/// How many of the `n` blocks from `first` on are free.
fn free_from(l: Layout, first: u32, n: u32) -> u32
    requires owned { owned_blocks l < 2 ^ 32 }
    requires small { first + n < 2 ^ 32 }
    ensures value { result ≡ free_from l first n }
    ensures count { result ≡ count_below n (λ i. not (is_taken_block l (first + i))) }
{
    let end = (first + n).min(l.blocks);
    end.saturating_sub(first.max(l.owned()))
}

/// The number of free blocks of each group.
fn free_of_groups(l: Layout) -> [u64; 128]
    requires { (pages : ℕ) × IsLayout pages l }
    ensures { (g : ℕ) → g < 128 → slice_index result g ≡ count_below l.agsize (λ i. not (is_taken_block l (l.agsize * g + i))) }
{
    let mut groups = [0u64; 128];
    for g in 0..128u32 {
        groups[g as usize] = u64::from(free_from(l, l.agsize * g, l.agsize));
    }
    groups
}

/// Puts the map's control page; `greatest` is the l2 of the greatest free aligned run.
fn fill_first(page: &mut Page, l: Layout, greatest: i8)
    requires layout { (pages : ℕ) × IsLayout pages l }
    requires greatest { greatest ≡ greatest_run (is_taken_block l) 23 23 }
    ensures { IsFirstPage l.blocks l.agsize (is_taken_block l) page.new.0 }
{
    let free = free_from(l, 0, l.blocks);
    let numbers = map_numbers(l.blocks, l.agsize, free, free_of_groups(l), greatest);
    *page = Page::zeros();
    write_map_control(page, &numbers);
}

/// Writes the four control pages, to pages 16 to 19.
fn write_controls<D: Disk>(
    disk: &mut D,
    l: Layout,
    leaves: &[i8; 1024],
    page: &mut Page,
) -> Result<(), DiskError>
    requires layout { (pages : ℕ) × IsLayout pages l }
    requires place { 20 ≤ D.page_count disk.old }
    requires leaves { AreLeaves (is_taken_block l) l.dmaps leaves.now }
    ensures wrote { WroteWithin D.Disk 16 4 disk.old disk.new }
    ensures map { OnOk result (D.tells → HasPages 16 4 (IsMapPage l.blocks l.agsize (is_taken_block l)) (D.image disk.new)) }
    ensures cause { HasCause (D.fault_count disk.old) (D.fault_count disk.new) result }
    ensures no_memory { result ≢ Err DiskError.Memory }
{
    fill_level_zero(page, l, leaves);
    let greatest = greatest_run_under(page);
    put(disk, 19, page)?;
    write_unused(1, page);
    put(disk, 18, page)?;
    write_unused(2, page);
    put(disk, 17, page)?;
    fill_first(page, l, greatest);
    put(disk, 16, page)?;
    Ok(())
}

/// Writes the block map's file to the pages from 16 on.
pub fn write_block_map<D: Disk>(disk: &mut D, l: Layout, page: &mut Page) -> Result<(), DiskError>
    requires layout { (pages : ℕ) × IsLayout pages l }
    requires place { 16 + map_pages l ≤ D.page_count disk.old }
    ensures wrote { WroteWithin D.Disk 16 (map_pages l) disk.old disk.new }
    ensures map { OnOk result (D.tells → HasPages 16 (map_pages l) (IsMapPage l.blocks l.agsize (is_taken_block l)) (D.image disk.new)) }
    ensures cause { HasCause (D.fault_count disk.old) (D.fault_count disk.new) result }
    ensures no_memory { result ≢ Err DiskError.Memory }
{
    let leaves = write_dmaps(disk, l, page)?;
    write_controls(disk, l, &leaves, page)?;
    Ok(())
}
