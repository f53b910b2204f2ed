//! The inode maps of a new volume: of each, the first inode extent is there and no other.

ghost use Rattle.std.specs.Prelude.{◌≡◌, ◌≢◌, ◌<◌, ◌≤◌, ◌+◌, ◌-◌, ◌*◌, ◌^◌, ℕ, get_or, length, OnOk, not, false, nat_lt, nat_le, ◌==◌, if◌then◌else◌};
ghost use Rattle.jfs_bits.specs.Bits.{is_taken, count_below};
ghost use Rattle.jfs_bits.specs.Descriptor.{FitsPxd};
ghost use Rattle.jfs_disk.specs.Fault.{HasCause};
ghost use Rattle.jfs_iag.specs.Iag.{no_run};
ghost use Rattle.jfs_iag.specs.Canonical.{AreLinks, IsControlOf, IsControlPage, IsGroupOf, IsNext, end_of_list, in_inode_list, in_place_list};
ghost use Rattle.jfs_iag.specs.Control.{no_group};
ghost use Rattle.jfs_imap.specs.Inodes.{is_used, extent_at, IsPageOfIag, IsInodePage};
ghost use Rattle.jfs_format.specs.Layout.{IsLayout};
ghost use Rattle.jfs_format.specs.Inodes.{in_use};
ghost use Rattle.jfs_format.specs.Volume.{HasPages, extent_of, iags_of, inodes_in};
ghost use Rattle.jfs_format.specs.Wrote.{WroteWithin};
ghost use Rattle.jfs_format.specs.Map.{place_of};

use crate::layout::Layout;
use crate::tables::Table;
use crate::write::put;
use jfs_bits::{Pxd, set_run};
use jfs_disk::{Disk, DiskError, Page};
use jfs_iag::{
    END, InodeControl, InodeGroup, Links, NO_EXTENT, iag_with_links, write_inode_control,
};

impl Table {
    /// The table's first inode extent.
    fn extent(self, l: Layout) -> Pxd
        requires { (pages : ℕ) × IsLayout pages l }
        ensures value { result ≡ extent_of self l }
        ensures fits { FitsPxd result }
    {
        let addr = match self {
            Table::Aggregate => 11,
            Table::Fileset => 27 + l.dmaps + l.iags,
        };
        Pxd {
            len: 4,
            addr: u64::from(addr),
        }
    }

    /// The number of its inode allocation groups (IAGs).
    fn iags(self, l: Layout) -> u32
        ensures { result ≡ iags_of self l }
    {
        match self {
            Table::Aggregate => 1,
            Table::Fileset => l.iags,
        }
    }

    /// How many inodes of its first extent are free.
    fn free(self) -> u32
        ensures value { result ≡ count_below 32 (λ i. not (in_use self i)) }
        ensures most { result ≤ 32 }
    {
        match self {
            Table::Aggregate => 26,
            Table::Fileset => 28,
        }
    }

    /// Marks the inodes in use in a map of the first inodes without any.
    fn mark(self, set: &mut [u8])
        requires size { length set.old ≡ 512 }
        requires empty { (i : ℕ) → is_taken set.old i ≡ false }
        ensures { (i : ℕ) → is_taken set.new i ≡ in_use self i }
    {
        match self {
            Table::Aggregate => {
                set_run(set, 16, 1);
                set_run(set, 0, 5);
            }
            Table::Fileset => set_run(set, 0, 4),
        }
    }
}

/// A bit for each inode of IAG `k`.
fn set_of(table: Table, k: u32) -> [u8; 512]
    ensures { (i : ℕ) → i < 4096 → is_taken result i ≡ in_use table (4096 * k + i) }
{
    let mut set = [0u8; 512];
    if k == 0 {
        table.mark(&mut set);
    }
    set
}

/// The extents of IAG `k`.
fn extents_of(run: Pxd, k: u32) -> [Pxd; 128]
    ensures value { (e : ℕ) → e < 128 → get_or result e no_run ≡ place_of run (128 * k + e) }
    ensures size { length result ≡ 128 }
{
    let mut extents = [NO_EXTENT; 128];
    if k == 0 {
        extents[0] = run;
    }
    extents
}

/// The IAG behind IAG `k` in its group's list of those with a free place, in which all of them stand.
fn next_place(l: Layout, iags: u32, k: u32) -> u32
    requires { k + l.groups < 2 ^ 32 }
    ensures { result ≡ (if nat_lt (k + l.groups) iags then k + l.groups else end_of_list) }
{
    if k + l.groups < iags {
        k + l.groups
    } else {
        END
    }
}

/// The IAG before IAG `k` in that list.
fn previous_place(l: Layout, k: u32) -> u32
    ensures { result ≡ (if nat_le l.groups k then k - l.groups else end_of_list) }
{
    if l.groups <= k { k - l.groups } else { END }
}

/// The list words of IAG `k`. The first IAG alone has a free inode.
fn links_of(table: Table, l: Layout, k: u32) -> Links
    requires layout { (pages : ℕ) × IsLayout pages l }
    requires within { k < iags_of table l }
    ensures { AreLinks (in_use table) (place_of (extent_of table l)) (iags_of table l) l.groups k result }
{
    Links {
        inofreefwd: END,
        inofreeback: END,
        extfreefwd: next_place(l, table.iags(l), k),
        extfreeback: previous_place(l, k),
    }
}

/// The first IAG of group `g` with a free inode.
fn first_inode(table: Table, l: Layout, g: u32) -> u32
    requires { (pages : ℕ) × IsLayout pages l }
    ensures { IsNext (in_inode_list (in_use table) (place_of (extent_of table l)) l.groups g) (iags_of table l) 0 result }
{
    if g == 0 { 0 } else { END }
}

/// The first IAG of group `g` with a free place.
fn first_place(table: Table, l: Layout, g: u32) -> u32
    requires { (pages : ℕ) × IsLayout pages l }
    ensures { IsNext (in_place_list (place_of (extent_of table l)) l.groups g) (iags_of table l) 0 result }
{
    if g < l.groups.min(table.iags(l)) {
        g
    } else {
        END
    }
}

/// `count` for group 0, 0 for the others.
fn of_group(g: u32, count: u32) -> u32
    ensures { result ≡ (if g == 0 then count else 0) }
{
    if g == 0 { count } else { 0 }
}

/// What the control page says of group `g`.
fn group_of(table: Table, l: Layout, g: u32) -> InodeGroup
    requires { (pages : ℕ) × IsLayout pages l }
    ensures { IsGroupOf (in_use table) (place_of (extent_of table l)) (iags_of table l) l.groups g result }
{
    InodeGroup {
        inofree: first_inode(table, l, g),
        extfree: first_place(table, l, g),
        numinos: of_group(g, 32),
        numfree: of_group(g, table.free()),
    }
}

/// What the control page says of each group.
fn groups_of(table: Table, l: Layout) -> [InodeGroup; 128]
    requires { (pages : ℕ) × IsLayout pages l }
    ensures { (g : ℕ) → g < 128 → IsGroupOf (in_use table) (place_of (extent_of table l)) (iags_of table l) l.groups g (get_or result g no_group) }
{
    let none = InodeGroup {
        inofree: END,
        extfree: END,
        numinos: 0,
        numfree: 0,
    };
    let mut groups = [none; 128];
    for g in 0..128u32 {
        groups[g as usize] = group_of(table, l, g);
    }
    groups
}

/// The control page's fields.
fn control_of(table: Table, l: Layout) -> InodeControl
    requires { (pages : ℕ) × IsLayout pages l }
    ensures { IsControlOf (in_use table) (place_of (extent_of table l)) (iags_of table l) l.groups result }
{
    InodeControl {
        freeiag: END,
        nextiag: table.iags(l),
        numinos: 32,
        numfree: table.free(),
        nbperiext: 4,
        l2nbperiext: 2,
        diskblock: 0,
        maxag: l.groups - 1,
        groups: groups_of(table, l),
    }
}

/// Puts the control page.
fn fill_control(page: &mut Page, table: Table, l: Layout)
    requires { (pages : ℕ) × IsLayout pages l }
    ensures { IsControlPage (is_used (inodes_in table l)) (extent_at (inodes_in table l)) (iags_of table l) l.groups page.new.0 }
{
    *page = Page::zeros();
    write_inode_control(page, &control_of(table, l));
}

/// Puts the page of IAG `k`.
fn fill_iag(page: &mut Page, table: Table, l: Layout, k: u32)
    requires layout { (pages : ℕ) × IsLayout pages l }
    requires within { k < iags_of table l }
    ensures { IsPageOfIag (inodes_in table l) k page.new.0 }
{
    let start = u64::from(k % l.groups) * u64::from(l.agsize);
    let set = set_of(table, k);
    let extents = extents_of(table.extent(l), k);
    iag_with_links(&set, &extents, k, start, links_of(table, l, k), page);
}

/// Puts page `n` of a table's inode map.
fn fill_map(page: &mut Page, table: Table, l: Layout, n: u32)
    requires layout { (pages : ℕ) × IsLayout pages l }
    requires within { n ≤ iags_of table l }
    ensures { IsInodePage (inodes_in table l) n page.new.0 }
{
    if n == 0 {
        fill_control(page, table, l);
    } else {
        fill_iag(page, table, l, n - 1);
    }
}

/// Writes the inode map of a table to the pages from `first` on: the control page, and a page for each IAG.
pub fn write_inode_map<D: Disk>(
    disk: &mut D,
    table: Table,
    l: Layout,
    first: u32,
    page: &mut Page,
) -> Result<(), DiskError>
    requires layout { (pages : ℕ) × IsLayout pages l }
    requires place { first + (1 + iags_of table l) ≤ D.page_count disk.old }
    requires small { first + (1 + iags_of table l) < 2 ^ 32 }
    ensures wrote { WroteWithin D.Disk first (1 + iags_of table l) disk.old disk.new }
    ensures map { OnOk result (D.tells → HasPages first (1 + iags_of table l) (IsInodePage (inodes_in table l)) (D.image disk.new)) }
    ensures cause { HasCause (D.fault_count disk.old) (D.fault_count disk.new) result }
    ensures no_memory { result ≢ Err DiskError.Memory }
{
    for n in 0..1 + table.iags(l) {
        fill_map(page, table, l, n);
        put(disk, first + n, page)?;
    }
    Ok(())
}
