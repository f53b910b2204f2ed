//! The pages of the inode map in their canonical form.

ghost use Rattle.std.specs.Prelude.{◌≡◌, ◌+◌, ◌*◌, ◌%◌, ◌<◌, ◌≤◌, length, get_or, ℕ};
ghost use Rattle.jfs_bits.specs.Bits.{is_taken};
ghost use Rattle.jfs_bits.specs.Descriptor.{FitsPxd};
ghost use Rattle.jfs_iag.specs.Iag.{no_run};
ghost use Rattle.jfs_iag.specs.Canonical.{IsControlPage, IsGroupOf, IsIagPage};
ghost use Rattle.jfs_iag.specs.Control.{no_group};
ghost use Rattle.jfs_imap.specs.Inodes.{is_used, extent_at, AreKept, IsPageOfIag, IsInodePage};

use crate::counts::{extents_by_group, extents_there, free_by_group, free_inodes};
use crate::inode_map::InodeMap;
use crate::lists::{neighbors, next_in};
use crate::summary::Summary;
use jfs_bits::Pxd;
use jfs_disk::Page;
use jfs_iag::{END, InodeControl, InodeGroup, Links, iag_with_links, write_inode_control};

impl InodeMap {
    /// Writes page `n` of the map's file in its canonical form: the control page, then a page for each inode allocation
    /// group (IAG). Takes no memory. (JFS Layout, inode map.)
    pub fn write_page(&self, n: u32, page: &mut Page)
        requires { n ≤ self.now.iags }
        ensures { IsInodePage self.now n page.new.0 }
    {
        if n == 0 {
            self.write_control(page);
        } else {
            self.write_iag(n - 1, page);
        }
    }

    /// Writes the page of IAG `k`.
    fn write_iag(&self, k: u32, page: &mut Page)
        requires { k < self.now.iags }
        ensures { IsPageOfIag self.now k page.new.0 }
    {
        let inodes = neighbors(&self.free, self.iags, self.numag, k);
        let places = neighbors(&self.places, self.iags, self.numag, k);
        let links = Links {
            inofreefwd: inodes.0,
            inofreeback: inodes.1,
            extfreefwd: places.0,
            extfreeback: places.1,
        };
        let start = start_of(k, self.numag, self.agsize);
        let set = self.set.as_slice();
        let extents = self.extents.as_slice();
        write_part(set, extents, k, start, links, page);
    }

    /// Writes the control page.
    fn write_control(&self, page: &mut Page)
        ensures { IsControlPage (is_used self.now) (extent_at self.now) self.now.iags self.now.numag page.new.0 }
    {
        let set = self.set.as_slice();
        let extents = self.extents.as_slice();
        let groups = groups_of(
            set,
            extents,
            &self.free,
            &self.places,
            self.iags,
            self.numag,
        );
        let control = InodeControl {
            freeiag: END,
            nextiag: self.iags,
            numinos: 32 * extents_there(extents, self.iags),
            numfree: free_inodes(set, extents, self.iags),
            nbperiext: 4,
            l2nbperiext: 2,
            diskblock: 0,
            maxag: self.numag - 1,
            groups,
        };
        page.0.fill(0);
        write_inode_control(page, &control);
    }
}

/// The first block of the allocation group of IAG `k`.
fn start_of(k: u32, numag: u32, agsize: u32) -> u64
    requires { 0 < numag }
    ensures { result ≡ k % numag * agsize }
{
    u64::from(k % numag) * u64::from(agsize)
}

/// Writes the canonical page of IAG `k` with these list words.
fn write_part(set: &[u8], extents: &[Pxd], k: u32, start: u64, links: Links, page: &mut Page)
    requires most { k < 65536 }
    requires set { 512 * k + 512 ≤ length set.now }
    requires extents { 128 * k + 128 ≤ length extents.now }
    requires fits { (e : ℕ) → e < length extents.now → FitsPxd (get_or extents.now e no_run) }
    ensures { IsIagPage (λ i. is_taken set.now (4096 * k + i)) (λ e. get_or extents.now (128 * k + e) no_run) k start links page.new.0 }
{
    let bits = 512 * k as usize;
    let first = 128 * k as usize;
    iag_with_links(
        &set[bits..bits + 512],
        &extents[first..first + 128],
        k,
        start,
        links,
        page,
    );
}

/// What the control page says of each group.
fn groups_of(
    set: &[u8],
    extents: &[Pxd],
    free: &Summary,
    places: &Summary,
    iags: u32,
    numag: u32,
) -> [InodeGroup; 128]
    requires { AreKept iags numag set.now extents.now free.now places.now }
    ensures { (g : ℕ) → g < 128 → IsGroupOf (is_taken set.now) (λ e. get_or extents.now e no_run) iags numag g (get_or result g no_group) }
{
    let free_inodes = free_by_group(set, extents, iags, numag);
    let there = extents_by_group(extents, iags, numag);
    let none = InodeGroup {
        inofree: END,
        extfree: END,
        numinos: 0,
        numfree: 0,
    };
    let mut groups = [none; 128];
    for g in 0..128u32 {
        groups[g as usize] = InodeGroup {
            inofree: next_in(free, iags, numag, g, 0),
            extfree: next_in(places, iags, numag, g, 0),
            numinos: 32 * there[g as usize],
            numfree: free_inodes[g as usize],
        };
    }
    groups
}
