//! The pages of the block map over one set of blocks.

ghost use Rattle.std.specs.Prelude.{◌≡◌, ◌+◌, ◌*◌, ◌/◌, ◌%◌, ◌^◌, ◌<◌, ◌≤◌, true, false, ◌||◌, length, IfOk};
ghost use Rattle.jfs_bits.specs.Bits.{is_free, is_taken, is_full};
ghost use Rattle.jfs_bmap.specs.Set.{each_below, taken_at, marked, cleared, free_in, IsLowest, IsFreeFront};

use crate::page_of_set::dmap_of;
use jfs_disk::Page;
use jfs_dmap::{dmap_clear, dmap_find, dmap_free, dmap_is_taken, dmap_mark, dmap_root};
use jfs_dmapctl::{ctl_canonical, ctl_find, ctl_set};
use std::alloc::{AllocError, Global};
use std::marker::Model;

/// A set of the blocks of a volume, as canonical pages: its dmaps, and the control page of level 0 over them.
#[derive(Drop)]
pub struct MapPages {
    pub(crate) blocks: u32,
    pub(crate) free: u32,
    pub(crate) dmaps: Vec<Page>,
    pub(crate) control: Page,
}

impl Model for MapPages {
    ghost use Rattle.std.specs.Prelude.{Bool, List};
    ghost use Rattle.jfs_bmap.specs.Pages.{set_of, AreMapPages};

    ghost Value = { List Bool };

    ghost view = { λ p. set_of p.blocks p.dmaps.items };

    ghost invariant = { λ p. AreMapPages p.blocks p.free p.dmaps.items p.control.0 };
}

impl MapPages {
    /// The pages of a volume of so many blocks, of which those in `set` are taken: a bit for each block, in words as in the
    /// maps.
    pub fn from_set(alloc: Global, set: &[u8], blocks: u32) -> Result<MapPages, AllocError>
        requires most { blocks ≤ 2 ^ 23 }
        requires size { blocks ≤ 8 * length set.now }
        requires words { length set.now % 4 ≡ 0 }
        ensures { IfOk result (λ pages. pages ≡ each_below blocks (is_taken set.now)) }
    {
        let count = blocks.div_ceil(8192);
        let mut dmaps = Vec::with_capacity(alloc, count as usize)?;
        let mut leaves = [-1i8; 1024];
        let mut free = 0;
        for k in 0..count {
            let page = dmap_of(set, blocks, k);
            leaves[k as usize] = dmap_root(&page);
            free += dmap_free(&page);
            dmaps.push(page)?;
        }
        let mut control = Page::zeros();
        ctl_canonical(&leaves, 0, &mut control);
        Ok(MapPages {
            blocks,
            free,
            dmaps,
            control,
        })
    }

    /// The same pages again.
    pub fn copied(&self, alloc: Global) -> Result<MapPages, AllocError>
        ensures { IfOk result (λ pages. pages ≡ self.now) }
    {
        let mut dmaps = Vec::with_capacity(alloc, self.dmaps.len())?;
        for dmap in &self.dmaps {
            dmaps.push(Page(dmap.0))?;
        }
        Ok(MapPages {
            blocks: self.blocks,
            free: self.free,
            dmaps,
            control: Page(self.control.0),
        })
    }

    /// The number of blocks.
    pub fn blocks(&self) -> u32
        ensures value { result ≡ length self.now }
        ensures most { result ≤ 2 ^ 23 }
    {
        self.blocks
    }

    /// The number of free blocks.
    pub fn free(&self) -> u32
        ensures { result ≡ free_in self.now }
    {
        self.free
    }

    /// Whether block `b` is taken; one past the end counts as taken.
    pub fn is_taken(&self, b: u32) -> bool
        ensures { result ≡ taken_at self.now b }
    {
        b >= self.blocks || dmap_is_taken(&self.dmaps[(b / 8192) as usize], b % 8192)
    }

    /// How many blocks from `first` on are free, as far as `most` of them.
    pub fn free_front(&self, first: u32, most: u32) -> u32
        ensures front { IsFreeFront (taken_at self.now) first most result }
        ensures within { 0 < result → first + result ≤ length self.now }
    {
        let most = most.min(self.blocks.saturating_sub(first));
        for n in 0..most {
            if self.is_taken(first + n) {
                return n;
            }
        }
        most
    }

    /// Whether the `n` blocks from `first` on are all taken.
    pub fn is_full(&self, first: u32, n: u32) -> bool
        requires { first + n ≤ length self.now }
        ensures { result ≡ is_full (taken_at self.now) first n }
    {
        // that the volume's number of blocks has its bound
        let _ = &self.blocks;
        for i in 0..n {
            if !self.is_taken(first + i) {
                return false;
            }
        }
        true
    }

    /// Takes the `n` free blocks from `first` on.
    pub fn mark(&mut self, first: u32, n: u32)
        requires within { first + n ≤ length self.old }
        requires free { is_free (taken_at self.old) first n ≡ true }
        ensures { self.new ≡ marked first n self.old }
    {
        // that the volume's number of blocks has its bound
        let _ = &self.blocks;
        let end = first + n;
        for k in first / 8192..end.div_ceil(8192) {
            let from = first.max(8192 * k);
            let to = end.min(8192 * (k + 1));
            self.mark_part(k, from - 8192 * k, to - from);
        }
    }

    /// Takes the `n` free blocks from block `first` of dmap `k` on.
    fn mark_part(&mut self, k: u32, first: u32, n: u32)
        requires part { first + n ≤ 8192 }
        requires within { 8192 * k + first + n ≤ length self.old }
        requires there { 8192 * k < length self.old }
        requires free { is_free (taken_at self.old) (8192 * k + first) n ≡ true }
        ensures { self.new ≡ marked (8192 * k + first) n self.old }
    {
        let dmap = &mut self.dmaps[k as usize];
        dmap_mark(dmap, first, n);
        let root = dmap_root(dmap);
        ctl_set(&mut self.control, k, root);
        self.free -= n;
    }

    /// Gives back the `n` taken blocks from `first` on.
    pub fn clear(&mut self, first: u32, n: u32)
        requires within { first + n ≤ length self.old }
        requires taken { is_full (taken_at self.old) first n ≡ true }
        ensures { self.new ≡ cleared first n self.old }
    {
        // that the volume's number of blocks has its bound
        let _ = &self.blocks;
        let end = first + n;
        for k in first / 8192..end.div_ceil(8192) {
            let from = first.max(8192 * k);
            let to = end.min(8192 * (k + 1));
            self.clear_part(k, from - 8192 * k, to - from);
        }
    }

    /// Gives back the `n` taken blocks from block `first` of dmap `k` on.
    fn clear_part(&mut self, k: u32, first: u32, n: u32)
        requires part { first + n ≤ 8192 }
        requires within { 8192 * k + first + n ≤ length self.old }
        requires there { 8192 * k < length self.old }
        requires taken { is_full (taken_at self.old) (8192 * k + first) n ≡ true }
        ensures { self.new ≡ cleared (8192 * k + first) n self.old }
    {
        let dmap = &mut self.dmaps[k as usize];
        dmap_clear(dmap, first, n);
        let root = dmap_root(dmap);
        ctl_set(&mut self.control, k, root);
        self.free += n;
    }

    /// The first block of the lowest free aligned run of `2^l2` blocks, found from the control page down; None exactly where
    /// there is none.
    pub fn find(&self, l2: u32) -> Option<u32>
        requires { l2 ≤ 23 }
        ensures { IsLowest (taken_at self.now) l2 result }
    {
        let leaf = ctl_find(&self.control, l2)?;
        if l2 > 13 {
            return Some(8192 * leaf);
        }
        let first = dmap_find(&self.dmaps[leaf as usize], l2)?;
        Some(8192 * leaf + first)
    }
}
