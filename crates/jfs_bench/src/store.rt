//! Pages in memory, for trees that grow.

ghost use Rattle.std.specs.Prelude.{◌≡◌, ◌<◌, ◌≤◌, ◌+◌, [], ◌∷◌, IfOk, true};
ghost use Rattle.jfs_ranges.specs.View.{no_device};
ghost use Rattle.jfs_disk.specs.declared.disk.Part.TheVariants.{Low};

use jfs_bits::{Pxd, PxdList};
use jfs_disk::Page;
use jfs_ranges::{Edit, PageView, Tx, ViewError, apply};
use std::alloc::{AllocError, Global};

/// The number of pages.
pub const PAGES: u32 = 32_768;

/// A volume's pages; how many reads there were; the free ones begin at `next`.
#[derive(Drop)]
pub struct Store {
    pages: Vec<Page>,
    reads: u64,
    next: u32,
}

impl PageView for Store {
    ghost block_count = { λ store. 32768 };

    ghost faults = { λ store. record { part = Low; count = 0 } };

    ghost image = { λ store. [] };

    ghost tells = { ⊥ };

    ghost crashes = { ⊥ };

    ghost device = { λ store. no_device };

    ghost has_pages = { λ store told. absurd told };

    fn blocks(&self) -> u32 {
        PAGES
    }

    fn page(&mut self, n: u32) -> Result<&Page, ViewError> {
        self.reads = self.reads.saturating_add(1);
        match self.pages.get(n as usize) {
            Some(page) => Ok(page),
            None => Err(ViewError::Memory),
        }
    }
}

impl Store {
    /// Pages of zeros, all free.
    pub fn new(alloc: Global) -> Result<Store, AllocError> {
        let mut pages = Vec::new(alloc);
        for _ in 0..PAGES {
            pages.push(Page::zeros())?;
        }
        Ok(Store {
            pages,
            reads: 0,
            next: 0,
        })
    }

    pub fn reads(&self) -> u64 {
        self.reads
    }

    /// How many pages the tree has.
    pub fn taken(&self) -> u32 {
        self.next
    }

    /// The next eight free blocks.
    pub fn fresh(&self, alloc: Global) -> Result<PxdList, AllocError>
        ensures { IfOk result (λ fresh. fresh ≡ record { len = 8; addr = self.now.next } ∷ []) }
    {
        let mut fresh = PxdList::new(alloc);
        fresh.push(Pxd {
            len: 8,
            addr: u64::from(self.next),
        })?;
        Ok(fresh)
    }

    /// Whether eight blocks are free.
    pub fn has_eight(&self) -> bool
        ensures { result ≡ true → self.now.next + 8 ≤ 32768 }
    {
        self.next <= PAGES - 8
    }

    /// The edits of a call that left so many free blocks of its eight.
    pub fn take(&mut self, tx: &Tx, left: usize) {
        let taken = 8usize.saturating_sub(left) as u32;
        self.next = self.next.saturating_add(taken);
        for edit in tx.as_slice() {
            if let Edit::Lines { page, .. } = edit {
                self.apply(tx, *page);
            }
        }
    }

    fn apply(&mut self, tx: &Tx, n: u32) {
        if let Some(page) = self.pages.get_mut(n as usize) {
            apply(tx, n, page);
        }
    }
}
