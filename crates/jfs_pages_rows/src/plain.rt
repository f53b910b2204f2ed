//! The plain model: what the disk holds, and the changed pages with their first and last entry, in no order.

use jfs_disk::Page;
use std::alloc::{AllocError, Global};

/// The number of pages.
pub const PAGES: u32 = 6;

/// A page that entries changed.
#[derive(Drop)]
pub struct Changed {
    page: u32,
    bytes: Page,
    first: u64,
    last: u64,
}

#[derive(Drop)]
pub struct Plain {
    disk: Vec<Page>,
    changed: Vec<Changed>,
}

/// A page with one byte all over.
pub fn filled(byte: u8) -> Page {
    Page([byte; 4096])
}

fn copy(page: &Page) -> Page {
    Page(page.0)
}

impl Plain {
    pub fn new(alloc: Global) -> Result<Plain, AllocError> {
        let mut disk = Vec::new(alloc);
        for _ in 0..PAGES {
            disk.push(Page::zeros())?;
        }
        Ok(Plain {
            disk,
            changed: Vec::new(alloc),
        })
    }

    /// Page `n`, as all calls left it.
    pub fn page(&self, n: u32) -> Option<&Page> {
        for changed in &self.changed {
            if changed.page == n {
                return Some(&changed.bytes);
            }
        }
        self.disk.get(n as usize)
    }

    /// The first and the last entry that changed page `n`.
    pub fn entries(&self, n: u32) -> Option<(u64, u64)> {
        for changed in &self.changed {
            if changed.page == n {
                return Some((changed.first, changed.last));
            }
        }
        None
    }

    /// An entry changes page `n`.
    pub fn touch(&mut self, n: u32, entry: u64) -> Result<(), AllocError> {
        for changed in self.changed.iter_mut() {
            if changed.page == n {
                changed.last = entry;
                return Ok(());
            }
        }
        if let Some(page) = self.disk.get(n as usize) {
            let bytes = copy(page);
            self.changed.push(Changed {
                page: n,
                bytes,
                first: entry,
                last: entry,
            })?;
        }
        Ok(())
    }

    /// Byte `at` of page `n`, which is changed.
    pub fn set(&mut self, n: u32, at: usize, byte: u8) {
        for changed in self.changed.iter_mut() {
            if changed.page == n {
                if let Some(old) = changed.bytes.0.get_mut(at) {
                    *old = byte;
                }
            }
        }
    }

    /// The changes of page `n` go, to the disk or nowhere.
    pub fn end(&mut self, n: u32, home: bool) {
        if home {
            if let Some(page) = self.page(n) {
                let bytes = copy(page);
                self.write(n, &bytes);
            }
        }
        self.changed.retain(|changed| changed.page != n);
    }

    /// The disk holds these bytes at block `n`.
    pub fn write(&mut self, n: u32, bytes: &Page) {
        if let Some(page) = self.disk.get_mut(n as usize) {
            *page = copy(bytes);
        }
    }

    /// The `i`-th changed page by rising number, found by looking at all numbers.
    pub fn at(&self, i: u32) -> Option<u32> {
        let mut passed: u32 = 0;
        for n in 0..PAGES {
            if self.entries(n).is_some() {
                if passed == i {
                    return Some(n);
                }
                passed = passed.saturating_add(1);
            }
        }
        None
    }
}
