//! The dirty pages, and those that are held.

ghost use Rattle.std.specs.Prelude.{◌≡◌, ◌≤◌, ◌+◌, ℕ, length};
ghost use Rattle.std.specs.Vec.{vec_capacity};
ghost use Rattle.jfs_pages.specs.Dirty.{dirty_of, IsDirty, after_entry, IsRising, is_among};
ghost use Rattle.jfs_pages.specs.Room.{waiting, IsAt, IsGapFor};

use crate::dirty::Dirty;
use std::alloc::{AllocError, Global};

/// The dirty pages by rising number, with room for each page that is held, so that a change takes no memory.
#[derive(Drop)]
pub struct Changes {
    dirty: Vec<Dirty>,
    held: Vec<u32>,
    ghost rising: { IsRising dirty.items },
    ghost room: { length dirty.items + waiting held.items dirty.items ≤ vec_capacity dirty },
}

impl Changes {
    ghost use Rattle.std.specs.Prelude.{[], OnOk, OnErr, IfOk, IfErr, if◌then◌else◌, ◌==◌, ◌&&◌, not, true, Some, None, slice_get};

    pub fn new(alloc: Global) -> Self
        ensures dirty { result.dirty.items ≡ [] }
        ensures held { result.held.items ≡ [] }
    {
        Changes {
            dirty: Vec::new(alloc),
            held: Vec::new(alloc),
        }
    }

    /// The `i`-th dirty page.
    pub fn at(&self, i: usize) -> Option<Dirty>
        ensures page { result ≡ slice_get self.now.dirty.items i }
        ensures rising { IsRising self.now.dirty.items }
    {
        self.dirty.get(i).copied()
    }

    /// How many pages are dirty.
    pub fn len(&self) -> usize
        ensures { result ≡ length self.now.dirty.items }
    {
        self.dirty.len()
    }

    /// Page `page`, where it is dirty.
    pub fn find(&self, page: u32) -> Option<Dirty>
        ensures { result ≡ dirty_of self.now.dirty.items page }
    {
        match self.search(page) {
            Ok(at) => Some(self.dirty[at]),
            Err(_) => None,
        }
    }

    /// Where a page is, or where it would go.
    fn search(&self, page: u32) -> Result<usize, usize>
        ensures found { IfOk result (IsAt self.now.dirty.items page) }
        ensures absent { IfErr result (IsGapFor self.now.dirty.items page) }
    {
        self.dirty.binary_search_by_key(&page, |dirty| dirty.page)
    }

    /// These pages are held, and no others. At `Err` all is as it was.
    pub fn hold(&mut self, pages: Vec<u32>) -> Result<(), AllocError>
        ensures dirty { self.new.dirty.items ≡ self.old.dirty.items }
        ensures held { OnOk result (self.new.held.items ≡ pages.items) }
        ensures err { OnErr result (self.new.held.items ≡ self.old.held.items) }
    {
        self.dirty.reserve(pages.len())?;
        self.held = pages;
        Ok(())
    }

    /// No page is held.
    pub fn let_go(&mut self)
        ensures dirty { self.new.dirty.items ≡ self.old.dirty.items }
        ensures held { self.new.held.items ≡ [] }
    {
        self.held.clear();
    }

    /// An entry changes a page that is held.
    pub fn mark(&mut self, page: u32, entry: u64)
        requires { is_among page self.old.held.items ≡ true }
        ensures dirty { (n : ℕ) → dirty_of self.new.dirty.items n ≡ (if page == n then Some (after_entry page entry (dirty_of self.old.dirty.items page)) else dirty_of self.old.dirty.items n) }
        ensures held { self.new.held.items ≡ self.old.held.items }
    {
        match self.search(page) {
            Ok(at) => self.dirty[at].last = entry,
            Err(at) => self.insert(
                at,
                Dirty {
                    page,
                    first: entry,
                    last: entry,
                },
            ),
        }
    }

    fn insert(&mut self, at: usize, dirty: Dirty)
        requires held { is_among dirty.page self.old.held.items ≡ true }
        requires place { IsGapFor self.old.dirty.items dirty.page at }
        ensures dirty { (n : ℕ) → dirty_of self.new.dirty.items n ≡ (if dirty.page == n then Some dirty else dirty_of self.old.dirty.items n) }
        ensures held { self.new.held.items ≡ self.old.held.items }
    {
        match self.dirty.insert(at, dirty) {
            Ok(()) => {}
            Err(_) => unreachable!(),
        }
    }

    /// A page isn't dirty any more.
    pub fn clean(&mut self, page: u32)
        ensures dirty { (n : ℕ) → dirty_of self.new.dirty.items n ≡ (if page == n then None else dirty_of self.old.dirty.items n) }
        ensures held { self.new.held.items ≡ self.old.held.items }
    {
        if let Ok(at) = self.search(page) {
            self.dirty.remove(at);
        }
    }

    /// A page isn't held any more.
    pub fn drop_hold(&mut self, page: u32)
        ensures dirty { self.new.dirty.items ≡ self.old.dirty.items }
        ensures held { (n : ℕ) → is_among n self.new.held.items ≡ (not (page == n) && is_among n self.old.held.items) }
    {
        self.held.retain(|held| *held != page);
    }
}
