//! The pages that were read, as they are after all changes.

ghost use Rattle.std.specs.Prelude.{◌≡◌, ℕ, List, length, true, Some, IsSome};
ghost use Rattle.jfs_pages.specs.Dirty.{IsDirty, is_among};
ghost use Rattle.jfs_pages.specs.Pages.{bytes_in};

use crate::changes::Changes;
use crate::dirty::Dirty;
use jfs_disk::Page;
use jfs_ranges::{Edit, Tx, apply_edit};
use std::alloc::{AllocError, Global};
use std::collections::BTreeMap;

/// The pages that were read, by their numbers, and which of them are dirty or held.
#[derive(Drop)]
pub struct Kept {
    pages: BTreeMap<u32, Box<Page>>,
    changes: Changes,
    ghost sizes: { (n : ℕ) (bytes : List ℕ) → bytes_in pages n ≡ Some bytes → length bytes ≡ 4096 },
    ghost dirty_there: { (n : ℕ) → IsDirty changes.dirty.items n → IsSome (bytes_in pages n) },
    ghost held_there: { (n : ℕ) → is_among n changes.held.items ≡ true → IsSome (bytes_in pages n) },
}

impl Kept {
    ghost use Rattle.std.specs.Prelude.{[], ◌<◌, ◌^◌, OnOk, OnErr, IfSome, if◌then◌else◌, ◌==◌, ◌&&◌, not, None, is_some, slice_get, option_map};
    ghost use Rattle.jfs_ranges.specs.Apply.{apply_edit, touches_edit, touches_tx};
    ghost use Rattle.jfs_pages.specs.Dirty.{dirty_of, touched_by, IsRising};
    ghost use Rattle.jfs_pages.specs.Kept.{cached, dirty_in, held_in};
    ghost use Rattle.jfs_pages.specs.Steps.{page_after, dirty_after, marked_after};

    pub fn new(alloc: Global) -> Self
        ensures pages { (n : ℕ) → cached result n ≡ None }
        ensures dirty { dirty_in result ≡ [] }
        ensures held { held_in result ≡ [] }
    {
        Kept {
            pages: BTreeMap::new(alloc),
            changes: Changes::new(alloc),
        }
    }

    /// Whether page `n` was read.
    pub fn has(&self, n: u32) -> bool
        ensures { result ≡ is_some (cached self.now n) }
    {
        self.pages.contains_key(&n)
    }

    /// Page `n`, which was read.
    pub fn page(&self, n: u32) -> &Page
        requires { IsSome (cached self.now n) }
        ensures { cached self.now n ≡ Some result.now.0 }
    {
        match self.pages.get(&n) {
            Some(page) => page,
            None => unreachable!(),
        }
    }

    /// The `i`-th dirty page.
    pub fn dirty_at(&self, i: usize) -> Option<Dirty>
        ensures page { result ≡ slice_get (dirty_in self.now) i }
        ensures found { IfSome result (λ dirty. dirty_of (dirty_in self.now) dirty.page ≡ Some dirty) }
        ensures rising { IsRising (dirty_in self.now) }
    {
        self.changes.at(i)
    }

    /// How many pages are dirty.
    pub fn dirty_count(&self) -> usize
        ensures { result ≡ length (dirty_in self.now) }
    {
        self.changes.len()
    }

    /// Page `n`, where it is dirty.
    pub fn dirty(&self, n: u32) -> Option<Dirty>
        ensures { result ≡ dirty_of (dirty_in self.now) n }
    {
        self.changes.find(n)
    }

    /// Page `n` was read. At `Err` all is as it was.
    pub fn insert(&mut self, n: u32, page: Box<Page>) -> Result<(), AllocError>
        requires { cached self.old n ≡ None }
        ensures pages { OnOk result ((q : ℕ) → cached self.new q ≡ (if n == q then Some page.value.0 else cached self.old q)) }
        ensures err { OnErr result ((q : ℕ) → cached self.new q ≡ cached self.old q) }
        ensures dirty { dirty_in self.new ≡ dirty_in self.old }
        ensures held { held_in self.new ≡ held_in self.old }
    {
        let _bytes: &[u8] = &page.0;
        self.pages.insert(n, page)?;
        Ok(())
    }

    /// These pages, which were read, are held, and no others. At `Err` all is as it was.
    pub fn hold(&mut self, pages: Vec<u32>) -> Result<(), AllocError>
        requires { (n : ℕ) → is_among n pages.items ≡ true → IsSome (cached self.old n) }
        ensures pages { (q : ℕ) → cached self.new q ≡ cached self.old q }
        ensures dirty { dirty_in self.new ≡ dirty_in self.old }
        ensures held { OnOk result (held_in self.new ≡ pages.items) }
        ensures err { OnErr result (held_in self.new ≡ held_in self.old) }
    {
        self.changes.hold(pages)
    }

    /// An entry's edits change their pages, which are held.
    pub fn edit_all(&mut self, tx: &Tx, entry: u64)
        requires held { (n : ℕ) → touches_tx n tx.now ≡ true → is_among n (held_in self.old) ≡ true }
        requires numbers { (n : ℕ) → touches_tx n tx.now ≡ true → n < 2 ^ 32 }
        ensures pages { (q : ℕ) → cached self.new q ≡ page_after q tx.now (cached self.old q) }
        ensures dirty { (q : ℕ) → dirty_of (dirty_in self.new) q ≡ dirty_after q entry tx.now (dirty_of (dirty_in self.old) q) }
        ensures held { held_in self.new ≡ held_in self.old }
    {
        for edit in tx.as_slice() {
            self.edit(edit, entry);
        }
    }

    /// An entry changes the sets that these pages of maps tell of. The pages, which are held, are as they were.
    pub fn mark_all(&mut self, maps: &[u32], entry: u64)
        requires { (n : ℕ) → is_among n maps.now ≡ true → is_among n (held_in self.old) ≡ true }
        ensures pages { (q : ℕ) → cached self.new q ≡ cached self.old q }
        ensures dirty { (q : ℕ) → dirty_of (dirty_in self.new) q ≡ marked_after q entry maps.now (dirty_of (dirty_in self.old) q) }
        ensures held { held_in self.new ≡ held_in self.old }
    {
        for map in maps {
            self.mark(*map, entry);
        }
    }

    /// An entry's edit changes its pages, which are held.
    fn edit(&mut self, edit: &Edit, entry: u64)
        requires held { (n : ℕ) → touches_edit n edit.now ≡ true → is_among n (held_in self.old) ≡ true }
        requires numbers { (n : ℕ) → touches_edit n edit.now ≡ true → n < 2 ^ 32 }
        ensures pages { (q : ℕ) → cached self.new q ≡ option_map (apply_edit q edit.now) (cached self.old q) }
        ensures dirty { (q : ℕ) → dirty_of (dirty_in self.new) q ≡ touched_by (touches_edit q edit.now) q entry (dirty_of (dirty_in self.old) q) }
        ensures held { held_in self.new ≡ held_in self.old }
    {
        let pages = edit.pages();
        for n in pages.first..pages.end {
            self.edit_page(n as u32, edit, entry);
        }
    }

    /// An entry's edit changes a page, which is held.
    fn edit_page(&mut self, n: u32, edit: &Edit, entry: u64)
        requires { is_among n (held_in self.old) ≡ true }
        ensures pages { (q : ℕ) → cached self.new q ≡ (if n == q then option_map (apply_edit n edit.now) (cached self.old n) else cached self.old q) }
        ensures dirty { (q : ℕ) → dirty_of (dirty_in self.new) q ≡ touched_by (n == q) q entry (dirty_of (dirty_in self.old) q) }
        ensures held { held_in self.new ≡ held_in self.old }
    {
        self.apply(n, edit);
        self.changes.mark(n, entry);
    }

    /// Page `n` after an edit, where it was read.
    fn apply(&mut self, n: u32, edit: &Edit)
        ensures pages { (q : ℕ) → cached self.new q ≡ (if n == q then option_map (apply_edit n edit.now) (cached self.old n) else cached self.old q) }
        ensures changes { self.new.changes ≡ self.old.changes }
    {
        if let Some(page) = self.pages.get_mut(&n) {
            apply_edit(edit, n, page);
        }
    }

    /// An entry changes the set that a page of a map tells of. The page, which is held, is as it was.
    fn mark(&mut self, n: u32, entry: u64)
        requires { is_among n (held_in self.old) ≡ true }
        ensures pages { (q : ℕ) → cached self.new q ≡ cached self.old q }
        ensures dirty { (q : ℕ) → dirty_of (dirty_in self.new) q ≡ touched_by (n == q) q entry (dirty_of (dirty_in self.old) q) }
        ensures held { held_in self.new ≡ held_in self.old }
    {
        self.changes.mark(n, entry);
    }

    /// Page `n`, where it was read, has these bytes.
    pub fn put(&mut self, n: u32, page: &Page)
        ensures pages { (q : ℕ) → cached self.new q ≡ (if n == q then option_map (λ _. page.now.0) (cached self.old n) else cached self.old q) }
        ensures dirty { dirty_in self.new ≡ dirty_in self.old }
        ensures held { held_in self.new ≡ held_in self.old }
    {
        if let Some(kept) = self.pages.get_mut(&n) {
            let bytes: &[u8] = &page.0;
            kept.0.copy_from_slice(bytes);
        }
    }

    /// Block `n` was written to the disk. The page, where it was read and isn't dirty, has these bytes.
    pub fn put_clean(&mut self, n: u32, page: &Page)
        ensures pages { (q : ℕ) → cached self.new q ≡ (if is_some (dirty_of (dirty_in self.old) n) then cached self.old q
            else if n == q then option_map (λ _. page.now.0) (cached self.old q) else cached self.old q) }
        ensures dirty { dirty_in self.new ≡ dirty_in self.old }
        ensures held { held_in self.new ≡ held_in self.old }
    {
        if self.dirty(n).is_none() {
            self.put(n, page);
        }
    }

    /// A write of block `n` to the disk failed. No page is held, and page `n`, where it isn't dirty, is as if it hadn't been read.
    pub fn drop_clean(&mut self, n: u32)
        ensures pages { (q : ℕ) → cached self.new q ≡ (if is_some (dirty_of (dirty_in self.old) n) then cached self.old q
            else if n == q then None else cached self.old q) }
        ensures dirty { dirty_in self.new ≡ dirty_in self.old }
        ensures held { held_in self.new ≡ [] }
    {
        self.let_go();
        if self.dirty(n).is_none() {
            self.pages.remove(&n);
        }
    }

    /// Page `n` isn't dirty any more.
    pub fn clean(&mut self, n: u32)
        ensures pages { (q : ℕ) → cached self.new q ≡ cached self.old q }
        ensures dirty { (q : ℕ) → dirty_of (dirty_in self.new) q ≡ (if n == q then None else dirty_of (dirty_in self.old) q) }
        ensures held { held_in self.new ≡ held_in self.old }
    {
        self.changes.clean(n);
    }

    /// Page `n` is as if it hadn't been read.
    pub fn forget(&mut self, n: u32)
        ensures pages { (q : ℕ) → cached self.new q ≡ (if n == q then None else cached self.old q) }
        ensures dirty { (q : ℕ) → dirty_of (dirty_in self.new) q ≡ (if n == q then None else dirty_of (dirty_in self.old) q) }
        ensures held { (q : ℕ) → is_among q (held_in self.new) ≡ (not (n == q) && is_among q (held_in self.old)) }
    {
        self.changes.clean(n);
        self.changes.drop_hold(n);
        self.pages.remove(&n);
    }

    /// No page is held.
    fn let_go(&mut self)
        ensures pages { (q : ℕ) → cached self.new q ≡ cached self.old q }
        ensures dirty { dirty_in self.new ≡ dirty_in self.old }
        ensures held { held_in self.new ≡ [] }
    {
        self.changes.let_go();
    }
}
