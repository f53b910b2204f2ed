//! Pages that the cache reads.

ghost use Rattle.std.specs.Prelude.{◌≡◌, ◌<◌, ◌||◌, ℕ, List, true, Some, OnOk, OnErr, IfOk, IsSome};
ghost use Rattle.std.specs.Borrow.{sem};
ghost use Rattle.std.specs.Io.BufRead.{Rests};
ghost use Rattle.jfs_disk.specs.Image.{page_of};
ghost use Rattle.jfs_ranges.specs.Apply.{touches_tx};
ghost use Rattle.jfs_pages.specs.Dirty.{is_among};
ghost use Rattle.jfs_pages.specs.Device.{IsSame, HasReadFault};
ghost use Rattle.jfs_pages.specs.contracts.cache.PageCache.{the_row};
ghost use Rattle.jfs_pages.specs.Kept.{cached, dirty_in, held_in, shown, SameChanges, KeepsPages, KeepsRead};

use crate::cache::PageCache;
use crate::wanted::wanted_pages;
use jfs_disk::{Disk, DiskError, Page};
use jfs_ranges::{Tx, ViewError};

impl<D: Disk> PageCache<D> {
    /// Page `n`, as it is after all calls of `edit`, `put` and `refresh`.
    ///
    /// # Errors
    ///
    /// The device failed, or memory ran out. The pages are as they were.
    pub fn get(&mut self, n: u32) -> Result<&Page, ViewError>
        requires { n < self.old.blocks }
        ensures bytes { IfOk result (λ page. D.tells → page.now.0 ≡ shown (D.image self.old.disk) self.old.kept n) }
        ensures kept { IfOk result (λ page. (bytes : List ℕ) → cached self.old.kept n ≡ Some bytes → page.now.0 ≡ bytes) }

        // Once the page is given back, all pages are as they were, and the count rose only with a fault.
        ensures* after { sem 𝓛 (Rests (the_row D.row D.Disk) self.entry (λ new.
            (new.blocks ≡ self.old.blocks)
            × SameChanges self.old.kept new.kept
            × KeepsPages self.old.kept new.kept
            × (D.tells → (q : ℕ) → shown (D.image new.disk) new.kept q ≡ shown (D.image self.old.disk) self.old.kept q)
            × IsSame D.tells D.tells_crashes (D.image self.old.disk) (D.image new.disk) (D.past self.old.disk) (D.past new.disk)
            × (D.page_count new.disk ≡ D.page_count self.old.disk)
            × (D.room new.disk ≡ D.room self.old.disk)
            × HasReadFault (D.fault_count self.old.disk) (D.fault_count new.disk) result)) }
    {
        self.load(n)?;
        Ok(self.kept.page(n))
    }

    /// The pages that a transaction changes, and those in `maps`, are in memory, with room among the dirty ones. They stay held
    /// until the next call of `hold`, a `put` that fails, or their `forget`.
    ///
    /// # Errors
    ///
    /// The device failed, or memory ran out. The pages are as they were, and so are those that are held.
    pub fn hold(&mut self, tx: &Tx, maps: &[u32]) -> Result<(), ViewError>
        requires tx { (n : ℕ) → touches_tx n tx.now ≡ true → n < self.old.blocks }
        requires maps { (n : ℕ) → is_among n maps.now ≡ true → n < self.old.blocks }
        ensures held { OnOk result ((n : ℕ) → is_among n (held_in self.new.kept) ≡ (touches_tx n tx.now || is_among n maps.now)) }
        ensures held_at_err { OnErr result (held_in self.new.kept ≡ held_in self.old.kept) }
        ensures dirty { dirty_in self.new.kept ≡ dirty_in self.old.kept }
        ensures keeps { KeepsPages self.old.kept self.new.kept }
        ensures pages { D.tells → (q : ℕ) → shown (D.image self.new.disk) self.new.kept q ≡ shown (D.image self.old.disk) self.old.kept q }
        ensures disk { IsSame D.tells D.tells_crashes (D.image self.old.disk) (D.image self.new.disk) (D.past self.old.disk) (D.past self.new.disk) }
        ensures blocks { self.new.blocks ≡ self.old.blocks }
        ensures count { D.page_count self.new.disk ≡ D.page_count self.old.disk }
        ensures room { D.room self.new.disk ≡ D.room self.old.disk }
        ensures cause { HasReadFault (D.fault_count self.old.disk) (D.fault_count self.new.disk) result }
    {
        let Ok(pages) = wanted_pages(self.alloc, tx, maps) else {
            return Err(ViewError::Memory);
        };
        self.load_all(&pages)?;
        match self.kept.hold(pages) {
            Ok(()) => Ok(()),
            Err(_) => Err(ViewError::Memory),
        }
    }

    fn load_all(&mut self, pages: &[u32]) -> Result<(), ViewError>
        requires { (n : ℕ) → is_among n pages.now ≡ true → n < self.old.blocks }
        ensures there { OnOk result ((n : ℕ) → is_among n pages.now ≡ true → IsSome (cached self.new.kept n)) }
        ensures changes { SameChanges self.old.kept self.new.kept }
        ensures keeps { KeepsRead self.old.kept self.new.kept }
        ensures pages { D.tells → (q : ℕ) → shown (D.image self.new.disk) self.new.kept q ≡ shown (D.image self.old.disk) self.old.kept q }
        ensures disk { IsSame D.tells D.tells_crashes (D.image self.old.disk) (D.image self.new.disk) (D.past self.old.disk) (D.past self.new.disk) }
        ensures blocks { self.new.blocks ≡ self.old.blocks }
        ensures count { D.page_count self.new.disk ≡ D.page_count self.old.disk }
        ensures room { D.room self.new.disk ≡ D.room self.old.disk }
        ensures cause { HasReadFault (D.fault_count self.old.disk) (D.fault_count self.new.disk) result }
    {
        for n in pages {
            self.load(*n)?;
        }
        Ok(())
    }

    /// Page `n` is in memory.
    fn load(&mut self, n: u32) -> Result<(), ViewError>
        requires { n < self.old.blocks }
        ensures there { OnOk result (IsSome (cached self.new.kept n)) }
        ensures changes { SameChanges self.old.kept self.new.kept }
        ensures keeps { KeepsRead self.old.kept self.new.kept }
        ensures pages { D.tells → (q : ℕ) → shown (D.image self.new.disk) self.new.kept q ≡ shown (D.image self.old.disk) self.old.kept q }
        ensures disk { IsSame D.tells D.tells_crashes (D.image self.old.disk) (D.image self.new.disk) (D.past self.old.disk) (D.past self.new.disk) }
        ensures blocks { self.new.blocks ≡ self.old.blocks }
        ensures count { D.page_count self.new.disk ≡ D.page_count self.old.disk }
        ensures room { D.room self.new.disk ≡ D.room self.old.disk }
        ensures cause { HasReadFault (D.fault_count self.old.disk) (D.fault_count self.new.disk) result }
    {
        if self.kept.has(n) {
            return Ok(());
        }
        let page = self.read(n)?;
        match self.kept.insert(n, page) {
            Ok(()) => Ok(()),
            Err(_) => Err(ViewError::Memory),
        }
    }

    /// What the disk gives of page `n`, in a box of its own.
    fn read(&mut self, n: u32) -> Result<Box<Page>, ViewError>
        requires { n < self.old.blocks }
        ensures bytes { IfOk result (λ page. D.tells → page.value.0 ≡ page_of (D.image self.old.disk) n) }
        ensures kept { self.new.kept ≡ self.old.kept }
        ensures disk { IsSame D.tells D.tells_crashes (D.image self.old.disk) (D.image self.new.disk) (D.past self.old.disk) (D.past self.new.disk) }
        ensures blocks { self.new.blocks ≡ self.old.blocks }
        ensures count { D.page_count self.new.disk ≡ D.page_count self.old.disk }
        ensures room { D.room self.new.disk ≡ D.room self.old.disk }
        ensures cause { HasReadFault (D.fault_count self.old.disk) (D.fault_count self.new.disk) result }
    {
        let mut page = Page::zeros();
        match self.disk.read(n, &mut page) {
            Ok(()) => match Box::new(self.alloc, page) {
                Ok(page) => Ok(page),
                Err(_) => Err(ViewError::Memory),
            },
            Err(DiskError::Failed) => Err(ViewError::Read(self.fault())),
            Err(DiskError::Memory) => Err(ViewError::Memory),
        }
    }
}
