//! Pages that the cache writes.

ghost use Rattle.std.specs.Prelude.{◌≡◌, ◌≢◌, ◌<◌, ◌==◌, ◌⊎◌, ℕ, [], true, if◌then◌else◌, None, OnOk, OnErr};
ghost use Rattle.jfs_disk.specs.Image.{page_of};
ghost use Rattle.jfs_pages.specs.Device.{HasFault, GoesHome, SendsHome, Puts, Syncs};
ghost use Rattle.jfs_pages.specs.Dirty.{dirty_of, IsDirty, last_of, is_among};
ghost use Rattle.jfs_pages.specs.Kept.{cached, dirty_in, held_in, shown};

use crate::cache::PageCache;
use crate::error::HomeError;
use jfs_disk::{Disk, Fault, Page};

impl<D: Disk> PageCache<D> {
    /// Writes page `n`, which is dirty, to its home, and nothing else. It isn't dirty any more. It takes no memory.
    ///
    /// # Errors
    ///
    /// `NotYet`, exactly where the page's last entry is past `told`, and then the disk is left alone; or the device failed. The
    /// page stays dirty.
    pub fn home(&mut self, n: u32, told: u64) -> Result<(), HomeError>
        requires { IsDirty (dirty_in self.old.kept) n }
        ensures goes { GoesHome (last_of (dirty_of (dirty_in self.old.kept) n)) told (D.fault_count self.old.disk) (D.fault_count self.new.disk) result }
        ensures sends { SendsHome D.tells D.tells_crashes n (shown (D.image self.old.disk) self.old.kept n)
            (D.image self.old.disk) (D.image self.new.disk) (D.past self.old.disk) (D.past self.new.disk) result }
        ensures pages { D.tells → (q : ℕ) → shown (D.image self.new.disk) self.new.kept q ≡ shown (D.image self.old.disk) self.old.kept q }
        ensures dirty { OnOk result ((q : ℕ) → dirty_of (dirty_in self.new.kept) q ≡ (if n == q then None else dirty_of (dirty_in self.old.kept) q)) }
        ensures stays { OnErr result (dirty_in self.new.kept ≡ dirty_in self.old.kept) }
        ensures held { held_in self.new.kept ≡ held_in self.old.kept }
        ensures keeps { (q : ℕ) → IsDirty (dirty_in self.new.kept) q ⊎ (is_among q (held_in self.new.kept) ≡ true) → cached self.new.kept q ≡ cached self.old.kept q }
        ensures blocks { self.new.blocks ≡ self.old.blocks }
        ensures count { D.page_count self.new.disk ≡ D.page_count self.old.disk }
        ensures room { D.room self.new.disk ≡ D.room self.old.disk }
    {
        let last = match self.kept.dirty(n) {
            Some(dirty) => dirty.last,
            None => unreachable!(),
        };
        if last > told {
            return Err(HomeError::NotYet { lsn: last, told });
        }
        match self.disk.write(n, self.kept.page(n)) {
            Ok(()) => {
                self.kept.clean(n);
                Ok(())
            }
            Err(_) => Err(HomeError::WriteFault(self.fault())),
        }
    }

    /// Writes block `n` to the disk, past the log. Where page `n` is dirty it stays as it is; else `get` then gives these bytes,
    /// and after a fault what the disk gives. It takes no memory.
    ///
    /// # Errors
    ///
    /// The device failed. No page is held any more.
    pub fn put(&mut self, n: u32, page: &Page) -> Result<(), Fault>
        requires { n < self.old.blocks }
        ensures cause { HasFault (D.fault_count self.old.disk) (D.fault_count self.new.disk) result }
        ensures puts { Puts D.tells D.tells_crashes n page.now.0
            (D.image self.old.disk) (D.image self.new.disk) (D.past self.old.disk) (D.past self.new.disk) result }
        ensures others { D.tells → (q : ℕ) → n ≢ q → shown (D.image self.new.disk) self.new.kept q ≡ shown (D.image self.old.disk) self.old.kept q }
        ensures dirty_stays { D.tells → IsDirty (dirty_in self.old.kept) n → shown (D.image self.new.disk) self.new.kept n ≡ shown (D.image self.old.disk) self.old.kept n }
        ensures clean { D.tells → dirty_of (dirty_in self.old.kept) n ≡ None → shown (D.image self.new.disk) self.new.kept n ≡ page_of (D.image self.new.disk) n }
        ensures bytes { OnOk result (D.tells → dirty_of (dirty_in self.old.kept) n ≡ None → shown (D.image self.new.disk) self.new.kept n ≡ page.now.0) }
        ensures dirty { dirty_in self.new.kept ≡ dirty_in self.old.kept }
        ensures held { OnOk result (held_in self.new.kept ≡ held_in self.old.kept) }
        ensures let_go { OnErr result (held_in self.new.kept ≡ []) }
        ensures keeps { (q : ℕ) → IsDirty (dirty_in self.old.kept) q ⊎ ((n ≢ q) × (is_among q (held_in self.new.kept) ≡ true)) → cached self.new.kept q ≡ cached self.old.kept q }
        ensures blocks { self.new.blocks ≡ self.old.blocks }
        ensures count { D.page_count self.new.disk ≡ D.page_count self.old.disk }
        ensures room { D.room self.new.disk ≡ D.room self.old.disk }
    {
        match self.disk.write(n, page) {
            Ok(()) => {
                self.kept.put_clean(n, page);
                Ok(())
            }
            Err(_) => {
                self.kept.drop_clean(n);
                Err(self.fault())
            }
        }
    }

    /// Syncs the disk. It takes no memory.
    ///
    /// # Errors
    ///
    /// The device failed.
    pub fn sync(&mut self) -> Result<(), Fault>
        ensures cause { HasFault (D.fault_count self.old.disk) (D.fault_count self.new.disk) result }
        ensures syncs { Syncs D.tells D.tells_crashes (D.image self.old.disk) (D.image self.new.disk) (D.past self.old.disk) (D.past self.new.disk) result }
        ensures kept { self.new.kept ≡ self.old.kept }
        ensures blocks { self.new.blocks ≡ self.old.blocks }
        ensures count { D.page_count self.new.disk ≡ D.page_count self.old.disk }
        ensures room { D.room self.new.disk ≡ D.room self.old.disk }
    {
        match self.disk.sync() {
            Ok(()) => Ok(()),
            Err(_) => Err(self.fault()),
        }
    }
}
