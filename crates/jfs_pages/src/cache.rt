//! The page cache.

ghost use Rattle.std.specs.Prelude.{◌≡◌, ◌<◌, ◌≤◌, ◌^◌, ℕ, None, IsSome, length};
ghost use Rattle.jfs_disk.specs.Image.{page_of};
ghost use Rattle.jfs_pages.specs.Dirty.{dirty_of};
ghost use Rattle.jfs_pages.specs.Kept.{cached, dirty_in, held_in, shown};

use crate::dirty::Dirty;
use crate::kept::Kept;
use jfs_disk::{Disk, Fault, Page, Part};
use jfs_ranges::Tx;
use std::alloc::Global;

/// The pages of a file system part, over the disk that holds them: what was read, and what changed since, in memory alone
/// until a page goes home. It keeps every page that it read, in an ordered map, so that it finds a page in O(log n).
///
/// Entries are counted from 1, and a later call has a greater number.
#[derive(Drop)]
pub struct PageCache<D: Disk> {
    pub(crate) alloc: Global,
    pub(crate) disk: D,
    pub(crate) blocks: u32,
    pub(crate) kept: Kept,
    ghost few: { blocks < 2 ^ 32 },
    ghost place: { blocks ≤ D.page_count disk },
    ghost within: { (n : ℕ) → IsSome (cached kept n) → n < blocks },
    ghost clean: { D.tells → (n : ℕ) → dirty_of (dirty_in kept) n ≡ None → shown (D.image disk) kept n ≡ page_of (D.image disk) n },
}

impl<D: Disk> PageCache<D> {
    ghost use Rattle.std.specs.Prelude.{[], ◌&&◌, ◌||◌, ◌==◌, Some, IfSome, not, true, if◌then◌else◌, option_map, slice_get};
    ghost use Rattle.jfs_disk.specs.declared.disk.Part.TheVariants.{Low};
    ghost use Rattle.jfs_ranges.specs.Apply.{apply_tx, touches_tx};
    ghost use Rattle.jfs_pages.specs.Dirty.{IsDirty, IsRising, touched_by, is_among};

    /// A cache of the first `blocks` pages of a disk. It has read none yet, and takes no memory.
    pub fn new(alloc: Global, disk: D, blocks: u32) -> PageCache<D>
        requires { blocks ≤ D.page_count disk }
        ensures disk { (result.disk ≡ disk) × (result.blocks ≡ blocks) }
        ensures dirty { dirty_in result.kept ≡ [] }
        ensures held { held_in result.kept ≡ [] }
        ensures pages { (q : ℕ) → shown (D.image result.disk) result.kept q ≡ page_of (D.image disk) q }
    {
        PageCache {
            alloc,
            disk,
            blocks,
            kept: Kept::new(alloc),
        }
    }

    /// The number of blocks of the file system part.
    pub fn blocks(&self) -> u32
        ensures { result ≡ self.now.blocks }
    {
        self.blocks
    }

    /// The `i`-th dirty page, from 0 and by rising number, and `None` exactly where there is none. It is found at once.
    pub fn dirty_at(&self, i: u32) -> Option<Dirty>
        ensures page { result ≡ slice_get (dirty_in self.now.kept) i }
        ensures found { IfSome result (λ dirty. dirty_of (dirty_in self.now.kept) dirty.page ≡ Some dirty) }
        ensures rising { IsRising (dirty_in self.now.kept) }
    {
        self.kept.dirty_at(i as usize)
    }

    /// How many pages are dirty.
    pub fn dirty_count(&self) -> usize
        ensures { result ≡ length (dirty_in self.now.kept) }
    {
        self.kept.dirty_count()
    }

    /// Page `n`, where it is dirty, and `None` exactly where it isn't. It is found in O(log n).
    pub fn dirty_page(&self, n: u32) -> Option<Dirty>
        ensures { result ≡ dirty_of (dirty_in self.now.kept) n }
    {
        self.kept.dirty(n)
    }

    /// Hands back the disk.
    pub fn into_disk(self) -> D
        ensures { result ≡ self.disk }
    {
        let PageCache {
            alloc: _,
            disk,
            blocks: _,
            kept: _,
        } = self;
        disk
    }

    /// Entry `entry` changes pages by a transaction, and the sets that the map pages in `maps` tell of. All of these pages are
    /// held. Nothing goes to the disk, and it takes no memory.
    pub fn edit(&mut self, tx: &Tx, maps: &[u32], entry: u64)
        requires held { (n : ℕ) → touches_tx n tx.now ≡ true → is_among n (held_in self.old.kept) ≡ true }
        requires maps { (n : ℕ) → is_among n maps.now ≡ true → is_among n (held_in self.old.kept) ≡ true }
        ensures disk { (self.new.disk ≡ self.old.disk) × (self.new.blocks ≡ self.old.blocks) }
        ensures kept { (q : ℕ) → cached self.new.kept q ≡ option_map (apply_tx q tx.now) (cached self.old.kept q) }
        ensures pages { D.tells → (q : ℕ) → q < self.old.blocks
            → shown (D.image self.new.disk) self.new.kept q ≡ apply_tx q tx.now (shown (D.image self.old.disk) self.old.kept q) }
        ensures dirty { (q : ℕ) → dirty_of (dirty_in self.new.kept) q
            ≡ touched_by (touches_tx q tx.now || is_among q maps.now) q entry (dirty_of (dirty_in self.old.kept) q) }
        ensures held { held_in self.new.kept ≡ held_in self.old.kept }
    {
        self.kept.edit_all(tx, entry);
        self.kept.mark_all(maps, entry);
    }

    /// A dirty page of a map gets its canonical bytes before it goes home. It takes no memory.
    pub fn refresh(&mut self, n: u32, page: &Page)
        requires { IsDirty (dirty_in self.old.kept) n }
        ensures disk { (self.new.disk ≡ self.old.disk) × (self.new.blocks ≡ self.old.blocks) }
        ensures kept { (q : ℕ) → cached self.new.kept q ≡ (if n == q then option_map (λ _. page.now.0) (cached self.old.kept q) else cached self.old.kept q) }
        ensures pages { (q : ℕ) → shown (D.image self.new.disk) self.new.kept q ≡ (if n == q then page.now.0 else shown (D.image self.old.disk) self.old.kept q) }
        ensures dirty { dirty_in self.new.kept ≡ dirty_in self.old.kept }
        ensures held { held_in self.new.kept ≡ held_in self.old.kept }
    {
        self.kept.put(n, page);
    }

    /// A dirty page is dropped with its changes, since its block is free: it isn't dirty any more, and isn't held. `get` then
    /// gives what the disk holds. It takes no memory.
    pub fn forget(&mut self, n: u32)
        requires { IsDirty (dirty_in self.old.kept) n }
        ensures disk { (self.new.disk ≡ self.old.disk) × (self.new.blocks ≡ self.old.blocks) }
        ensures kept { (q : ℕ) → cached self.new.kept q ≡ (if n == q then None else cached self.old.kept q) }
        ensures pages { (q : ℕ) → shown (D.image self.new.disk) self.new.kept q
            ≡ (if n == q then page_of (D.image self.old.disk) n else shown (D.image self.old.disk) self.old.kept q) }
        ensures dirty { (q : ℕ) → dirty_of (dirty_in self.new.kept) q ≡ (if n == q then None else dirty_of (dirty_in self.old.kept) q) }
        ensures held { (q : ℕ) → is_among q (held_in self.new.kept) ≡ (not (n == q) && is_among q (held_in self.old.kept)) }
    {
        self.kept.forget(n);
    }

    /// The fault of a device call that just failed.
    pub(crate) fn fault(&self) -> Fault
        ensures { result ≡ record { part = Low; count = D.fault_count self.now.disk } }
    {
        Fault {
            part: Part::Low,
            count: self.disk.faults(),
        }
    }
}
