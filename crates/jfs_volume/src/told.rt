//! What becomes of pages that acknowledged entries freed.

ghost use Rattle.std.specs.Prelude.{◌≡◌, ◌≤◌, ◌==◌, ◌∷◌, [], ℕ, true, false, if◌then◌else◌, Some, None, slice_get, length};
ghost use Rattle.jfs_disk.specs.Image.{page_of};
ghost use Rattle.jfs_bmap.specs.States.{blocks_settled};
ghost use Rattle.jfs_pages.specs.Dirty.{dirty_of};
ghost use Rattle.jfs_halves.specs.declared.freed.FreedPage.{FreedPage as Freed};
ghost use Rattle.jfs_halves.specs.Parts.{OfEachHalf, IsFreed};
ghost use Rattle.jfs_halves.specs.Change.{Drops};
ghost use Rattle.jfs_halves.specs.Moves.{Moves};
ghost use Rattle.jfs_volume.specs.Settles.{is_freed};
ghost use Rattle.jfs_volume.specs.Told.{AreLater, IsDropped, AreDropped, MayBeDropped, StaysOrGoes, still_freed};

use crate::volume::Volume;
use jfs_disk::Disk;
use jfs_halves::FreedPage;

/// Only the pages that entries past `n` freed stay.
fn keep_later(freed: &mut Vec<FreedPage>, n: u64)
    ensures { freed.new.items ≡ still_freed n freed.old.items }
{
    freed.retain(|freed| freed.by_entry > n);
}

impl<D: Disk> Volume<D> {
    /// The first `n` entries are acknowledged, and what they freed isn't busy any more.
    pub(crate) fn acknowledge(&mut self, n: u64)
        requires { n ≤ self.old.taken }
        ensures { self.new ≡ record self.old { told = n; map = blocks_settled n self.old.map } }
    {
        self.told = n;
        self.maps.blocks.settle(n);
    }

    /// The pages that the first `n` entries freed aren't kept any more.
    pub(crate) fn forget_freed(&mut self, n: u64)
        requires { n ≤ self.old.told }
        ensures { self.new ≡ record self.old { freed = still_freed n self.old.freed } }
    {
        keep_later(&mut self.freed, n);
        self.forgotten = n;
    }

    /// Whether it is known that none of the first `n` entries freed a page that is kept.
    pub(crate) fn are_forgotten(&self, n: u64) -> bool
        ensures later { result ≡ true → AreLater n self.now.freed }
    {
        n <= self.forgotten
    }

    pub(crate) fn freed_count(&self) -> usize
        ensures { result ≡ length self.now.freed }
    {
        self.freed.len()
    }

    fn freed_at(&self, i: usize) -> Option<FreedPage>
        ensures { result ≡ slice_get self.now.freed i }
    {
        self.freed.get(i).copied()
    }

    /// Drops the `i`-th page that an entry freed, where that entry is acknowledged, the page is dirty and no later entry changed it.
    pub(crate) fn drop_at(&mut self, i: usize)
        ensures drop { OfEachHalf D.tells D.tells_crashes self.old (λ seen asked half. AreDropped seen asked self.old self.new half) }
        ensures gone { (f : Freed) → slice_get self.old.freed i ≡ Some f → f.by_entry ≤ self.old.told → MayBeDropped f (dirty_of self.new.dirty f.page) → ⊥ }
        ensures others { (q : ℕ) → StaysOrGoes (dirty_of self.old.dirty q) (dirty_of self.new.dirty q) }
        ensures parts { self.new ≡ record self.old { view = self.new.view; dirty = self.new.dirty } }
        ensures shows { D.tells → (q : ℕ) → is_freed self.old.freed q ≡ false → page_of self.new.view q ≡ page_of self.old.view q }
    {
        if let Some(freed) = self.freed_at(i) {
            self.drop_freed(freed);
        }
    }

    /// Drops a page that an acknowledged entry freed, where it is dirty and no later entry changed it.
    fn drop_freed(&mut self, freed: FreedPage)
        ensures drop { OfEachHalf D.tells D.tells_crashes self.old (λ seen asked half. IsFreed half.history freed → IsDropped seen asked freed.page self.old self.new half) }
        ensures gone { freed.by_entry ≤ self.old.told → MayBeDropped freed (dirty_of self.new.dirty freed.page) → ⊥ }
        ensures others { (q : ℕ) → StaysOrGoes (dirty_of self.old.dirty q) (dirty_of self.new.dirty q) }
        ensures parts { self.new ≡ record self.old { view = self.new.view; dirty = self.new.dirty } }
        ensures shows { D.tells → (q : ℕ) → (freed.page == q) ≡ false → page_of self.new.view q ≡ page_of self.old.view q }
    {
        if freed.by_entry > self.told {
            return;
        }
        if let Some(dirty) = self.cache.dirty_page(freed.page) {
            if dirty.last <= freed.by_entry {
                self.drop_page(freed);
            }
        }
    }

    /// Drops a dirty page that an acknowledged entry freed, and that no later entry changed.
    fn drop_page(&mut self, freed: FreedPage)
        requires may { MayBeDropped freed (dirty_of self.old.dirty freed.page) }
        requires told { freed.by_entry ≤ self.old.told }
        ensures drop { OfEachHalf D.tells D.tells_crashes self.old (λ seen asked half. IsFreed half.history freed → Moves seen asked self.old self.new half (Drops freed.page ∷ [])) }
        ensures dirty { (q : ℕ) → dirty_of self.new.dirty q ≡ (if freed.page == q then None else dirty_of self.old.dirty q) }
        ensures parts { self.new ≡ record self.old { view = self.new.view; dirty = self.new.dirty } }
        ensures shows { D.tells → (q : ℕ) → (freed.page == q) ≡ false → page_of self.new.view q ≡ page_of self.old.view q }
    {
        self.cache.forget(freed.page);
    }
}
