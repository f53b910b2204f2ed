//! Groups of entries, and which entries are acknowledged.

ghost use Rattle.std.specs.Prelude.{◌≡◌, ◌≤◌, ◌+◌, ◌∷◌, [], ℕ, false, Some, slice_get, length};
ghost use Rattle.jfs_disk.specs.Image.{page_of};
ghost use Rattle.jfs_bmap.specs.States.{blocks_settled};
ghost use Rattle.jfs_pages.specs.Dirty.{dirty_of};
ghost use Rattle.jfs_halves.specs.declared.freed.FreedPage.{FreedPage as Freed};
ghost use Rattle.jfs_halves.specs.Parts.{OfEachHalf};
ghost use Rattle.jfs_halves.specs.Change.{Takes};
ghost use Rattle.jfs_halves.specs.Moves.{Moves};
ghost use Rattle.jfs_volume.specs.Room.{IsWithinRoom};
ghost use Rattle.jfs_volume.specs.Settles.{is_freed};
ghost use Rattle.jfs_volume.specs.Told.{IsTold, MayBeDropped, still_freed};

use crate::volume::Volume;
use jfs_disk::Disk;
use jfs_logpages::GroupText;

impl<D: Disk> Volume<D> {
    /// The records that no group has taken, as the text of one group; its last entry is the last one of the history. It takes no memory.
    pub fn take_group(&mut self) -> GroupText
        ensures text { (result.bytes.items ≡ self.old.text.bytes) × (result.ends.items ≡ self.old.text.ends) × (result.last ≡ self.old.text.last) }
        ensures last { (result.last ≡ self.old.appended) × (self.old.taken ≤ self.old.appended) }
        ensures room { IsWithinRoom self.old.text.ring self.old.text.sync self.old.text.place (length result.bytes.items) }
        ensures taken { OfEachHalf D.tells D.tells_crashes self.old (λ seen asked half. Moves seen asked self.old self.new half (Takes ∷ [])) }
        ensures parts { self.new ≡ record self.old { taken = self.old.appended; text = record self.old.text { place = self.old.text.place + length self.old.text.bytes; bytes = []; ends = [] } } }
    {
        self.taken = self.appended;
        self.text.take(self.alloc)
    }

    /// The first `n` entries are acknowledged: blocks that they freed aren't busy any more, and pages that they freed are dropped, unless a later entry changed them. It takes no memory.
    pub fn told(&mut self, n: u64)
        requires { (self.old.told ≤ n) × (n ≤ self.old.taken) }
        ensures told { OfEachHalf D.tells D.tells_crashes self.old (λ seen asked half. IsTold seen asked n self.old self.new half) }
        ensures dropped { (i : ℕ) (f : Freed) → slice_get self.old.freed i ≡ Some f → f.by_entry ≤ n → MayBeDropped f (dirty_of self.new.dirty f.page) → ⊥ }
        ensures shows { D.tells → (q : ℕ) → is_freed self.old.freed q ≡ false → page_of self.new.view q ≡ page_of self.old.view q }
        ensures parts { self.new ≡ record self.old { view = self.new.view; dirty = self.new.dirty; told = n; map = blocks_settled n self.old.map; freed = still_freed n self.old.freed } }
    {
        self.acknowledge(n);
        // a count that is told again walks no freed pages
        if self.are_forgotten(n) {
            return;
        }
        let count = self.freed_count();
        for i in 0..count {
            self.drop_at(i);
        }
        self.forget_freed(n);
    }

    /// All entries that groups have taken are acknowledged, as `told` does. It takes no memory.
    pub fn told_all(&mut self)
        ensures told { OfEachHalf D.tells D.tells_crashes self.old (λ seen asked half. IsTold seen asked self.old.taken self.old self.new half) }
        ensures shows { D.tells → (q : ℕ) → is_freed self.old.freed q ≡ false → page_of self.new.view q ≡ page_of self.old.view q }
        ensures parts { self.new ≡ record self.old {
          view = self.new.view;
          dirty = self.new.dirty;
          told = self.old.taken;
          map = blocks_settled self.old.taken self.old.map;
          freed = still_freed self.old.taken self.old.freed;
        } }
    {
        self.told(self.taken);
    }
}
