//! Where redo begins.

ghost use Rattle.std.specs.Prelude.{◌≡◌, true, ◌≤◌, ◌+◌, ◌*◌, ◌^◌, ◌∷◌, []};
ghost use Rattle.jfs_halves.specs.Parts.{OfEachHalf};
ghost use Rattle.jfs_halves.specs.Change.{Points, Takes, Knows, MayPoint};
ghost use Rattle.jfs_halves.specs.Moves.{Moves};
ghost use Rattle.jfs_volume.specs.Settle.{with_point, is_idle};

use crate::volume::Volume;
use jfs_disk::Disk;

impl<D: Disk> Volume<D> {
    /// Redo begins behind all entries so far: each is acknowledged, and each page is home and synced. The SYNCPT that says so is the next group, which is taken at once: its text is a record of its own. It takes no
    /// memory.
    pub fn take_point(&mut self)
        requires empty { self.old.text.bytes ≡ [] }
        requires room { self.old.text.place + 72 ≤ 4080 * 2 ^ 32 }
        ensures point { OfEachHalf D.tells D.tells_crashes self.old (λ seen asked half. MayPoint half → Moves seen asked self.old self.new half (Points ∷ Takes ∷ [])) }
        ensures parts { self.new ≡ with_point self.old }
    {
        self.points += 1;
        self.taken = self.appended;
        self.text.take_point();
    }

    /// All sync counts are known to be stable in the log.
    pub fn know_points(&mut self)
        ensures known { OfEachHalf D.tells D.tells_crashes self.old (λ seen asked half. Moves seen asked self.old self.new half (Knows ∷ [])) }
        ensures parts { self.new ≡ record self.old { known = self.old.points } }
    {
        self.known = self.points;
    }

    /// Whether groups have taken all entries.
    pub fn is_idle(&self) -> bool
        ensures idle { result ≡ is_idle self.now }
        ensures nothing { result ≡ true → self.now.text.bytes ≡ [] }
    {
        self.taken == self.appended
    }

    /// How many entries groups have taken.
    pub fn taken(&self) -> u64
        ensures { result ≡ self.now.taken }
    {
        self.taken
    }
}
