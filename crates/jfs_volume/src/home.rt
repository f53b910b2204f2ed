//! Pages that go home.

ghost use Rattle.std.specs.Prelude.{◌≡◌, ◌==◌, ℕ, OnOk, None, if◌then◌else◌};
ghost use Rattle.jfs_pages.specs.Device.{GoesHome as GoesHomeBy};
ghost use Rattle.jfs_pages.specs.Dirty.{IsDirty, dirty_of, last_of};
ghost use Rattle.jfs_halves.specs.crash_core.specs.Step.{halted_by};
ghost use Rattle.jfs_halves.specs.Parts.{OfEachHalf};
ghost use Rattle.jfs_volume.specs.Home.{HomeIs};
ghost use Rattle.jfs_volume.specs.Settles.{HomesAlone, HomeHalts};

use crate::volume::Volume;
use jfs_disk::{Disk, Fault};
use jfs_pages::HomeError;

impl<D: Disk> Volume<D> {
    /// Writes a dirty page to its home. It takes no memory.
    ///
    /// # Errors
    ///
    /// `NotYet`, exactly where an entry that changed the page isn't acknowledged; then nothing changes. Or the write failed: the page stays dirty, and the volume halts.
    pub fn home_one(&mut self, n: u32) -> Result<(), HomeError>
        requires { IsDirty self.old.dirty n }
        ensures home { OfEachHalf D.tells D.tells_crashes self.old (λ seen asked half. HomeIs seen asked n self.old self.new half result) }
        ensures cause { GoesHomeBy (last_of (dirty_of self.old.dirty n)) self.old.told self.old.faults self.new.faults result }
        ensures counts { (self.new.told ≡ self.old.told) × (self.new.appended ≡ self.old.appended) × (self.new.taken ≡ self.old.taken) × (self.new.blocks ≡ self.old.blocks) × (self.new.points ≡ self.old.points) × (self.new.text ≡ self.old.text)
            × (self.new.count ≡ self.old.count) × (self.new.room ≡ self.old.room) }
        ensures alone { HomesAlone D.tells self.old self.new }
        ensures halts { HomeHalts self.old.halted self.new.halted result }
        ensures halted { OnOk result (self.new.halted ≡ self.old.halted) }
        ensures dirty { OnOk result ((q : ℕ) → dirty_of self.new.dirty q ≡ (if n == q then None else dirty_of self.old.dirty q)) }
    {
        match self.cache.home(n, self.told) {
            Ok(()) => Ok(()),
            Err(HomeError::NotYet { lsn, told }) => Err(HomeError::NotYet { lsn, told }),
            Err(HomeError::WriteFault(fault)) => {
                self.halt(fault);
                Err(HomeError::WriteFault(fault))
            }
        }
    }

    /// The volume halts at this fault; where it has halted before, it keeps the first one. It takes no memory.
    pub fn halt(&mut self, fault: Fault)
        ensures halted { self.new ≡ record self.old { halted = halted_by fault self.old.halted } }
    {
        if self.halted.is_none() {
            self.halted = Some(fault);
        }
    }
}
