//! All pages go home, and are synced.

ghost use Rattle.std.specs.Prelude.{◌≡◌, ◌<◌, ◌≤◌, ◌+◌, ◌*◌, ◌^◌, ◌∷◌, [], ℕ, OnOk, None, ◌==◌, ◌&&◌};
ghost use Rattle.jfs_pages.specs.Device.{HasFault};
ghost use Rattle.jfs_pages.specs.Dirty.{dirty_of, IsDirty};
ghost use Rattle.jfs_halves.specs.Parts.{OfEachHalf};
ghost use Rattle.jfs_halves.specs.Change.{Points, Takes, Knows, MayPoint};
ghost use Rattle.jfs_halves.specs.Moves.{Moves};
ghost use Rattle.jfs_volume.specs.Settle.{AllHome, OneHome, SyncIs, KeepsCounts};
ghost use Rattle.jfs_volume.specs.Settles.{HomesAlone, HaltsAt};

use crate::volume::Volume;
use jfs_disk::{Disk, Fault};
use jfs_pages::HomeError;

impl<D: Disk> Volume<D> {
    /// Writes each dirty page to its home, the lowest first. It takes no memory.
    ///
    /// # Errors
    ///
    /// A write failed: the pages before it are home, it and those behind it stay dirty, and the volume halts.
    pub fn home_all(&mut self) -> Result<(), Fault>
        requires { self.old.told ≡ self.old.appended }
        ensures home { OfEachHalf D.tells D.tells_crashes self.old (λ seen asked half. AllHome seen asked self.old self.new half result) }
        ensures clean { OnOk result ((p : ℕ) → dirty_of self.new.dirty p ≡ None) }
        ensures counts { KeepsCounts self.old self.new }
        ensures alone { HomesAlone D.tells self.old self.new }
        ensures halts { HaltsAt self.old.halted self.new.halted result }
        ensures halted { OnOk result (self.new.halted ≡ self.old.halted) }
        ensures cause { HasFault self.old.faults self.new.faults result }
    {
        for _n in 0..self.cache.blocks() {
            match self.home_lowest() {
                Ok(()) => {}
                Err(fault) => return Err(fault),
            }
        }
        self.has_dirty_within();
        Ok(())
    }

    /// Only pages of the file system part are dirty.
    fn has_dirty_within(&self)
        ensures { (q : ℕ) → IsDirty self.now.dirty q → q < self.now.blocks }
    {
        let _ = &self.cache;
    }

    /// Writes the lowest dirty page to its home, where there is one.
    fn home_lowest(&mut self) -> Result<(), Fault>
        requires { self.old.told ≡ self.old.appended }
        ensures home { OfEachHalf D.tells D.tells_crashes self.old (λ seen asked half. OneHome seen asked self.old self.new half result) }
        ensures lowest { OnOk result ((n : ℕ) → ((q : ℕ) → IsDirty self.old.dirty q → n ≤ q) → (q : ℕ) → IsDirty self.new.dirty q → n < q) }
        ensures counts { KeepsCounts self.old self.new }
        ensures alone { HomesAlone D.tells self.old self.new }
        ensures halts { HaltsAt self.old.halted self.new.halted result }
        ensures halted { OnOk result (self.new.halted ≡ self.old.halted) }
        ensures cause { HasFault self.old.faults self.new.faults result }
    {
        match self.cache.dirty_at(0) {
            None => Ok(()),
            Some(dirty) => match self.home_one(dirty.page) {
                Ok(()) => Ok(()),
                Err(HomeError::WriteFault(fault)) => Err(fault),
                Err(HomeError::NotYet { .. }) => unreachable!(),
            },
        }
    }

    /// Syncs the low part. It takes no memory.
    ///
    /// # Errors
    ///
    /// The sync failed, and the volume halts.
    pub fn sync_low(&mut self) -> Result<(), Fault>
        ensures sync { OfEachHalf D.tells D.tells_crashes self.old (λ seen asked half. SyncIs seen asked self.old self.new half result) }
        ensures kept { self.new.dirty ≡ self.old.dirty }
        ensures counts { KeepsCounts self.old self.new }
        ensures alone { HomesAlone D.tells self.old self.new }
        ensures halts { HaltsAt self.old.halted self.new.halted result }
        ensures halted { OnOk result (self.new.halted ≡ self.old.halted) }
        ensures cause { HasFault self.old.faults self.new.faults result }
    {
        match self.cache.sync() {
            Ok(()) => Ok(()),
            Err(fault) => {
                self.halt(fault);
                Err(fault)
            }
        }
    }
}
