//! A volume whose log has halted.

ghost use Rattle.std.specs.Prelude.{◌≡◌};
ghost use Rattle.jfs_groups.specs.Group.{Halts};
ghost use Rattle.jfs_kept_history.specs.legal.specs.served.specs.crash_core.specs.Step.{halted_by};
ghost use Rattle.jfs_shared.specs.Shared.{Stands, marked_by, standing};

use crate::shared::SharedVolume;
use jfs_disk::{Disk, Fault};

impl<D: Disk> SharedVolume<D> {
    /// The log has halted by this fault, and so does the volume, unless it has halted before.
    pub(crate) fn halt_for_log(&mut self, fault: Fault)
        requires stands { Stands D.Disk self.old }
        ensures halts { Halts (standing D.Disk) (λ v. v.points) self.old self.new }
        ensures volume { self.new.volume ≡ record self.old.volume { halted = halted_by fault self.old.volume.halted } }
        ensures points { self.new.points ≡ marked_by self.old.volume.halted self.old.points }
        ensures breaks { self.new.is_broken_off ≡ self.old.is_broken_off }
    {
        if self.volume.halted().is_some() {
            return;
        }
        // Each syncpoint takes 36 bytes of the log's text, whose end has 64 bits: one more can be counted.
        let _ = self.volume.text_end();
        self.points += 1;
        self.volume.halt(fault);
    }
}
