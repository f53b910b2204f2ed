//! Blocks that are written past the log.

ghost use Rattle.std.specs.Prelude.{◌≡◌, ◌<◌, OnOk, None, false};
ghost use Rattle.jfs_bmap.specs.States.{state_of, is_busy_state};
ghost use Rattle.jfs_pages.specs.Device.{HasFault};
ghost use Rattle.jfs_pages.specs.Dirty.{dirty_of};
ghost use Rattle.jfs_halves.specs.Parts.{OfEachHalf};
ghost use Rattle.jfs_volume.specs.Settles.{HaltsAt};
ghost use Rattle.jfs_volume.specs.Written.{WriteIs, IsWrittenOf};

use crate::volume::Volume;
use jfs_disk::{Disk, Fault, Page};

impl<D: Disk> Volume<D> {
    /// Writes a block past the log, of which no entry holds changes in memory. It takes no memory.
    ///
    /// # Errors
    ///
    /// The write failed, and the volume halts.
    pub fn write_block(&mut self, n: u32, page: &Page) -> Result<(), Fault>
        requires running { self.old.halted ≡ None }
        requires there { n < self.old.blocks }
        requires clean { dirty_of self.old.dirty n ≡ None }
        requires not_busy { is_busy_state (state_of self.old.map n) ≡ false }
        ensures writes { OfEachHalf D.tells D.tells_crashes self.old (λ seen asked half. WriteIs seen asked n page.now.0 self.old self.new half result) }
        ensures written { IsWrittenOf D.tells n page.now.0 self.old self.new result }
        ensures halts { HaltsAt self.old.halted self.new.halted result }
        ensures cause { HasFault self.old.faults self.new.faults result }
    {
        match self.cache.put(n, page) {
            Ok(()) => Ok(()),
            Err(fault) => {
                self.halt(fault);
                Err(fault)
            }
        }
    }
}
