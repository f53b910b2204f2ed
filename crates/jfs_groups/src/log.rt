//! The log side as a value that a turn guards.
ghost use Rattle.std.specs.Prelude.{◌≡◌, ◌≤◌, ◌+◌, ◌*◌, ◌^◌, length, None, OnOk, IfErr};
ghost use Rattle.jfs_bits.specs.Count.{Rose};
ghost use Rattle.jfs_logpages.specs.Group.{pages_of, room_of, position_of};
ghost use Rattle.jfs_groups.specs.Log.{data_of};
ghost use Rattle.jfs_groups.specs.Written.{IsGroupWritten, IsGroupLost};

use crate::collected::HasRecords;
use jfs_disk::Disk;
use jfs_logpages::{GroupText, LogFault, LogSide};
use jfs_turns::Stands;

/// A log side, and how many of the volume's syncpoints are stable in it. Whoever writes a SYNCPT counts it.
#[derive(Drop)]
pub struct SharedLog<D: Disk> {
    pub side: LogSide<D>,
    pub points: u64,
}

impl<D: Disk, E: HasRecords> Stands<E> for SharedLog<D> {
    ghost use Rattle.jfs_groups.specs.Log.{standing};

    ghost stands = { standing D.Disk E.logs E.start };

    ghost count = { λ y. y.points };

    fn syncpoints(&self) -> u64 {
        self.points
    }
}

impl<D: Disk> SharedLog<D> {
    /// Writes a group at the log's end, and syncs.
    pub fn write(&mut self, group: &GroupText) -> Result<(), LogFault>
        requires running { self.old.side.halted ≡ None }
        requires room { pages_of (length group.now.bytes.items) ≤ room_of self.old.side.last.ring }
        requires later { self.old.side.durable ≤ group.now.last }
        requires numbers { position_of self.old.side.last + length group.now.bytes.items ≤ 4080 * 2 ^ 32 }
        ensures written { OnOk result (IsGroupWritten D.tells D.tells_crashes group.now (data_of D.Disk self.old) (data_of D.Disk self.new)) }
        ensures lost { IfErr result (λ why. IsGroupLost D.tells D.tells_crashes group.now why.fault (data_of D.Disk self.old) (data_of D.Disk self.new)) }
        // The count of faults rises with a fault alone.
        ensures quiet { OnOk result (D.fault_count self.new.side.part ≡ D.fault_count self.old.side.part) }
        ensures rose { IfErr result (λ why. Rose (D.fault_count self.old.side.part) (D.fault_count self.new.side.part)) }
        ensures pages { D.page_count self.new.side.part ≡ D.page_count self.old.side.part }
    {
        match self.side.write_group(group) {
            Ok(()) => Ok(()),
            Err(why) => Err(why),
        }
    }
}
