//! A volume whose disk is handed back as it is.

ghost use Rattle.std.specs.Prelude.{◌≡◌, ◌≤◌, ◌+◌, ◌-◌, ◌++◌, ◌^◌, min};
ghost use Rattle.jfs_disk.specs.Crash.{last_of};

use jfs_disk::Disk;
use jfs_logpages::LogSide;
use jfs_volume::Volume;

/// Hands back the disk in one piece, as it is, without a device call: what is dirty is lost, and the superblock goes on saying that the volume is mounted. It takes no memory.
pub fn leave<D: Disk>(volume: Volume<D>, log: LogSide<D>) -> D
    requires { volume.count + D.page_count log.part ≤ volume.room }
    ensures pages { D.page_count result ≡ volume.count + D.page_count log.part }
    ensures faults { D.fault_count result ≡ min (volume.faults + D.fault_count log.part) (2 ^ 64 - 1) }
    ensures image { D.tells → D.image result ≡ volume.disk ++ D.image log.part }
    // What a crash may leave of it is what it may leave of both parts.
    ensures state { D.tells_crashes → last_of (D.past result) ≡ last_of volume.past ++ last_of (D.past log.part) }
{
    D::join(volume.into_low(), log.into_part())
}
