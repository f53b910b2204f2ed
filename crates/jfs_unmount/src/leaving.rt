//! A mounted volume whose disk is handed back as it is.

ghost use Rattle.std.specs.Prelude.{◌≡◌, ◌≤◌, ◌+◌, ◌-◌, ◌++◌, ◌^◌, min};
ghost use Rattle.jfs_disk.specs.Crash.{last_of};

use jfs_disk::Disk;
use jfs_mounted::Mounted;

/// Hands back the disk in one piece, as it is, without a device call: what is dirty is lost, and the superblock goes on saying that the volume is mounted. It takes no memory.
pub fn leave<D: Disk>(m: Mounted<D>) -> D
    requires { m.volume.count + D.page_count m.log.part ≤ m.volume.room }
    ensures pages { D.page_count result ≡ m.volume.count + D.page_count m.log.part }
    ensures faults { D.fault_count result ≡ min (m.volume.faults + D.fault_count m.log.part) (2 ^ 64 - 1) }
    ensures image { D.tells → D.image result ≡ m.volume.disk ++ D.image m.log.part }
    // What a crash may leave of it is what it may leave of both parts.
    ensures state { D.tells_crashes → last_of (D.past result) ≡ last_of m.volume.past ++ last_of (D.past m.log.part) }
{
    let Mounted { volume, log } = m;
    jfs_volume_calls::leave(volume, log)
}
