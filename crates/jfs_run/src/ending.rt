//! The end of a mounted volume.

ghost use Rattle.std.specs.Prelude.{◌≡◌, ◌⊎◌, ◌≤◌, ◌<◌, ◌+◌, ◌-◌, ◌^◌, ◌++◌, min, true, false};
ghost use Rattle.jfs_bits.specs.Count.{Rose};
ghost use Rattle.jfs_disk.specs.Crash.{IsCrashImage, Leaves, last_of};
ghost use Rattle.jfs_disk.specs.Image.{Image};
ghost use Rattle.jfs_disk.specs.Moment.{IsResting};
ghost use Rattle.jfs_server.specs.groups.specs.Start.{Grows};
ghost use Rattle.jfs_server.specs.shared.specs.legal.specs.served.specs.unmount.specs.Unmount.{IsAllHome, IsMarkedLeft, MayBeMarked};
ghost use Rattle.jfs_server.specs.shared.specs.legal.specs.served.specs.volume_calls.specs.Together.{log_parts};
ghost use Rattle.jfs_run.specs.Run.{seen};
ghost use Rattle.jfs_run.specs.Ending.{IsEnded};

use jfs_disk::{Disk, Page};
use jfs_server::unmount::{Mounted, leave, unmount};

/// Hands back the disk of a volume in one piece: unmounted and synced, where all its pages are home, and else as it is. `superblock` is page 8 as it was when the volume was mounted. It takes no memory.
pub fn end<D: Disk>(m: Mounted<D>, superblock: &Page, is_home: bool) -> D
    requires home { is_home ≡ true → IsAllHome m.volume }
    requires there { 8 < m.volume.count }
    requires room { m.volume.count + D.page_count m.log.part ≤ m.volume.room }
    ensures pages { D.page_count result ≡ m.volume.count + D.page_count m.log.part }
    ensures faults { Grows (min (m.volume.faults + D.fault_count m.log.part) (2 ^ 64 - 1)) (D.fault_count result) }
    ensures ended { is_home ≡ true →
        Rose (min (m.volume.faults + D.fault_count m.log.part) (2 ^ 64 - 1)) (D.fault_count result)
        ⊎ IsEnded D.tells D.tells_crashes superblock.now.0 (min (m.volume.faults + D.fault_count m.log.part) (2 ^ 64 - 1)) (seen D.Disk result) }
    ensures marked { D.tells → is_home ≡ true →
        Rose (min (m.volume.faults + D.fault_count m.log.part) (2 ^ 64 - 1)) (D.fault_count result)
        ⊎ IsMarkedLeft superblock.now.0 m.volume (D.image result) }
    // What a crash may leave of a volume that wasn't unmounted is what it may leave of both parts.
    ensures left { D.tells_crashes → is_home ≡ false → last_of (D.past result) ≡ last_of m.volume.past ++ last_of (D.past m.log.part) }
    // And of one that was, or couldn't be, it is that, or an image with the superblock's page and all pages that the volume shows.
    ensures crash { D.tells → D.tells_crashes → is_home ≡ true → IsResting (last_of m.volume.past) → Leaves (MayBeMarked superblock.now.0 m.volume (log_parts D.Disk m.log)) (last_of (D.past result)) }
{
    if !is_home {
        return leave(m);
    }
    match unmount(m, superblock) {
        Ok(disk) => settle(disk),
        Err(unended) => unended.disk,
    }
}

/// Syncs a disk whose parts were joined. A sync that fails is counted.
fn settle<D: Disk>(disk: D) -> D
    ensures pages { D.page_count result ≡ D.page_count disk }
    ensures image { D.tells → D.image result ≡ D.image disk }
    ensures settled { Rose (D.fault_count disk) (D.fault_count result) ⊎ ((D.fault_count result ≡ D.fault_count disk) × (D.tells_crashes → IsResting (last_of (D.past result)))) }
    // A crash leaves nothing then that it couldn't have left before.
    ensures crash { D.tells_crashes → (left : Image) → IsCrashImage (last_of (D.past result)) left → IsCrashImage (last_of (D.past disk)) left }
{
    let mut disk = disk;
    match disk.sync() {
        Ok(()) => {}
        Err(_) => {}
    }
    disk
}
