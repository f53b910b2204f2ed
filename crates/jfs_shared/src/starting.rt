//! A mounted volume begins to be shared.

ghost use Rattle.std.specs.Prelude.{◌≡◌, ◌<◌, ◌^◌, false};
ghost use Rattle.jfs_disk.specs.Image.{Image};
ghost use Rattle.jfs_super.specs.declared.fields.Super.{Super};
ghost use Rattle.jfs_kept_history.specs.legal.specs.served.specs.volume_calls.specs.Together.{log_parts};
ghost use Rattle.jfs_shared.specs.Shared.{standing, log_standing};
ghost use Rattle.jfs_shared.specs.Start.{IsJustMounted, StandsFresh, base_at};

use crate::point_group::PointGroup;
use crate::shared::SharedVolume;
use jfs_disk::Disk;
use jfs_groups::SharedLog;
use jfs_kept_history::unmount::Mounted;

/// A volume that was just mounted, and its log, as the values that two turns guard. Nothing has happened yet.
pub fn started<D: Disk>(m: Mounted<D>, point: PointGroup) -> (SharedVolume<D>, SharedLog<D>)
    ensures volume { (result.0.volume ≡ m.volume) × (result.0.points ≡ 0) × (result.0.is_broken_off ≡ false) }
    ensures log { (result.1.side ≡ m.log) × (result.1.points ≡ 0) }
    ensures stands { (s : Super) (image : Image) → IsJustMounted D.tells D.tells_crashes s image m.volume (log_parts D.Disk m.log) → m.volume.faults < 2 ^ 64 → D.fault_count m.log.part < 2 ^ 64 → StandsFresh (standing D.Disk) (log_standing D.Disk) (base_at s image m.volume (D.page_count m.log.part) (D.fault_count m.log.part)) result.0 result.1 }
{
    let Mounted { volume, log } = m;
    (
        SharedVolume {
            volume,
            point,
            points: 0,
            is_broken_off: false,
        },
        SharedLog {
            side: log,
            points: 0,
        },
    )
}
