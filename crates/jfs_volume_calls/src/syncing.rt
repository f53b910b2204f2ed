//! A syncpoint.

ghost use Rattle.std.specs.Prelude.{◌≡◌, ◌≤◌, ◌<◌, ◌+◌, ◌*◌, ◌^◌, [], ℕ, length, OnOk, None};
ghost use Rattle.jfs_volume.specs.pages.specs.Dirty.{dirty_of};
ghost use Rattle.jfs_volume.specs.halves.specs.Change.{MayPoint};
ghost use Rattle.jfs_volume.specs.Settles.{Settles, StaysShown, HaltsAt};
ghost use Rattle.jfs_volume_calls.specs.Halts.{PointParts};
ghost use Rattle.jfs_volume_calls.specs.Together.{AreTogether, OfBothHalves, log_parts};
ghost use Rattle.jfs_volume_calls.specs.Syncpoint.{SyncpointIs, PointIs, HasFaultOfEither, HasPointFault};
ghost use Rattle.jfs_volume_calls.specs.Written.{LeavesMaps, WritesMaps};

use crate::committing::commit;
use crate::point::PointText;
use jfs_disk::{Disk, Fault};
use jfs_logpages::LogSide;
use jfs_volume::Volume;

/// Makes all entries so far durable, writes every dirty page and the pages of each map that has changed to their homes, syncs these, and then logs a SYNCPT: redo needs nothing before it. It takes no memory.
///
/// # Errors
///
/// A write or a sync of either part failed, and the volume halts.
pub fn syncpoint<D: Disk>(
    volume: &mut Volume<D>,
    log: &mut LogSide<D>,
    point: &mut PointText,
) -> Result<(), Fault>
    requires together { AreTogether volume.old (log_parts D.Disk log.old) }
    requires running { volume.old.halted ≡ None }
    requires room { volume.old.text.place + length volume.old.text.bytes + 72 ≤ 4080 * 2 ^ 32 }
    ensures syncpoint { OfBothHalves D.tells D.tells_crashes volume.old (log_parts D.Disk log.old)
        (λ seen asked both. SyncpointIs seen asked volume.old volume.new (log_parts D.Disk log.new) both result) }
    ensures clean { OnOk result ((p : ℕ) → dirty_of volume.new.dirty p ≡ None) }
    ensures together { OnOk result (AreTogether volume.new (log_parts D.Disk log.new)) }
    ensures counts { OnOk result ((volume.new.appended ≡ volume.old.appended) × (volume.new.told ≡ volume.new.appended) × (volume.new.known ≡ volume.new.points)) }
    ensures halted { OnOk result (volume.new.halted ≡ volume.old.halted) }
    ensures settles { Settles volume.old volume.new }
    // Also where it failed, pages stay but for those that entries freed, and those of the maps.
    ensures shown { StaysShown D.tells volume.old volume.new }
    ensures leaves { D.tells → LeavesMaps volume.old volume.new }
    ensures maps { OnOk result (D.tells → WritesMaps volume.old volume.new) }
    ensures halts { HaltsAt volume.old.halted volume.new.halted result }
    ensures text { OnOk result (volume.new.text.bytes ≡ []) }
    ensures disk { (volume.new.count ≡ volume.old.count) × (volume.new.room ≡ volume.old.room) × (D.page_count log.new.part ≡ D.page_count log.old.part) }
    ensures cause { HasFaultOfEither volume.old.faults volume.new.faults (D.fault_count log.old.part) (D.fault_count log.new.part) result }
{
    match commit(volume, log) {
        Ok(()) => {}
        Err(why) => return Err(why.fault),
    }
    match volume.home_all() {
        Ok(()) => {}
        Err(fault) => return Err(fault),
    }
    match volume.home_maps() {
        Ok(()) => {}
        Err(fault) => return Err(fault),
    }
    match volume.sync_low() {
        Ok(()) => {}
        Err(fault) => return Err(fault),
    }
    write_point(volume, log, point)
}

/// Logs a SYNCPT behind all entries, each of which is acknowledged, home and synced.
fn write_point<D: Disk>(
    volume: &mut Volume<D>,
    log: &mut LogSide<D>,
    point: &mut PointText,
) -> Result<(), Fault>
    requires together { AreTogether volume.old (log_parts D.Disk log.old) }
    requires empty { volume.old.text.bytes ≡ [] }
    requires room { volume.old.text.place + 72 ≤ 4080 * 2 ^ 32 }
    requires told { volume.old.taken ≡ volume.old.appended }
    ensures point { OfBothHalves D.tells D.tells_crashes volume.old (log_parts D.Disk log.old)
        (λ seen asked both. MayPoint both.volume → PointIs seen asked volume.old volume.new (log_parts D.Disk log.new) both result) }
    ensures together { OnOk result (AreTogether volume.new (log_parts D.Disk log.new)) }
    ensures dirty { volume.new.dirty ≡ volume.old.dirty }
    ensures counts { (volume.new.appended ≡ volume.old.appended) × (volume.new.told ≡ volume.old.told) × (volume.new.faults ≡ volume.old.faults) }
    ensures known { OnOk result ((volume.new.known ≡ volume.new.points) × (volume.new.halted ≡ volume.old.halted)) }
    ensures parts { PointParts volume.old volume.new }
    ensures halts { HaltsAt volume.old.halted volume.new.halted result }
    ensures text { volume.new.text.bytes ≡ [] }
    ensures disk { (volume.new.count ≡ volume.old.count) × (volume.new.room ≡ volume.old.room) × (D.page_count log.new.part ≡ D.page_count log.old.part) }
    ensures cause { HasPointFault (D.fault_count log.old.part) (D.fault_count log.new.part) result }
{
    volume.take_point();
    point.reach(volume.appended());
    match log.write_group(&point.text) {
        Ok(()) => {
            volume.know_points();
            Ok(())
        }
        Err(why) => {
            volume.halt(why.fault);
            Err(why.fault)
        }
    }
}
