//! A syncpoint by whoever has both turns.

ghost use Rattle.std.specs.Prelude.{◌≡◌, ◌≤◌, ◌+◌, ◌*◌, ◌^◌, [], nat_le, length, OnOk, IfErr, None, Some};
ghost use Rattle.jfs_volume_calls.specs.Syncpoint.{HasFaultOfEither, HasPointFault};
ghost use Rattle.jfs_shared.specs.Both.{AreTogether, PointIs};
ghost use Rattle.jfs_kept_history.specs.legal.specs.served.specs.unmount.specs.Unmount.{IsAllHome};
ghost use Rattle.jfs_shared.specs.Settled.{AreSettled, LeavesPages, PointBehind, RestsBehind};
ghost use Rattle.jfs_shared.specs.Shared.{standing, log_standing};

use crate::committing::commit_with;
use crate::settling::settle;
use crate::shared::SharedVolume;
use jfs_disk::{Disk, Fault};
use jfs_groups::SharedLog;

/// The last end of a text behind which a syncpoint has room, so that the numbers of the log's pages have 32 bits.
const LAST_POINT: u64 = 4080 * 4_294_967_296 - 72;

/// Whether the log's pages have numbers for one more syncpoint.
pub fn has_room_for_point<D: Disk>(shared: &SharedVolume<D>) -> bool
    ensures { result ≡ nat_le (shared.now.volume.text.place + length shared.now.volume.text.bytes + 72) (4080 * 2 ^ 32) }
{
    shared.volume.text_end() <= LAST_POINT
}

/// Makes all entries so far durable, writes every dirty page and the pages of each map that has changed to their homes, syncs these, and then logs a SYNCPT: redo needs nothing before it. It takes no memory.
///
/// # Errors
///
/// A write or a sync of either part failed, and the volume halts. All entries are taken.
pub fn point_with<D: Disk>(
    shared: &mut SharedVolume<D>,
    log: &mut SharedLog<D>,
) -> Result<(), Fault>
    requires running { (log.old.side.halted ≡ None) × (shared.old.volume.halted ≡ None) }
    requires room { shared.old.volume.text.place + length shared.old.volume.text.bytes + 72 ≤ 4080 * 2 ^ 32 }
    requires together { AreTogether (standing D.Disk) (log_standing D.Disk) shared.old log.old }
    ensures point { PointIs (standing D.Disk) (log_standing D.Disk) shared.old log.old shared.new log.new result }
    // Every page is home then, and none waits to be synced.
    ensures home { OnOk result (IsAllHome shared.new.volume) }
    ensures rests { OnOk result (RestsBehind D.Disk shared.old log.old shared.new) }
    ensures goes_on { OnOk result ((log.new.side.halted ≡ None) × (shared.new.volume.halted ≡ None)) }
    ensures halts { IfErr result (λ fault. shared.new.volume.halted ≡ Some fault) }
    ensures breaks { shared.new.is_broken_off ≡ shared.old.is_broken_off }
    ensures cause { HasFaultOfEither shared.old.volume.faults shared.new.volume.faults (D.fault_count log.old.side.part) (D.fault_count log.new.side.part) result }
    ensures pages { D.page_count log.new.side.part ≡ D.page_count log.old.side.part }
{
    match commit_with(shared, log) {
        Ok(()) => {}
        Err(why) => return Err(why.fault),
    }
    match settle(&mut shared.volume) {
        Ok(()) => {}
        Err(fault) => return Err(fault),
    }
    write_point(shared, log)
}

/// Logs a SYNCPT behind all entries, each of which is acknowledged, home and synced.
fn write_point<D: Disk>(shared: &mut SharedVolume<D>, log: &mut SharedLog<D>) -> Result<(), Fault>
    requires running { (log.old.side.halted ≡ None) × (shared.old.volume.halted ≡ None) }
    requires empty { shared.old.volume.text.bytes ≡ [] }
    requires room { shared.old.volume.text.place + 72 ≤ 4080 * 2 ^ 32 }
    requires told { shared.old.volume.told ≡ shared.old.volume.appended }
    requires together { AreSettled D.Disk shared.old log.old }
    ensures point { PointBehind D.Disk shared.old log.old shared.new log.new result }
    ensures pages { OnOk result (LeavesPages shared.old.volume shared.new.volume) }
    ensures goes_on { OnOk result ((log.new.side.halted ≡ None) × (shared.new.volume.halted ≡ None)) }
    ensures halts { IfErr result (λ fault. shared.new.volume.halted ≡ Some fault) }
    ensures breaks { shared.new.is_broken_off ≡ shared.old.is_broken_off }
    ensures cause { HasPointFault (D.fault_count log.old.side.part) (D.fault_count log.new.side.part) result }
    ensures parts { (shared.new.volume.faults ≡ shared.old.volume.faults) × (D.page_count log.new.side.part ≡ D.page_count log.old.side.part) }
{
    shared.volume.take_point();
    shared.points += 1;
    shared.point.reach(shared.volume.appended());
    match log.write(&shared.point.text) {
        Ok(()) => {
            log.points += 1;
            shared.volume.know_points();
            Ok(())
        }
        Err(why) => {
            shared.halt_for_log(why.fault);
            Err(why.fault)
        }
    }
}
