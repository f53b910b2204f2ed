//! A commit.

ghost use Rattle.std.specs.Prelude.{◌≡◌, ◌+◌, [], false, length, OnOk};
ghost use Rattle.jfs_volume.specs.Settle.{is_idle};
ghost use Rattle.jfs_volume.specs.Settles.{Settles};
ghost use Rattle.jfs_volume_calls.specs.Halts.{CommitHalts, GroupParts};
ghost use Rattle.jfs_volume_calls.specs.Together.{AreTogether, OfBothHalves, log_parts};
ghost use Rattle.jfs_volume_calls.specs.Commit.{CommitIs, GroupIs, WriteIs, HasLogFault};
ghost use Rattle.jfs_volume_calls.specs.Written.{KeepsPages};

use jfs_disk::Disk;
use jfs_logpages::{LogFault, LogSide};
use jfs_volume::Volume;

/// Makes all entries so far durable, and acknowledges them: what no group has taken is written to the log as one group, and synced. Where there is nothing of that, no device call is made. It takes no memory.
///
/// # Errors
///
/// A write or a sync of the log failed. The group isn't acknowledged, and volume and log halt.
pub fn commit<D: Disk>(volume: &mut Volume<D>, log: &mut LogSide<D>) -> Result<(), LogFault>
    requires { AreTogether volume.old (log_parts D.Disk log.old) }
    ensures commit { OfBothHalves D.tells D.tells_crashes volume.old (log_parts D.Disk log.old)
        (λ seen asked both. CommitIs seen asked volume.old volume.new (log_parts D.Disk log.new) both result) }
    ensures together { OnOk result (AreTogether volume.new (log_parts D.Disk log.new)) }
    ensures told { OnOk result ((volume.new.told ≡ volume.new.appended) × (volume.new.taken ≡ volume.new.appended)) }
    ensures counts { (volume.new.appended ≡ volume.old.appended) × (volume.new.points ≡ volume.old.points) × (volume.new.faults ≡ volume.old.faults) }
    ensures text { (volume.new.text.bytes ≡ []) × (volume.new.text.place ≡ volume.old.text.place + length volume.old.text.bytes) }
    ensures halted { OnOk result (volume.new.halted ≡ volume.old.halted) }
    ensures settles { Settles volume.old volume.new }
    ensures files { KeepsPages D.tells volume.old volume.new }
    ensures halts { CommitHalts volume.old.halted volume.new.halted result }
    ensures disk { (volume.new.count ≡ volume.old.count) × (volume.new.room ≡ volume.old.room) × (D.page_count log.new.part ≡ D.page_count log.old.part) }
    ensures cause { HasLogFault (D.fault_count log.old.part) (D.fault_count log.new.part) result }
{
    match write_waiting(volume, log) {
        Ok(()) => {
            volume.told_all();
            Ok(())
        }
        Err(why) => Err(why),
    }
}

/// Writes what no group has taken, where there is something of that.
fn write_waiting<D: Disk>(volume: &mut Volume<D>, log: &mut LogSide<D>) -> Result<(), LogFault>
    requires { AreTogether volume.old (log_parts D.Disk log.old) }
    ensures write { OfBothHalves D.tells D.tells_crashes volume.old (log_parts D.Disk log.old)
        (λ seen asked both. WriteIs seen asked volume.old volume.new (log_parts D.Disk log.new) both result) }
    ensures together { OnOk result (AreTogether volume.new (log_parts D.Disk log.new)) }
    ensures counts { (volume.new.appended ≡ volume.old.appended) × (volume.new.points ≡ volume.old.points) × (volume.new.faults ≡ volume.old.faults) }
    ensures text { (volume.new.text.bytes ≡ []) × (volume.new.text.place ≡ volume.old.text.place + length volume.old.text.bytes) }
    ensures taken { volume.new.taken ≡ volume.new.appended }
    ensures halted { OnOk result (volume.new.halted ≡ volume.old.halted) }
    ensures parts { GroupParts volume.old volume.new }
    ensures halts { CommitHalts volume.old.halted volume.new.halted result }
    ensures disk { (volume.new.count ≡ volume.old.count) × (volume.new.room ≡ volume.old.room) × (D.page_count log.new.part ≡ D.page_count log.old.part) }
    ensures cause { HasLogFault (D.fault_count log.old.part) (D.fault_count log.new.part) result }
{
    if volume.is_idle() {
        return Ok(());
    }
    write(volume, log)
}

/// Writes what no group has taken.
fn write<D: Disk>(volume: &mut Volume<D>, log: &mut LogSide<D>) -> Result<(), LogFault>
    requires together { AreTogether volume.old (log_parts D.Disk log.old) }
    requires waits { is_idle volume.old ≡ false }
    ensures group { OfBothHalves D.tells D.tells_crashes volume.old (log_parts D.Disk log.old)
        (λ seen asked both. GroupIs seen asked volume.old volume.new (log_parts D.Disk log.new) both result) }
    ensures together { OnOk result (AreTogether volume.new (log_parts D.Disk log.new)) }
    ensures counts { (volume.new.appended ≡ volume.old.appended) × (volume.new.taken ≡ volume.old.appended) × (volume.new.told ≡ volume.old.told) × (volume.new.points ≡ volume.old.points) × (volume.new.faults ≡ volume.old.faults) }
    ensures text { (volume.new.text.bytes ≡ []) × (volume.new.text.place ≡ volume.old.text.place + length volume.old.text.bytes) }
    ensures halted { OnOk result (volume.new.halted ≡ volume.old.halted) }
    ensures parts { GroupParts volume.old volume.new }
    ensures halts { CommitHalts volume.old.halted volume.new.halted result }
    ensures disk { (volume.new.count ≡ volume.old.count) × (volume.new.room ≡ volume.old.room) × (D.page_count log.new.part ≡ D.page_count log.old.part) }
    ensures cause { HasLogFault (D.fault_count log.old.part) (D.fault_count log.new.part) result }
{
    let text = volume.take_group();
    match log.write_group(&text) {
        Ok(()) => Ok(()),
        Err(why) => {
            volume.halt(why.fault);
            Err(why)
        }
    }
}
