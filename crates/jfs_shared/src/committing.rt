//! A commit by whoever has both turns.

ghost use Rattle.std.specs.Prelude.{◌≡◌, IfErr, OnOk, None, Some, true, false};
ghost use Rattle.jfs_volume_calls.specs.Commit.{HasLogFault};
ghost use Rattle.jfs_volume_calls.specs.volume.specs.Settle.{is_idle};
ghost use Rattle.jfs_kept_history.specs.legal.specs.served.specs.crash_core.specs.Step.{halted_by};
ghost use Rattle.jfs_shared.specs.Both.{AreTogether, CommitIs, WriteIs};
ghost use Rattle.jfs_shared.specs.Shared.{marked_by, standing, log_standing};

use crate::shared::SharedVolume;
use jfs_disk::Disk;
use jfs_groups::SharedLog;
use jfs_logpages::LogFault;

/// Makes all entries so far durable, and acknowledges them. Where groups have taken all, no device call is made. It takes no memory.
///
/// # Errors
///
/// A write or a sync of the log failed. All entries are taken, and volume and log halt.
pub fn commit_with<D: Disk>(
    shared: &mut SharedVolume<D>,
    log: &mut SharedLog<D>,
) -> Result<(), LogFault>
    requires running { log.old.side.halted ≡ None }
    requires together { AreTogether (standing D.Disk) (log_standing D.Disk) shared.old log.old }
    ensures commit { CommitIs (standing D.Disk) (log_standing D.Disk) shared.old log.old shared.new log.new result }
    ensures goes_on { OnOk result ((log.new.side.halted ≡ None) × (shared.new.volume.halted ≡ shared.old.volume.halted)) }
    ensures halts { IfErr result (λ why. (log.new.side.halted ≡ Some why.fault) × (shared.new.volume.halted ≡ halted_by why.fault shared.old.volume.halted)) }
    ensures cause { HasLogFault (D.fault_count log.old.side.part) (D.fault_count log.new.side.part) result }
    ensures parts { (shared.new.volume.faults ≡ shared.old.volume.faults) × (D.page_count log.new.side.part ≡ D.page_count log.old.side.part) }
    ensures points { OnOk result (shared.new.points ≡ shared.old.points) }
    ensures marks { IfErr result (λ why. shared.new.points ≡ marked_by shared.old.volume.halted shared.old.points) }
    ensures breaks { shared.new.is_broken_off ≡ shared.old.is_broken_off }
    // Where there is nothing to write the log isn't called.
    ensures idle { is_idle shared.old.volume ≡ true → log.new ≡ log.old }
{
    match write_waiting(shared, log) {
        Ok(()) => {
            let all = shared.volume.appended();
            shared.volume.told(all);
            Ok(())
        }
        Err(why) => Err(why),
    }
}

/// Writes what no group has taken, where there is something of that.
fn write_waiting<D: Disk>(
    shared: &mut SharedVolume<D>,
    log: &mut SharedLog<D>,
) -> Result<(), LogFault>
    requires running { log.old.side.halted ≡ None }
    requires together { AreTogether (standing D.Disk) (log_standing D.Disk) shared.old log.old }
    ensures write { WriteIs (standing D.Disk) (log_standing D.Disk) shared.old log.old shared.new log.new result }
    ensures goes_on { OnOk result ((log.new.side.halted ≡ None) × (shared.new.volume.halted ≡ shared.old.volume.halted)) }
    ensures halts { IfErr result (λ why. (log.new.side.halted ≡ Some why.fault) × (shared.new.volume.halted ≡ halted_by why.fault shared.old.volume.halted)) }
    ensures cause { HasLogFault (D.fault_count log.old.side.part) (D.fault_count log.new.side.part) result }
    ensures parts { (shared.new.volume.faults ≡ shared.old.volume.faults) × (D.page_count log.new.side.part ≡ D.page_count log.old.side.part) }
    ensures points { OnOk result (shared.new.points ≡ shared.old.points) }
    ensures marks { IfErr result (λ why. shared.new.points ≡ marked_by shared.old.volume.halted shared.old.points) }
    ensures breaks { shared.new.is_broken_off ≡ shared.old.is_broken_off }
    ensures all { shared.new.volume.appended ≡ shared.old.volume.appended }
    ensures idle { is_idle shared.old.volume ≡ true → log.new ≡ log.old }
{
    if shared.volume.is_idle() {
        return Ok(());
    }
    write(shared, log)
}

/// Writes what no group has taken.
fn write<D: Disk>(shared: &mut SharedVolume<D>, log: &mut SharedLog<D>) -> Result<(), LogFault>
    requires running { log.old.side.halted ≡ None }
    requires together { AreTogether (standing D.Disk) (log_standing D.Disk) shared.old log.old }
    requires waits { is_idle shared.old.volume ≡ false }
    ensures write { WriteIs (standing D.Disk) (log_standing D.Disk) shared.old log.old shared.new log.new result }
    ensures goes_on { OnOk result ((log.new.side.halted ≡ None) × (shared.new.volume.halted ≡ shared.old.volume.halted)) }
    ensures halts { IfErr result (λ why. (log.new.side.halted ≡ Some why.fault) × (shared.new.volume.halted ≡ halted_by why.fault shared.old.volume.halted)) }
    ensures cause { HasLogFault (D.fault_count log.old.side.part) (D.fault_count log.new.side.part) result }
    ensures parts { (shared.new.volume.faults ≡ shared.old.volume.faults) × (D.page_count log.new.side.part ≡ D.page_count log.old.side.part) }
    ensures points { OnOk result (shared.new.points ≡ shared.old.points) }
    ensures marks { IfErr result (λ why. shared.new.points ≡ marked_by shared.old.volume.halted shared.old.points) }
    ensures breaks { shared.new.is_broken_off ≡ shared.old.is_broken_off }
    ensures all { shared.new.volume.appended ≡ shared.old.volume.appended }
{
    let group = shared.volume.take_group();
    match log.write(&group) {
        Ok(()) => Ok(()),
        Err(why) => {
            shared.halt_for_log(why.fault);
            Err(why)
        }
    }
}
