//! What follows for a volume and its log that stand for one list.

ghost use Rattle.jfs_shared.specs.Both.{TogetherLaw};
ghost use Rattle.jfs_shared.specs.Left.{LeftLaw, UncalledLaw};
ghost use Rattle.jfs_shared.specs.Shared.{HistoryLaw, standing, log_standing};

use jfs_disk::Disk;

/// A volume and a log that stand for one base and for fronts of one list may be committed and unmounted, where the log hasn't halted: what waits will stand at the log's end.
pub fn values_together_may_commit<D: Disk>()
    ensures { TogetherLaw D.Disk (standing D.Disk) (log_standing D.Disk) }
{}

/// The entries of a volume are legal, whether or not their history broke off.
pub fn histories_are_legal()
    ensures { HistoryLaw }
{}

/// Whatever a crash leaves of a volume and its log, whether or not the log has halted or the history broke off, is redone to the volume's history, with all durable entries: on a disk that tells its contents and crashes, mounted from a keepable image.
pub fn crashes_are_redone_to_histories<D: Disk>()
    ensures { LeftLaw D.Disk }
{}

/// Where no call was made, whatever a crash leaves of a volume that was just mounted is redone to it.
pub fn crashes_of_mounts_are_redone<D: Disk>()
    ensures { UncalledLaw D.tells D.tells_crashes }
{}
