//! A served history whose volume is kept for a redo, on a disk that tells its contents and what a crash may leave.

ghost use Rattle.jfs_kept_history.specs.Laws.{BeginLaw, TakenLaw, ToldLaw, HaltedLaw, HandedLaw, HomeAllLaw, HomeMapsLaw, SyncLaw, SettledLaw, PointLaw, KnowLaw, CallLaw};
ghost use Rattle.jfs_kept_history.specs.Keepable.{CheckedLaw, MountLaw};
ghost use Rattle.jfs_kept_history.specs.Tree.{NodesLaw};
ghost use Rattle.jfs_kept_history.specs.Crash.{CrashLaw, RedoneAgainLaw};
ghost use Rattle.jfs_kept_history.specs.Failed.{FailedLaw};
ghost use Rattle.jfs_kept_history.specs.Rested.{ItemsLaw, RestedLaw, LostLaw};
ghost use Rattle.jfs_kept_history.specs.Unmounted.{UnmountedAgainLaw};

use jfs_disk::Disk;

/// An image on which a check finds nothing is keepable.
pub fn checked_images_are_keepable()
    ensures { CheckedLaw }
{}

/// A mount of a keepable image leaves whole pages.
pub fn mounts_leave_whole_pages<D: Disk>()
    ensures { MountLaw D.tells D.tells_crashes }
{}

/// A volume that was just mounted from such an image is kept.
pub fn mounts_are_kept<D: Disk>()
    ensures { BeginLaw D.tells D.tells_crashes }
{}

/// A group that takes what waits leaves it so;
pub fn groups_are_kept<D: Disk>()
    ensures { TakenLaw D.tells D.tells_crashes }
{}

/// so do acknowledgements,
pub fn acknowledgements_are_kept<D: Disk>()
    ensures { ToldLaw D.tells D.tells_crashes }
{}

/// a fault of the log,
pub fn halted_volumes_are_kept()
    ensures { HaltedLaw }
{}

/// and entries that are handed out.
pub fn handed_entries_are_kept<D: Disk>()
    ensures { HandedLaw D.tells D.tells_crashes }
{}

/// Dirty pages that go home do, or some of them where a write fails;
pub fn homes_are_kept<D: Disk>()
    ensures { HomeAllLaw D.tells D.tells_crashes }
{}

/// pages of the maps that are written, or some of them;
pub fn maps_are_kept<D: Disk>()
    ensures { HomeMapsLaw D.tells D.tells_crashes }
{}

/// and syncs of the low part.
pub fn syncs_are_kept<D: Disk>()
    ensures { SyncLaw D.tells D.tells_crashes }
{}

/// A sync behind both settles the volume,
pub fn syncs_settle_volumes<D: Disk>()
    ensures { SettledLaw D.tells D.tells_crashes }
{}

/// so that a SYNCPT may be made;
pub fn points_are_kept<D: Disk>()
    ensures { PointLaw D.tells D.tells_crashes }
{}

/// and then all sync counts are known to be stable.
pub fn known_points_are_kept<D: Disk>()
    ensures { KnowLaw D.tells D.tells_crashes }
{}

/// A call adds its entry where it is replied, and leaves the volume kept.
pub fn calls_are_kept<D: Disk>()
    ensures { CallLaw D.tells D.tells_crashes }
{}

/// Two volumes with the same objects have the same tree, the bytes of files aside.
pub fn like_volumes_have_the_same_nodes()
    ensures { NodesLaw }
{}

/// Whatever a crash leaves of it is redone to the tree after the first entries of its history, all durable ones among them, and to maps that agree with the inodes.
pub fn crashes_are_redone_to_the_history()
    ensures { CrashLaw }
{}

/// What redo makes of it is a keepable image again.
pub fn redone_images_are_keepable()
    ensures { RedoneAgainLaw }
{}

/// In the log of what keeps it stands what groups have taken, and nothing else since the mount.
pub fn logs_have_what_was_taken()
    ensures { ItemsLaw }
{}

/// So where a log holds that, whatever a crash leaves of the disk is redone to the history, with all that groups have taken.
pub fn rested_disks_are_redone_to_the_history<D: Disk>()
    ensures { RestedLaw D.tells D.tells_crashes }
{}

/// And where it holds a front of its last group behind what was stable before, it is redone to the history, with all durable entries.
pub fn lost_groups_are_redone_to_the_history<D: Disk>()
    ensures { LostLaw D.tells D.tells_crashes }
{}

/// Where a mount of a keepable image failed, for whatever cause, a crash leaves the image's tree, or a disk that is redone to it.
pub fn failed_mounts_leave_volumes()
    ensures { FailedLaw }
{}

/// An image that a kept volume leaves when it is unmounted is keepable again.
pub fn unmounted_images_are_keepable()
    ensures { UnmountedAgainLaw }
{}
