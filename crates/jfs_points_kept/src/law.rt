//! What holds of a mounted volume that makes a syncpoint.

ghost use Rattle.jfs_points_kept.specs.Steps.{HomeAllLaw, HomeMapsLaw, HomeOneLaw, KnowLaw, PointLaw, SettledLaw, SyncLaw};
ghost use Rattle.jfs_points_kept.specs.Syncpoint.{SyncpointLaw};

/// Once all entries are acknowledged a dirty page may go home, and so may all, and each write of them may fail: the volume is kept then.
pub fn pages_that_go_home_keep_volumes()
    ensures all { HomeAllLaw }
    ensures one { HomeOneLaw }
{}

/// So are the pages of the maps that have changed: what memory gives is what the core has to write.
pub fn written_maps_keep_volumes()
    ensures { HomeMapsLaw }
{}

/// A sync keeps the volume; and where no page is dirty and both maps are as their pages, a SYNCPT may be made then.
pub fn synced_volumes_are_settled()
    ensures sync { SyncLaw }
    ensures settled { SettledLaw }
{}

/// A SYNCPT may be made there, and is known to be stable later.
pub fn points_keep_volumes()
    ensures point { PointLaw }
    ensures know { KnowLaw }
{}

/// A syncpoint as a whole, done or failed, is a run of changes that may be made.
pub fn syncpoints_are_runs_of_changes()
    ensures { SyncpointLaw }
{}
