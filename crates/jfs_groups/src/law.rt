//! How a log begins.
ghost use Rattle.jfs_groups.specs.Log.{FreshStands};

use crate::collected::HasRecords;
use jfs_disk::Disk;

/// A fresh log stands for no entry and no syncpoint.
pub fn fresh_log_stands<D: Disk, E: HasRecords>()
    ensures { FreshStands E.logs D.tells D.tells_crashes }
{}
