//! What holds of calls.

ghost use Rattle.jfs_calls_kept.specs.Calls.{DoesLaw};

use jfs_disk::Disk;

/// After a call, however it ended, a volume that was kept is kept; where it is replied, its entry has joined, and the log has of it what its transaction names.
pub fn calls_keep_volumes<D: Disk>()
    ensures { DoesLaw D.tells D.tells_crashes }
{}
