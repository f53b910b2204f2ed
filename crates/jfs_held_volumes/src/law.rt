//! What holds of a mounted volume over the changes of its halves.

ghost use Rattle.jfs_held_volumes.specs.Laws.{ChangeLaw, CrashLaw, DataLaw, QuietLaw, ReplaceLaw, ReplyLaw, RunLaw, SameLaw};

/// Data that is written into a regular file's own block, or into one that isn't in use, leaves an image the volume's.
pub fn data_leaves_images()
    ensures { DataLaw }
{}

/// An image is that of each volume which has the same sets, and the same in all pages in use.
pub fn images_tell_of_blocks_in_use()
    ensures { SameLaw }
{}

/// A volume that is held is held as each one with the same sets, and the same in all pages in use.
pub fn volumes_are_held_by_what_is_in_use()
    ensures { ReplaceLaw }
{}

/// A volume that is held is held after each change that fits and keeps what is asked of it.
pub fn changes_keep_volumes_held()
    ensures { ChangeLaw }
{}

/// An entry without edits, as a reply that changes nothing has, leads from a volume to itself.
pub fn entries_without_edits_leave_volumes()
    ensures { ReplyLaw }
{}

/// Groups, acknowledgements, dropped pages, syncs and faults leave the volume, and nothing is asked of them but that they fit.
pub fn commits_leave_volumes()
    ensures { QuietLaw }
{}

/// So it is after a run of such changes, and the volumes of its history before that are the ones that they were.
pub fn held_volumes_stay_held()
    ensures { RunLaw }
{}

/// A crash after any front of such a run, and redo of whatever log image it leaves, give the volume after a front of the history with all that was acknowledged at that moment.
pub fn crashes_at_any_moment_leave_a_front()
    ensures { CrashLaw }
{}
