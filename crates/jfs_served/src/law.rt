//! What is true of the tree that a mounted volume holds.

ghost use Rattle.jfs_served.specs.Torn.{TornLaw};
ghost use Rattle.jfs_served.specs.Laws.{ChangedLaw, GivenBackLaw, UnfinishedLaw, CalledLaw, UnchangedLaw, AskedLaw, JoinedLaw, RefusedLaw, AcknowledgedLaw, PointedLaw, HandedOutLaw, HomeLaw, AgainLaw, MountedLaw, UnmountedLaw, HistoryLaw};

/// A file call with a transaction that joins is done, as the plain step has it, and leaves the plain step's tree.
pub fn changing_calls_are_plain_steps()
    ensures { ChangedLaw }
{}

/// Where it doesn't join, and what it reserved is free again, the tree stays, and the next call may come.
pub fn calls_given_back_leave_the_tree()
    ensures { GivenBackLaw }
{}

/// Where memory lacked for giving back, the tree stays.
pub fn unfinished_calls_leave_the_tree()
    ensures { UnfinishedLaw }
{}

/// So a transaction that is to be appended is a step, or leaves the tree; where a read or a write of its data failed, it is a step once its refusal has joined.
pub fn transactions_are_steps_or_leave_the_tree()
    ensures { CalledLaw }
{}

/// A call whose data was put in part is refused for the fault, and leaves all objects, and all bytes but those that it writes over.
pub fn torn_data_leaves_the_rest()
    ensures { TornLaw }
{}

/// A file call that changes nothing is answered as the plain step has it, or refused for a cause beside the tree, which stays.
pub fn calls_that_change_nothing_are_plain_steps()
    ensures { UnchangedLaw }
{}

/// A volume that was asked for a file call keeps its tree.
pub fn asked_volumes_keep_the_tree()
    ensures { AskedLaw }
{}

/// An entry without a transaction leaves the tree.
pub fn entries_alone_leave_the_tree()
    ensures { JoinedLaw }
{}

/// A call that a halted volume refuses, one that fails, and `sync` are steps that leave the tree.
pub fn refused_calls_are_plain_steps()
    ensures { RefusedLaw }
{}

/// An acknowledgement leaves the tree: no object is read from a page that an entry freed.
pub fn acknowledged_entries_leave_the_tree()
    ensures { AcknowledgedLaw }
{}

/// So does a syncpoint, also one that failed and wrote some pages of the maps.
pub fn syncpoints_leave_the_tree()
    ensures { PointedLaw }
{}

/// Pages that go home leave the tree.
pub fn pages_at_home_leave_the_tree()
    ensures { HomeLaw }
{}

/// Entries that are handed out leave the tree.
pub fn handed_out_entries_leave_the_tree()
    ensures { HandedOutLaw }
{}

/// What stays, and then stays again, stays.
pub fn trees_stay_and_stay()
    ensures { AgainLaw }
{}

/// A volume that was mounted from a consistent image holds its tree.
pub fn mounted_volumes_hold_the_tree()
    ensures { MountedLaw }
{}

/// Pages that are all home are a clean and consistent image with the tree that the volume holds, behind a superblock of a clean volume.
pub fn unmounted_volumes_leave_their_image()
    ensures { UnmountedLaw }
{}

/// So the replies are a legal history: from the mount on, while the volume stays, and after each call.
pub fn replies_are_a_legal_history()
    ensures { HistoryLaw }
{}
