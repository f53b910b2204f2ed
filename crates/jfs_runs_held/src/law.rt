//! What holds of a run of a mounted volume.

ghost use Rattle.jfs_runs_held.specs.Runs.{CrashLaw, PiecesLaw, ReplyLaw};

/// A call that is done is a piece of a run, and so is a commit.
pub fn calls_and_commits_are_pieces()
    ensures { PiecesLaw }
{}

/// So is a reply that joins alone.
pub fn replies_are_pieces()
    ensures { ReplyLaw }
{}

/// After a mount and any pieces, a crash at any moment of the next one leaves what redo makes the volume after a front of the history, with all that was acknowledged at that moment.
pub fn crashes_of_runs_leave_a_front()
    ensures { CrashLaw }
{}
