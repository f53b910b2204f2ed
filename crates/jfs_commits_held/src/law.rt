//! What holds of a commit.

ghost use Rattle.jfs_commits_held.specs.Committed.{CommitLaw};

/// A commit, and one whose group failed, is a run of changes of both halves that the core allows; and the volume is held then.
pub fn commits_keep_volumes_held()
    ensures { CommitLaw }
{}
