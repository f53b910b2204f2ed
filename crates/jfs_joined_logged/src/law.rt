//! What holds of a file call that a mounted volume answers with a transaction and data.

ghost use Rattle.jfs_joined_logged.specs.Answered.{AnsweredLaw};

/// Once its data is written, its transaction logs what the log keeps safe and keeps to its own pages; so it is one with which a call that joins keeps the volume held.
pub fn answered_calls_are_logged()
    ensures { AnsweredLaw }
{}
