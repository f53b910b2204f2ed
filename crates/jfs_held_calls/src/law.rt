//! What holds of a file call on a volume that is held.

ghost use Rattle.jfs_held_calls.specs.Calls.{CallLaw, OwnLaw};

/// Data that goes into a regular file's own blocks, and into such as aren't in use, may be written.
pub fn own_data_goes_where_it_may()
    ensures { OwnLaw }
{}

/// The writes of a call's data and the entry of its transaction, where that logs what matters, each may change the volume that is held.
pub fn calls_are_runs_of_changes()
    ensures { CallLaw }
{}
