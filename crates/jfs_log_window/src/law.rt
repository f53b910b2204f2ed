//! What holds of the log of a mounted volume.

ghost use Rattle.jfs_log_window.specs.Events.{EventsBegin, EventsGoOn};
ghost use Rattle.jfs_log_window.specs.Window.{RestLaw, WindowLaw};

/// From the mount on, whatever changes are made: the log has what happened, in order, its group what happened then, and the rest waits.
pub fn logs_have_what_happened()
    ensures start { EventsBegin }
    ensures steps { EventsGoOn }
{}

/// Whatever a crash leaves of the log, at each moment while a group is written and before: it breaks no rule, and commits the transactions of the entries from a sync count on up to one behind all durable ones.
pub fn crashed_logs_commit_a_window()
    ensures meanwhile { WindowLaw }
    ensures before { RestLaw }
{}
