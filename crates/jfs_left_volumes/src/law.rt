//! What holds of a volume that a crash left.

ghost use Rattle.jfs_left_volumes.specs.Left.{LeftLaw};

/// Whatever a crash leaves of a mounted volume's pages and of its log, redo by what the log commits leaves the volume after a front of the history, in which all is that was acknowledged.
pub fn own_logs_lead_to_volumes_of_the_history()
    ensures { LeftLaw }
{}
