//! What holds of a volume that crashed and was redone.

ghost use Rattle.jfs_recovered_volumes.specs.Recovered.{RecoveredLaw};

/// Whatever a crash leaves of a mounted volume's disk, where its log commits a window of the history and its maps can be redone: the disk that redo leaves has the volume after a front of the history, in which all is that was acknowledged.
pub fn crashed_volumes_are_recovered()
    ensures { RecoveredLaw }
{}
