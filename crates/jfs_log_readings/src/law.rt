//! What holds of each reading of a log that a crash left.

ghost use Rattle.jfs_log_readings.specs.Readings.{ReadingLaw, UnbrokenLaw, FoundLaw};

/// However a log is read that commits a window of the history, the transactions are those of the window.
pub fn readings_are_windows()
    ensures { ReadingLaw }
{}

/// It is never refused: its superblock is right, it has its own label, and no rule of the ring or of its text is broken.
pub fn windows_are_not_refused()
    ensures { UnbrokenLaw }
{}

/// And it reads.
pub fn windows_are_found()
    ensures { FoundLaw }
{}
