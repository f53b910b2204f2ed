//! What is true of all logs and their readings.

ghost use Rattle.jfs_logpages.specs.Laws.{HasOneAnswer, LooksAtLog, RecordsAreRead, IsOnlyReading, EndsOneAtMost, LeavesFront, HaveSizes, IsNumberOf, ReachesBack};

/// A log has one answer: no two different ones are right of it. And none rests on the log's first
/// page, which isn't used, or on pages behind the log.
pub fn one_answer()
    ensures one { HasOneAnswer }
    ensures looks { LooksAtLog }
{}

/// Records that are written are read back, and nothing else is: of a group that a crash met, a front of its records.
pub fn records_are_read()
    ensures read { RecordsAreRead }
    ensures only { IsOnlyReading }
    ensures one { EndsOneAtMost }
    ensures front { LeavesFront }
    ensures sizes { HaveSizes }
{}

/// The number of the last page follows from the position, and so does how far back a reading reaches.
pub fn positions_count()
    ensures number { IsNumberOf }
    ensures reach { ReachesBack }
{}
