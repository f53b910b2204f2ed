//! What is true of the entries of a mounted volume, of a disk that tells its contents.

ghost use Rattle.jfs_legal.specs.Laws.{BeginLaw, LegalLaw, CallLaw, LentLaw, SettledLaw, PointedLaw, HandedLaw, OverLaw, LackedLaw, OverSettledLaw, OverPointedLaw, OverHandedLaw};

use jfs_disk::Disk;

/// No entry at all is a legal history.
pub fn volumes_that_serve_begin_legally()
    ensures { BeginLaw }
{}

/// A history that goes on is legal.
pub fn histories_that_go_on_are_legal()
    ensures { LegalLaw }
{}

/// With the entry of a call, whichever client's, a legal history goes on.
pub fn calls_go_on_legally<D: Disk>()
    ensures { CallLaw D.tells D.tells_crashes }
{}

/// So does it with the entry of a call that is lent the log, and commits or makes a syncpoint first.
pub fn calls_lent_the_log_go_on_legally<D: Disk>()
    ensures { LentLaw D.tells D.tells_crashes }
{}

/// A commit leaves it as it is.
pub fn settled_volumes_leave_it_legal<D: Disk>()
    ensures { SettledLaw D.tells }
{}

/// So do pages that go home, and those of the maps.
pub fn pages_at_home_leave_it_legal<D: Disk>()
    ensures { PointedLaw D.tells }
{}

/// And so do entries that are handed out.
pub fn entries_handed_out_leave_it_legal()
    ensures { HandedLaw }
{}

/// A history that goes on may end there.
pub fn histories_that_go_on_may_end()
    ensures { OverLaw }
{}

/// Where memory lacks for a call it is over: the volume is still consistent, and has the tree of the last entry while it runs.
pub fn calls_without_memory_end_it<D: Disk>()
    ensures { LackedLaw D.tells D.tells_crashes }
{}

/// A commit leaves one that is over as it is,
pub fn settled_volumes_leave_it_over<D: Disk>()
    ensures { OverSettledLaw D.tells }
{}

/// so do pages that go home,
pub fn pages_at_home_leave_it_over<D: Disk>()
    ensures { OverPointedLaw D.tells }
{}

/// and entries that are handed out.
pub fn entries_handed_out_leave_it_over()
    ensures { OverHandedLaw }
{}
