//! What holds of the dirty pages of a held volume, and of the pages of its maps.

ghost use Rattle.jfs_pages_held.specs.Beside.{BesideLaw, DirtyLaw, StayLaw};
ghost use Rattle.jfs_pages_held.specs.Called.{CalledLaw, EmptyLaw, OwnLaw};
ghost use Rattle.jfs_pages_held.specs.Homes.{HomingLaw, LeaveLaw, MapHomeLaw, MapsLaw, TearLaw};

/// Without entries no page gets dirty.
pub fn only_entries_dirty_pages()
    ensures { DirtyLaw }
{}

/// Changes beside entries and the writes of the maps' pages leave the newest image, and which pages of the maps are dirty.
pub fn changes_beside_entries_leave_marks()
    ensures { BesideLaw }
{}

/// Parts that hold the same volume with the same marks keep its pages.
pub fn pages_stay_as_they_were()
    ensures { StayLaw }
{}

/// A transaction that logs its own alone, as those of file calls do, dirties its own alone.
pub fn transactions_dirty_their_own()
    ensures { OwnLaw }
{}

/// A call whose entry joins, and whose transaction dirties its own pages, keeps them: an entry marks the files of the maps exactly where their pages get dirty in the core.
pub fn joined_calls_keep_pages()
    ensures { CalledLaw }
{}

/// An entry without edits leaves the newest image, and what is dirty.
pub fn entries_without_edits_leave_marks()
    ensures { EmptyLaw }
{}

/// Once all entries are acknowledged each dirty page may go home.
pub fn dirty_pages_may_leave()
    ensures { LeaveLaw }
{}

/// A page of a map that has changed, in its canonical form for the map in memory, is the one that the core has to write.
pub fn map_pages_are_those_of_the_core()
    ensures { MapHomeLaw }
{}

/// Such pages may be written, one after the other, each once.
pub fn map_pages_may_be_written()
    ensures { HomingLaw }
{}

/// So may the next one, whose write fails.
pub fn writes_of_map_pages_may_fail()
    ensures { TearLaw }
{}

/// A volume that is held is held as one with other pages of its maps.
pub fn volumes_are_held_beside_map_pages()
    ensures { MapsLaw }
{}
