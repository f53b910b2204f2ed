//! What holds of all changes of a mounted volume's halves.

ghost use Rattle.jfs_survival.specs.Busy.{FreeLaw, StatesLaw};
ghost use Rattle.jfs_survival.specs.Enters.{EntersLaw};
ghost use Rattle.jfs_survival.specs.Entry.{DataLaw, EntryLaw, SeenLaw};
ghost use Rattle.jfs_survival.specs.Laws.{RunLaw, StartLaw, CrashLaw};
ghost use Rattle.jfs_survival.specs.Lists.{MapsLaw, PlainLaw, TogetherLaw};
ghost use Rattle.jfs_survival.specs.MapMarks.{MarkedLaw};

/// Changes that fit, and that keep what the core asks of each, are a run of its allowed steps, and lead to the core of the halves after them.
pub fn changes_are_a_run()
    ensures { RunLaw }
{}

/// The core of a volume that was just mounted is the one of its halves, where the maps' pages found there have in each place that counts what canonical ones have.
pub fn mounted_halves_have_a_core()
    ensures { StartLaw }
{}

/// After such a run, whatever a crash leaves of the disk and for each log image, redo of the core finds a front of the history with all that was acknowledged before, and leaves the volume after that front, where the image after it is a volume with its maps where they were mounted.
pub fn crashes_leave_a_prefix()
    ensures { CrashLaw }
{}

/// An image that has what the log keeps safe of a volume has its owners, whatever stands in the fixed areas.
pub fn images_have_the_owners()
    ensures { SeenLaw }
{}

/// An entry whose transaction logs what matters and takes no busy block may be appended.
pub fn entries_that_log_well_may_join()
    ensures { EntryLaw }
{}

/// A block that is a regular file's data, or that isn't in use and isn't busy, may be written past the log.
pub fn data_of_files_may_be_written()
    ensures { DataLaw }
{}

/// Groups, acknowledgements, dropped pages, syncs and faults, in whatever order they fit, are a run of the core: a commit is.
pub fn commits_are_a_run()
    ensures { PlainLaw }
{}

/// Where all pages of the maps that entries changed are written, each once and as they are after the acknowledged entries, and the low part is synced, a SYNCPT may be made behind that.
pub fn maps_go_home_before_a_sync()
    ensures { MapsLaw }
{}

/// Where a block with an owner is owned in the half's map, and one that was freed is busy for an entry that isn't acknowledged, that stays so with each change, and with an entry that makes of the map what it makes of owners.
pub fn owners_and_states_move_together()
    ensures { StatesLaw }
{}

/// So an entry takes no block that is busy in the core, and no data is written over one.
pub fn busy_blocks_are_let_alone()
    ensures { FreeLaw }
{}

/// Where the pages of a map that an entry changes are all dirty with it, each other page of the maps has the same bytes after it.
pub fn other_map_pages_stay()
    ensures { MarkedLaw }
{}

/// So an entry whose transaction logs what matters joins the halves as an append that the core allows: it takes no busy block, and changes no page of a map but those of a map that it marks. The volumes before it and after it have the owners of their images, and agree with their maps, and blocks that are busy in the core are busy in the half's map.
pub fn logged_entries_are_appends()
    ensures { EntersLaw }
{}

/// Changes that are steps of the core, and then others that are, are the steps of both together.
pub fn lists_of_changes_join()
    ensures { TogetherLaw }
{}
