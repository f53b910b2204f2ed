//! What holds of the records of all entries.

ghost use Rattle.jfs_records.specs.Redo.{IsChoice};
ghost use Rattle.jfs_records.specs.Marks.{LastMarkDecides};
ghost use Rattle.jfs_records.specs.Laws.{SizesAddUp, RunsShareRecords, LoggedAreWhole, EntriesAreReadBack, FrontsAreRead, CrashesFindFronts, OwnPointsBegin, LoggedHaveCells};

/// The sizes of edits add up to that of their entry's text.
pub fn sizes_add_up()
    ensures sizes { SizesAddUp }
    ensures runs { RunsShareRecords }
{}

/// The text of entries breaks no rule, and is read back as their transactions.
pub fn entries_are_read_back()
    ensures whole { LoggedAreWhole }
    ensures back { EntriesAreReadBack }
{}

/// A window of the ring that ends with a front of entries' records breaks no rule, and is read as a front of the entries.
pub fn fronts_are_read()
    ensures { FrontsAreRead }
{}

/// While a group is written behind entries that redo begins at, redo finds all of these and a front of the group's.
pub fn crashes_find_fronts()
    ensures crash { CrashesFindFronts }
    ensures begins { OwnPointsBegin }
{}

/// Redo of a page is a choice: a cell's value is that of the last line that covers it and that no NOREDOPAGE follows.
pub fn redo_is_a_choice()
    ensures choice { IsChoice }
    ensures cells { LoggedHaveCells }
{}

/// The last record of a block decides its bit: blocks that are taken or freed, or new inodes.
pub fn last_mark_decides()
    ensures { LastMarkDecides }
{}
