//! What a redone volume follows from, and what its pages are.

ghost use Rattle.jfs_redo.specs.Laws.{RedoneAgree, RedoneIsChoice};
ghost use Rattle.jfs_redo.specs.Partly.{StoppedRedo, OthersStay};
ghost use Rattle.jfs_redo.specs.Apart.{StandApart, NameOnce, DataStays};

/// What redo makes of a volume is one thing: each of its pages follows from the pages that it had and from the transactions.
pub fn redone_volumes_agree()
    ensures { RedoneAgree }
{}

/// What redo makes of a page is a choice, cell by cell of 16 bytes: a redone page has, in each cell, the bytes of the last committed line that covers it and that no NOREDOPAGE of its page follows; where there is none, it has those that it had.
/// The maps' pages and the superblock's are no such choice: redo makes them anew.
pub fn redone_pages_are_a_choice()
    ensures { RedoneIsChoice }
{}

/// A volume that a stopped redo left is taken up again: it has the superblock and the log that it had, redo refuses it by nothing, counts the same transactions, and makes of it what it makes of the volume as it was. That holds however often a redo is stopped.
/// It has the premise that the maps stand apart from all that the log changes.
pub fn stopped_redo_is_taken_up()
    ensures { StoppedRedo }
{}

/// Redo changes the pages of which a line of its log counts, the maps' and the superblock's, and no other: at each moment all other pages are as they were.
pub fn redo_leaves_other_pages()
    ensures { OthersStay }
{}

/// The maps of a volume stand apart where no rule on them is broken, each block of their files is named once by the fixed areas and the inode extents, and no line of the log is one of such a block. Where the maps agree with the inodes, each block is named once.
pub fn maps_stand_apart()
    ensures apart { StandApart }
    ensures once { NameOnce }
{}

/// Redo leaves file data of the volume that it makes: where the maps agree then, a block that holds data of an object is as it was at each moment, unless a line of the log counts for it.
pub fn redo_leaves_file_data()
    ensures { DataStays }
{}
