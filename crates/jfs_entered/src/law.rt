//! Laws of a volume's parts after an entry.

ghost use Rattle.jfs_entered.specs.Marked.{InodesLaw};
ghost use Rattle.jfs_entered.specs.Laws.{BehindLaw, BlocksLaw, PagesLaw, VolumeLaw};

/// The inode map with a transaction's marks has the extents of the volume after it, and in use the objects that there are then.
pub fn marks_make_the_map_after()
    ensures { InodesLaw }
{}

/// A transaction that takes no block which an edit before it frees leaves free what it takes and frees.
pub fn tested_transactions_free_behind()
    ensures { BehindLaw }
{}

/// The block map has in use what is in use after the transaction, and no block is reserved.
pub fn blocks_are_those_after()
    ensures { BlocksLaw }
{}

/// The pages are those after the transaction.
pub fn pages_are_those_after()
    ensures { PagesLaw }
{}

/// Pages and maps are the volume after the call.
pub fn parts_are_the_volume_after()
    ensures { VolumeLaw }
{}
