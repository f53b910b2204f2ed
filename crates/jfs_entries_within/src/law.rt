//! What holds of entries that can be logged.

ghost use Rattle.jfs_entries_within.specs.Within.{PartLaw, WithinLaw};

/// Edits that can be logged tell no page past the file system part, and free none.
pub fn entries_tell_their_part_alone()
    ensures { PartLaw }
{}

/// They take no block past its end; and where they have marks that fit the inode map, an inode extent has one of its places.
pub fn entries_stay_within()
    ensures { WithinLaw }
{}
