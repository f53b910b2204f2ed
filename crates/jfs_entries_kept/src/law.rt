//! What holds of the pieces of a call.

ghost use Rattle.jfs_entries_kept.specs.Entries.{AskedLaw, EntryLaw, NewestLaw, ReplyLaw, StopLaw, UnreservedLaw};
ghost use Rattle.jfs_entries_kept.specs.Kept.{KeptAskedLaw, KeptEntryLaw, KeptReplyLaw, KeptStopLaw};

/// The volume after all entries is the volume now, by all that the log keeps safe.
pub fn newest_volumes_are_the_same()
    ensures { NewestLaw }
{}

/// A volume that is asked is held as before, whatever is reserved; and once that is free again, its parts stand for the same half.
pub fn questions_keep_volumes()
    ensures asked { AskedLaw }
    ensures unreserved { UnreservedLaw }
    ensures kept { KeptAskedLaw }
{}

/// A reply that joins without a transaction keeps it held, with its entry.
pub fn replies_keep_volumes()
    ensures held { ReplyLaw }
    ensures kept { KeptReplyLaw }
{}

/// So does an entry with its data and its transaction.
pub fn entries_keep_volumes()
    ensures held { EntryLaw }
    ensures kept { KeptEntryLaw }
{}

/// So does data of which a front is written, and the write of the next page fails.
pub fn stopped_writes_keep_volumes()
    ensures held { StopLaw }
    ensures kept { KeptStopLaw }
{}
