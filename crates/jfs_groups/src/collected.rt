//! What a commit needs of entries and of the volume.
ghost use Rattle.std.specs.Prelude.{ℕ, List, Option};
ghost use Rattle.jfs_records.specs.Records.{Noted};
ghost use Rattle.jfs_groups.specs.Start.{LogStart};
ghost use Rattle.jfs_groups.specs.Group.{Takes, MayTell, Tells, StandsForSome, Halts};

use jfs_disk::Fault;
use jfs_logpages::GroupText;
use jfs_turns::{HasClient, Stands};

/// An entry that may have records in a log.
pub trait HasRecords: HasClient {
    /// Its edits, each with what its record names beside it. None: it has no record.
    ghost logs: { Self → Option (List Noted) };

    /// What is known of the log's part, by the base.
    ghost start: { List (List ℕ) → LogStart };
}

/// A volume that hands out its entries' records. No call takes memory.
pub trait Collected<E: HasRecords>: Stands<E> {
    /// The records of all entries that no group has taken, as the text of one group.
    fn take_group(&mut self) -> GroupText
        ensures takes { Takes Self.stands E.logs E.start self.old self.new result };

    /// The first `n` entries are acknowledged.
    fn told(&mut self, n: u64)
        requires may { MayTell Self.stands self.old n }
        ensures tells { Tells Self.stands self.old n self.new };

    /// The log has halted by this fault. The list of syncpoints may have a mark of that then.
    fn halt(&mut self, fault: Fault)
        requires stands { StandsForSome Self.stands self.old }
        ensures halts { Halts Self.stands Self.count self.old self.new };
}
