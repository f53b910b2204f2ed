//! An entry of the list that all clients' calls make.

use jfs_bits::Moment;
use jfs_groups::HasRecords;
use jfs_plain::Entry;
use jfs_turns::HasClient;
use std::marker::Model;

/// A call of a client that has its reply, with the moment that it was handed. No value of it is made: in contracts it has its transaction too, which nothing holds once it is logged.
pub struct Recorded {
    pub entry: Entry,
    pub now: Moment,
}

impl Model for Recorded {
    ghost use Rattle.std.specs.Prelude.{None};
    ghost use Rattle.jfs_shared.specs.Entries.{Recorded as Seen};

    ghost Value = { Seen };

    ghost view = { λ r. record { entry = r.entry; now = r.now; noted = None } };
}

impl HasClient for Recorded {
    ghost client = { λ e. e.entry.client };
}

impl HasRecords for Recorded {
    ghost use Rattle.jfs_shared.specs.Base.{log_start_of};

    ghost logs = { λ e. e.noted };

    ghost start = { log_start_of };
}
