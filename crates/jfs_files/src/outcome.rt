//! What a file call is given, and what it answers.

ghost use Rattle.std.specs.Prelude.{◌≡◌, []};
ghost use Rattle.jfs_plain.specs.declared.reply.Reply.TheVariants.{Refused};
ghost use Rattle.jfs_files.specs.declared.outcome.FileOutcome.TheVariants.{Changed, Same};

use jfs_plain::{Refusal, Reply};
use jfs_ranges::Tx;
use jfs_truncate::data_steps::DataList;
use std::alloc::Global;

/// What a file call answers.
#[derive(Drop)]
pub enum FileOutcome {
    /// The call is done, with `Done` as its reply, once these blocks are written and then this transaction is appended. The blocks that it takes are reserved.
    Changed { tx: Tx, blocks: DataList },
    /// Nothing changes, and this is the reply.
    Same(Reply),
    /// Busy blocks stand between the call and its blocks: it is to be called again once the entries that freed them are durable.
    NeedsLog,
}

impl FileOutcome {
    /// A transaction, and no block of a file.
    pub(crate) fn changed(alloc: Global, tx: Tx) -> FileOutcome
        ensures { result ≡ Changed tx [] }
    {
        FileOutcome::Changed {
            tx,
            blocks: DataList::new(alloc),
        }
    }

    pub(crate) fn refused(why: Refusal) -> FileOutcome
        ensures { result ≡ Same (Refused why) }
    {
        FileOutcome::Same(Reply::Refused(why))
    }
}
