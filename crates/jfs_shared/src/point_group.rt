//! The group of a SYNCPT alone.

ghost use Rattle.std.specs.Prelude.{◌≡◌, ◌∷◌, []};
ghost use Rattle.jfs_logfmt.specs.declared.log_record.Record.TheVariants.{SyncPt};
ghost use Rattle.jfs_logpages.specs.Records.{log_text};

use jfs_logfmt::Record;
use jfs_logpages::GroupText;
use std::alloc::{AllocError, Global};

/// The text of one SYNCPT, which gives its own address, as a group. It is made once, so that a syncpoint takes no memory.
#[derive(Drop)]
pub struct PointGroup {
    pub(crate) text: GroupText,
    ghost bytes: { text.bytes.items ≡ log_text (SyncPt 0 ∷ []) },
    ghost ends: { text.ends.items ≡ 36 ∷ [] },
}

impl PointGroup {
    /// `Err` is want of memory.
    pub fn new(alloc: Global) -> Result<PointGroup, AllocError> {
        let mut text = GroupText::new(alloc, 0);
        match text.push(&Record::SyncPt { sync: 0 }, 0) {
            Ok(()) => Ok(PointGroup { text }),
            Err(_) => Err(AllocError),
        }
    }

    /// The last entry before it is this one.
    pub(crate) fn reach(&mut self, last: u64)
        ensures { self.new.text.last ≡ last }
    {
        self.text.reach(last);
    }
}
