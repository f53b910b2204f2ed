//! The states that a disk in memory has had. Only clauses read them.

ghost use Rattle.std.specs.Prelude.{List};
ghost use Rattle.std.specs.Borrow.{ftrue};
ghost use Rattle.jfs_disk.specs.Crash.{DiskState};

use crate::page::Page;
use crate::slot::PageSlot;
use std::marker::Model;

/// The states of a disk, the oldest first. It takes no memory, and its calls do nothing when they run.
#[derive(Drop)]
pub struct Past {
    pub ghost states: { List DiskState },
}

impl Model for Past {
    ghost also_owns = { λ _. ftrue };
}

// It owns nothing.
unsafe impl Send for Past {}

/// What happened to a disk.
#[derive(Clone, Copy)]
pub enum Event<'a> {
    /// It is what these slots keep, of so many pages, and had no state before.
    Began(u32, &'a [Option<Box<PageSlot>>]),
    /// A write, and whether it failed and left the page as it was.
    Wrote(u32, &'a Page, bool),
    Synced,
    /// It is the part below this page.
    Low(u32),
    /// It is the part from this page on.
    High(u32),
    /// The part that comes behind it was joined to it.
    Joined(&'a Past),
}

impl Past {
    ghost use Rattle.std.specs.Prelude.{◌≡◌, []};
    ghost use Rattle.jfs_disk.specs.Past.{after_event};

    pub fn new() -> Past
        ensures { result.states ≡ [] }
    {
        Past {}
    }

    pub fn then(&self, _event: &Event<'_>) -> Past
        ensures { result.states ≡ after_event _event.now self.now.states }
    {
        Past {}
    }
}
