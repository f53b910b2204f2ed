//! A block of the low part: its page, and the entries that it may not hold yet.

ghost use Rattle.std.specs.Prelude.{◌≡◌, ◌&&◌, ◌≤◌, Some, IfOk, OnOk, OnErr};
ghost use Rattle.jfs_disk.specs.Choice.{left_by};
ghost use Rattle.jfs_core.specs.Core.{fresh_block};
ghost use Rattle.jfs_core.specs.Step.{spanned, joined, dirtied, sent_home, failed_home, synced};
ghost use Rattle.jfs_core.specs.Decision.{begins_past};

use jfs_disk::{Choice, Page, PageSlot};
use std::alloc::{AllocError, Global};
use std::marker::Model;

/// A first and a last entry, counted from 1.
#[derive(Clone, Copy)]
pub struct Span {
    pub first: u64,
    pub last: u64,
}

/// A block's page, and the entries that it holds in memory alone, or not stable.
#[derive(Drop)]
pub struct Slot {
    pages: PageSlot,
    dirty: Option<Span>,
    unsynced: Option<Span>,
}

impl Model for Slot {
    ghost use Rattle.jfs_core.specs.Core.{Block};
    ghost use Rattle.jfs_disk.specs.Slot.{history_in};

    ghost Value = { Block };

    ghost view = { λ s. record { pages = history_in s.pages; dirty = s.dirty; unsynced = s.unsynced } };
}

impl Slot {
    pub fn new(alloc: Global, bytes: &Page) -> Result<Slot, AllocError>
        ensures { IfOk result (λ slot. slot ≡ fresh_block bytes.now.0) }
    {
        Ok(Slot {
            pages: PageSlot::new(alloc, bytes)?,
            dirty: None,
            unsynced: None,
        })
    }

    pub fn dirty(&self) -> Option<Span>
        ensures { result ≡ self.now.dirty }
    {
        self.dirty
    }

    /// Whether the block holds the first `n` entries, stable.
    pub fn is_synced(&self, n: u64) -> bool
        ensures { result ≡ (begins_past n self.now.dirty && begins_past n self.now.unsynced) }
    {
        begins_past(n, self.dirty) && begins_past(n, self.unsynced)
    }

    /// What a crash leaves of the block by a choice, and what a read gives where there is none or it doesn't fit.
    pub fn left(&self, choice: Option<Choice>) -> Page
        ensures { result.0 ≡ left_by choice self.now.pages self.now.pages.seen }
    {
        self.pages.left(choice)
    }

    /// Entry `n` touches the block.
    pub fn mark(&mut self, n: u64)
        ensures { self.new ≡ dirtied n self.old }
    {
        self.dirty = Some(spanned(n, self.dirty));
    }

    /// A low write of the page. At `Err` the block is as it was.
    pub fn send_home(&mut self, page: &Page) -> Result<(), AllocError>
        ensures ok { OnOk result (self.new ≡ sent_home page.now.0 self.old) }
        ensures err { OnErr result (self.new ≡ self.old) }
    {
        self.pages.write(page)?;
        self.unsynced = joined(self.unsynced, self.dirty);
        self.dirty = None;
        Ok(())
    }

    /// A low write that failed, after its first sectors. At `Err` the block is as it was.
    pub fn fail(&mut self, page: &Page, sectors: usize) -> Result<(), AllocError>
        requires { sectors ≤ 8 }
        ensures ok { OnOk result (self.new ≡ failed_home page.now.0 sectors self.old) }
        ensures err { OnErr result (self.new ≡ self.old) }
    {
        self.pages.fail(page, sectors)?;
        Ok(())
    }

    /// A low sync.
    pub fn sync(&mut self)
        ensures { self.new ≡ synced self.old }
    {
        self.pages.settle();
        self.unsynced = None;
    }
}

fn begins_past(n: u64, span: Option<Span>) -> bool
    ensures { result ≡ begins_past n span }
{
    match span {
        Some(span) => n < span.first,
        None => true,
    }
}

fn spanned(n: u64, dirty: Option<Span>) -> Span
    ensures { result ≡ spanned n dirty }
{
    match dirty {
        Some(span) => Span {
            first: span.first,
            last: n,
        },
        None => Span { first: n, last: n },
    }
}

fn joined(old: Option<Span>, dirty: Option<Span>) -> Option<Span>
    ensures { result ≡ joined old dirty }
{
    match (old, dirty) {
        (Some(old), Some(dirty)) => Some(Span {
            first: old.first,
            last: dirty.last,
        }),
        (Some(old), None) => Some(old),
        (None, dirty) => dirty,
    }
}
