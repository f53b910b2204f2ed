//! A page that is kept in memory with its pending writes.

ghost use Rattle.std.specs.Prelude.{◌≡◌, ◌≤◌, length, ℕ};
ghost use Rattle.jfs_disk.specs.Pages.{content_in};

use crate::choice::{Choice, torn};
use crate::page::{Page, boxed, copy_page};
use std::alloc::{AllocError, Global};

/// A page of a disk: its stable content, the writes since the last sync that succeeded, and which of these a read gives.
/// It takes the memory of its contents alone.
#[derive(Drop)]
pub struct PageSlot {
    alloc: Global,
    stable: Box<Page>,
    writes: Vec<Box<Page>>,
    shown: usize,
    ghost there: { shown ≤ length writes.items },
    ghost sizes: { (k : ℕ) → k ≤ length writes.items → length (content_in stable writes.items k) ≡ 4096 },
}

impl PageSlot {
    ghost use Rattle.std.specs.Prelude.{IfOk, OnOk, OnErr};
    ghost use Rattle.jfs_disk.specs.Crash.{resting, page_written, page_failed, content_of};
    ghost use Rattle.jfs_disk.specs.Choice.{fits, left_by};
    ghost use Rattle.jfs_disk.specs.Slot.{history_in};

    /// A page with these bytes, stable, and nothing pending.
    pub fn new(alloc: Global, bytes: &Page) -> Result<PageSlot, AllocError>
        ensures { IfOk result (λ slot. history_in slot ≡ resting bytes.now.0) }
    {
        Ok(PageSlot {
            alloc,
            stable: boxed(alloc, bytes)?,
            writes: Vec::new(alloc),
            shown: 0,
        })
    }

    /// What a read gives.
    pub fn seen(&self) -> &Page
        ensures { result.now.0 ≡ (history_in self.now).seen }
    {
        self.content(self.shown)
    }

    /// Content 0 is the stable one, and content `k` the `k`-th write since the last sync.
    fn content(&self, k: usize) -> &Page
        requires { k ≤ length (history_in self.now).writes }
        ensures { result.now.0 ≡ content_of (history_in self.now) k }
    {
        if k == 0 {
            return &self.stable;
        }
        &self.writes[k - 1]
    }

    /// A write that succeeded: it is pending, and a read gives it. At `Err` the page is as it was.
    pub fn write(&mut self, bytes: &Page) -> Result<(), AllocError>
        ensures ok { OnOk result (history_in self.new ≡ page_written bytes.now.0 (history_in self.old)) }
        ensures err { OnErr result (history_in self.new ≡ history_in self.old) }
    {
        let page = boxed(self.alloc, bytes)?;
        self.writes.push(page)?;
        self.shown = self.writes.len();
        Ok(())
    }

    /// A write that failed after its first sectors. At `Err` the page is as it was.
    pub fn fail(&mut self, bytes: &Page, sectors: usize) -> Result<(), AllocError>
        requires { sectors ≤ 8 }
        ensures ok { OnOk result (history_in self.new ≡ page_failed bytes.now.0 sectors (history_in self.old)) }
        ensures err { OnErr result (history_in self.new ≡ history_in self.old) }
    {
        let left = boxed(self.alloc, &torn(bytes, self.seen(), sectors))?;
        let page = boxed(self.alloc, bytes)?;
        self.writes.reserve(2)?;
        let shown = self.writes.len() + 1;
        self.writes.push(left)?;
        self.writes.push(page)?;
        self.shown = shown;
        Ok(())
    }

    /// A sync: what a read gives is stable, and nothing is pending.
    pub fn settle(&mut self)
        ensures { history_in self.new ≡ resting (history_in self.old).seen }
    {
        if self.shown == 0 {
            self.writes.clear();
            return;
        }
        let page = self.writes.swap_remove(self.shown - 1);
        self.shown = 0;
        self.writes.clear();
        self.stable = page;
    }

    /// What a crash leaves of the page by a choice, and what a read gives where there is none or it doesn't fit.
    pub fn left(&self, choice: Option<Choice>) -> Page
        ensures { result.0 ≡ left_by choice (history_in self.now) (history_in self.now).seen }
    {
        match choice {
            Some(choice) if self.fits(choice) => torn(
                self.content(choice.top as usize),
                self.content(choice.base as usize),
                choice.sectors as usize,
            ),
            _ => Page(self.seen().0),
        }
    }

    fn fits(&self, choice: Choice) -> bool
        ensures { result ≡ fits choice (history_in self.now) }
    {
        choice.base <= choice.top && choice.top as usize <= self.writes.len() && choice.sectors <= 8
    }

    /// A crash: what it leaves of the page by a choice is stable, and nothing is pending. It takes no memory.
    pub fn crash(&mut self, choice: Option<Choice>)
        ensures { history_in self.new ≡ resting (left_by choice (history_in self.old) (history_in self.old).seen) }
    {
        let left = self.left(choice);
        self.shown = 0;
        self.writes.clear();
        copy_page(&left, &mut self.stable);
    }
}
