//! When a step is allowed.

ghost use Rattle.std.specs.Prelude.{◌≡◌, ◌<◌, length};
ghost use Rattle.jfs_disk.specs.Image.{page_of};
ghost use Rattle.jfs_core.specs.Image.{page_after};
ghost use Rattle.jfs_core.specs.Core.{block_of, newest_of};
ghost use Rattle.jfs_disk.specs.Pages.{contents};
ghost use Rattle.jfs_core.specs.Step.{told_page};
ghost use Rattle.jfs_core.specs.Decision.{refusal, is_halted, ends_by, are_synced, may_go_home, same_bytes};
ghost use Rattle.jfs_disk.specs.declared.disk.Fault.{Fault};

use crate::block::{Slot, Span};
use crate::state::CoreState;
use crate::step::{FaultOf, Step, Why};
use jfs_disk::Page;

impl CoreState {
    /// The first condition of the step that doesn't hold, None exactly where it is allowed.
    pub(crate) fn refuses(&self, step: &Step) -> Option<Why>
        ensures { result ≡ refusal self.now step.now }
    {
        match step {
            Step::Append { tx } => (tx.len() != 0 && self.is_halted()).then_some(Why::Halted),
            Step::Take => self.grouped.then_some(Why::GroupOpen),
            Step::GroupWrite => self.refuses_group(),
            Step::Told => None,
            Step::Home { page } => self.refuses_home(*page),
            Step::LowSync => None,
            Step::SyncPoint { c } => self.refuses_sync(*c),
            Step::Fault { of, .. } => self.refuses_fault(of),
        }
    }

    fn is_halted(&self) -> bool
        ensures { result ≡ is_halted self.now }
    {
        self.low_halted.is_some() || self.log_halted.is_some()
    }

    fn refuses_group(&self) -> Option<Why>
        ensures { result ≡ refusal self.now Step.GroupWrite }
    {
        if self.log_halted.is_some() {
            return Some(Why::Halted);
        }
        if !self.grouped {
            return Some(Why::NoGroup);
        }
        None
    }

    fn refuses_home(&self, page: u32) -> Option<Why>
        ensures { result ≡ refusal self.now (Step.Home page) }
    {
        let dirty = self.dirty_at(page);
        if dirty.is_none() {
            return Some(Why::NotDirty);
        }
        if !ends_by(self.told, dirty) {
            return Some(Why::NotTold);
        }
        None
    }

    fn refuses_sync(&self, c: u64) -> Option<Why>
        ensures { result ≡ refusal self.now (Step.SyncPoint c) }
    {
        if c > self.told {
            return Some(Why::NotTold);
        }
        if c < self.newest() || !are_synced(&self.slots, c) {
            return Some(Why::NotSynced);
        }
        None
    }

    fn refuses_fault(&self, of: &FaultOf) -> Option<Why>
        ensures { (fault : Fault) → result ≡ refusal self.now (Step.Fault fault of.now) }
    {
        match of {
            FaultOf::Read => None,
            FaultOf::LowSync => None,
            FaultOf::GroupWrite => self.refuses_group(),
            FaultOf::LowWrite {
                page,
                bytes,
                sectors,
            } => {
                let may = *sectors <= 8
                    && self.may_go_home(*page)
                    && self.is_told_page(*page, bytes);
                (!may).then_some(Why::NotDirty)
            }
        }
    }

    fn may_go_home(&self, page: u32) -> bool
        ensures { result ≡ may_go_home self.now page }
    {
        let dirty = self.dirty_at(page);
        dirty.is_some() && ends_by(self.told, dirty)
    }

    /// Whether these are the page's bytes after the acknowledged entries.
    fn is_told_page(&self, page: u32, bytes: &Page) -> bool
        requires { page < length self.now.blocks }
        ensures { result ≡ same_bytes bytes.now.0 (told_page self.now page) }
    {
        bytes.0 == self.told_page(page).0
    }

    fn dirty_at(&self, page: u32) -> Option<Span>
        ensures { result ≡ (block_of self.now page).dirty }
    {
        match self.slots.get(page as usize) {
            Some(slot) => slot.dirty(),
            None => None,
        }
    }

    fn newest(&self) -> u64
        ensures { result ≡ newest_of self.now }
    {
        match self.syncpoints.last() {
            Some(c) => *c,
            None => 0,
        }
    }
}

fn ends_by(n: u64, span: Option<Span>) -> bool
    ensures { result ≡ ends_by n span }
{
    match span {
        Some(span) => span.last <= n,
        None => true,
    }
}

fn are_synced(slots: &[Slot], n: u64) -> bool
    ensures { result ≡ are_synced n slots.now }
{
    for slot in slots {
        if !slot.is_synced(n) {
            return false;
        }
    }
    true
}
