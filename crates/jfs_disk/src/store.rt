//! What a disk in memory keeps.

ghost use Rattle.std.specs.Prelude.{◌≡◌, ◌<◌, ◌≤◌, length, vec_len};
ghost use Rattle.std.specs.Vec.{vec_capacity};
ghost use Rattle.jfs_disk.specs.Crash.{last_of};
ghost use Rattle.jfs_disk.specs.Table.{state_in};

use crate::choice::Choice;
use crate::page::Page;
use crate::past::{Event, Past};
use crate::slot::PageSlot;
use crate::table::{append, lengthen, read_place, settle_all, split, write_place};
use std::alloc::{AllocError, Global};

/// So many pages: a place for each up to the last one that was written, and a slot where it was. A part that was cut off
/// has room for the places of all pages of the disk that it came from, so that a join takes no memory.
#[derive(Drop)]
pub struct Store {
    alloc: Global,
    count: u32,
    room: u32,
    slots: Vec<Option<Box<PageSlot>>>,
    past: Past,
    ghost within: { length slots.items ≤ count },
    ghost reserved: { room ≤ vec_capacity slots },
    ghost current: { last_of past.states ≡ state_in count slots.items },
    ghost begun: { 0 < length past.states },
}

impl Store {
    ghost use Rattle.std.specs.Prelude.{◌++◌, ◌∷◌, ◌+◌, ◌-◌, [], OnOk, OnErr, IfOk, IfErr};
    ghost use Rattle.jfs_disk.specs.Image.{zeros, page_of};
    ghost use Rattle.jfs_disk.specs.Crash.{DiskState, seen_of, settled, at_rest};
    ghost use Rattle.jfs_disk.specs.Put.{state_after};
    ghost use Rattle.jfs_disk.specs.Choice.{IsChosen};
    ghost use Rattle.jfs_disk.specs.Cut.{lows_of, highs_of, joined};
    ghost use Rattle.jfs_disk.specs.Store.{past_in};

    /// A disk of so many pages of zeros.
    pub fn new(alloc: Global, count: u32) -> Self
        ensures count { result.count ≡ count }
        ensures room { result.room ≡ 0 }
        ensures past { past_in result ≡ at_rest (zeros count) ∷ [] }
    {
        let slots = Vec::new(alloc);
        let past = Past::new().then(&Event::Began(count, slots.as_slice()));
        Store {
            alloc,
            count,
            room: 0,
            slots,
            past,
        }
    }

    pub fn pages(&self) -> u32
        ensures { result ≡ self.now.count }
    {
        self.count
    }

    pub fn read(&self, n: u32, into: &mut Page)
        requires { n < self.now.count }
        ensures { into.new.0 ≡ page_of (seen_of (last_of (past_in self.now))) n }
    {
        let place = n as usize;
        if place < self.slots.len() {
            read_place(&self.slots[place], into);
        } else {
            *into = Page::zeros();
        }
    }

    /// There is a place for page `n`.
    fn make_place(&mut self, n: u32) -> Result<(), AllocError>
        requires { n < self.old.count }
        ensures count { self.new.count ≡ self.old.count }
        ensures room { self.new.room ≡ self.old.room }
        ensures past { past_in self.new ≡ past_in self.old }
        ensures place { OnOk result (n < length self.new.slots.items) }
    {
        let len = n as usize + 1;
        if self.slots.len() < len {
            let more = len - self.slots.len();
            self.slots.reserve(more)?;
            lengthen(&mut self.slots, more);
        }
        Ok(())
    }

    /// A write. One that fails is pending, and leaves the page as it was. At `Err` there was no memory.
    pub fn write(&mut self, n: u32, from: &Page, fails: bool) -> Result<(), AllocError>
        requires { n < self.old.count }
        ensures count { self.new.count ≡ self.old.count }
        ensures room { self.new.room ≡ self.old.room }
        ensures past { OnOk result (past_in self.new ≡ past_in self.old ++ state_after fails n from.now.0 (last_of (past_in self.old)) ∷ []) }
        ensures err { OnErr result (past_in self.new ≡ past_in self.old) }
    {
        self.make_place(n)?;
        write_place(&mut self.slots[n as usize], self.alloc, from, fails)?;
        self.past = self.past.then(&Event::Wrote(n, from, fails));
        Ok(())
    }

    /// A crash leaves each page as its first choice says. From then on that is stable.
    pub fn crash(&mut self, choices: &[Choice])
        ensures count { self.new.count ≡ self.old.count }
        ensures room { self.new.room ≡ self.old.room }
        ensures chosen { IsChosen choices.now (last_of (past_in self.old)) (seen_of (last_of (past_in self.new))) }
        ensures past { past_in self.new ≡ at_rest (seen_of (last_of (past_in self.new))) ∷ [] }
    {
        let _count = self.count;
        settle_all(&mut self.slots, choices);
        self.past = Past::new().then(&Event::Began(self.count, self.slots.as_slice()));
    }

    /// It takes no memory.
    pub fn sync(&mut self)
        ensures count { self.new.count ≡ self.old.count }
        ensures room { self.new.room ≡ self.old.room }
        ensures past { past_in self.new ≡ past_in self.old ++ settled (last_of (past_in self.old)) ∷ [] }
    {
        let _count = self.count;
        settle_all(&mut self.slots, &[]);
        self.past = self.past.then(&Event::Synced);
    }

    /// The part below page `at`, and the part from it on.
    pub fn cut(self, at: u32) -> Result<(Store, Store), Store>
        requires { at ≤ self.count }
        ensures counts { IfOk result (λ parts. (parts.0.count ≡ at) × (parts.1.count ≡ self.count - at)) }
        ensures room { IfOk result (λ parts. (self.count ≤ parts.0.room) × (self.room ≤ parts.0.room)) }
        ensures past { IfOk result (λ parts. (past_in parts.0 ≡ lows_of at (past_in self)) × (past_in parts.1 ≡ highs_of at (past_in self))) }
        ensures refused { IfErr result (λ store. (store.count ≡ self.count) × (store.room ≡ self.room) × (past_in store ≡ past_in self)) }
    {
        let Store {
            alloc,
            count,
            room,
            mut slots,
            past,
        } = self;
        let reserved = room.max(count);
        let keep = slots.len().min(at as usize);
        let Ok(tail) = split(&mut slots, keep, reserved as usize) else {
            return Err(Store {
                alloc,
                count,
                room,
                slots,
                past,
            });
        };
        let high = Store {
            alloc,
            count: count - at,
            room: 0,
            slots: tail,
            past: past.then(&Event::High(at)),
        };
        let low = Store {
            alloc,
            count: at,
            room: reserved,
            slots,
            past: past.then(&Event::Low(at)),
        };
        Ok((low, high))
    }

    /// Both parts together. It takes no memory.
    pub fn join(low: Store, high: Store) -> Store
        requires { low.count + high.count ≤ low.room }
        ensures count { result.count ≡ low.count + high.count }
        ensures room { result.room ≡ low.room }
        ensures past { past_in result ≡ joined (past_in low) (past_in high) }
    {
        let past = low.past.then(&Event::Joined(&high.past));
        let count = low.count + high.count;
        let more = low.count as usize - low.slots.len();
        let mut slots = low.slots;
        lengthen(&mut slots, more);
        append(&mut slots, high.slots);
        Store {
            alloc: low.alloc,
            count,
            room: low.room,
            slots,
            past,
        }
    }
}
