//! The text that no group has taken, and its room in the log.

ghost use Rattle.std.specs.Prelude.{◌≡◌, true, ◌<◌, ◌≤◌, ◌+◌, ◌-◌, ◌*◌, ◌/◌, ◌^◌, ◌++◌, [], length, vec_capacity, OnOk};
ghost use Rattle.jfs_logpages.specs.Group.{pages_of, room_of};
ghost use Rattle.jfs_logpages.specs.Ring.{ends_with};
ghost use Rattle.jfs_volume.specs.Room.{fits_room, IsWithinRoom};

use jfs_logpages::GroupText;
use std::alloc::{AllocError, Global};
use std::mem;

/// The bytes that a SYNCPT takes in the log.
const POINT: u64 = 36;

/// The bytes on all pages that have a number of 32 bits.
const MOST: u64 = 4080 * 4_294_967_296;

/// The records that no group has taken, and where they will stand in the log. Positions are in bytes from the ring's page number 0 on.
///
/// They fit one group, so a quarter of the ring; all since the newest SYNCPT, with one more behind them, fit half of it; and the numbers of the pages have 32 bits.
#[derive(Drop)]
pub struct WaitingText {
    pub(crate) ring: u32,
    pub(crate) place: u64,
    pub(crate) sync: u64,
    pub(crate) text: GroupText,
    ghost ring_pages: { (254 ≤ ring) × (ring < 2 ^ 16) },
    ghost behind: { sync ≤ place },
    ghost room: { IsWithinRoom ring sync place (length text.bytes.items) },
}

/// Whether a text of `length` and `size` bytes more fits, that will stand at `place`.
fn fits_room(ring: u32, sync: u64, place: u64, length: u64, size: u64) -> bool
    requires behind { sync ≤ place }
    requires place { place ≤ 4080 * 2 ^ 32 }
    requires length { length < 2 ^ 32 }
    ensures { result ≡ fits_room ring sync place (length + size) }
{
    if size > MOST {
        return false;
    }
    let end = place + length + size + POINT;
    let pages = (length + size).div_ceil(4080) + 1;
    let since = (end - sync).div_ceil(4080) + 1;
    pages <= u64::from(ring / 4) && since <= u64::from(ring / 2) && end <= MOST
}

impl WaitingText {
    ghost use Rattle.jfs_volume.specs.Room.{has_room, since_in};
    ghost use Rattle.jfs_volume.specs.Text.{text_in};

    /// The text of a log that was just made, with so many ring pages: nothing waits, and the log's one SYNCPT stands at the start of its last page.
    pub fn new(alloc: Global, ring: u32) -> WaitingText
        requires { (254 ≤ ring) × (ring < 2 ^ 16) }
        ensures { text_in result ≡ record { ring = ring; place = 4080 * (ring - 1) + 36; sync = 4080 * (ring - 1); bytes = []; ends = []; last = 0 } }
    {
        let sync = 4080 * u64::from(ring - 1);
        WaitingText {
            ring,
            place: sync + POINT,
            sync,
            text: GroupText::new(alloc, 0),
        }
    }

    /// Whether so many bytes more may wait: with them the text still fits one group, half the ring since the newest SYNCPT, and the numbers of the log's pages.
    pub fn has_room(&self, size: u64) -> bool
        ensures { result ≡ has_room (text_in self.now) size }
    {
        let length = self.text.bytes().len() as u64;
        fits_room(self.ring, self.sync, self.place, length, size)
    }

    /// The number of ring pages that the records since the newest SYNCPT take, with those that wait and with that SYNCPT.
    pub fn since(&self) -> u32
        ensures { result ≡ since_in (text_in self.now) }
    {
        let end = self.place + self.text.bytes().len() as u64;
        ((end - self.sync).div_ceil(4080) + 1) as u32
    }

    /// Makes room in memory for so many bytes and records more. `Err` is want of memory.
    pub fn reserve(&mut self, bytes: usize, records: usize) -> Result<(), AllocError>
        ensures bytes { OnOk result (length self.new.text.bytes.items + bytes ≤ vec_capacity self.new.text.bytes) }
        ensures records { OnOk result (length self.new.text.ends.items + records ≤ vec_capacity self.new.text.ends) }
        ensures same { text_in self.new ≡ text_in self.old }
    {
        self.text.reserve(bytes, records)
    }

    /// Adds the records of an entry, which is the last one then, within room that was made and that the log has. It takes no memory.
    pub fn join(&mut self, more: &GroupText)
        requires bytes { length self.old.text.bytes.items + length more.now.bytes.items ≤ vec_capacity self.old.text.bytes }
        requires records { length self.old.text.ends.items + length more.now.ends.items ≤ vec_capacity self.old.text.ends }
        requires room { has_room (text_in self.old) (length more.now.bytes.items) ≡ true }
        ensures { text_in self.new ≡ record (text_in self.old) {
          bytes = self.old.text.bytes.items ++ more.now.bytes.items;
          ends = ends_with (length self.old.text.bytes.items) self.old.text.ends.items more.now.ends.items;
          last = more.now.last;
        } }
    {
        self.text.join(more);
    }

    /// Where the text will end, in bytes from the ring's page number 0 on.
    pub fn end(&self) -> u64
        ensures { result ≡ self.now.place + length self.now.text.bytes.items }
    {
        self.place + self.text.bytes().len() as u64
    }

    /// A SYNCPT that gives itself is taken at once, as the next group: redo begins with it, and nothing waits behind it.
    pub fn take_point(&mut self)
        requires empty { self.old.text.bytes.items ≡ [] }
        requires room { self.old.place + 72 ≤ 4080 * 2 ^ 32 }
        ensures { text_in self.new ≡ record (text_in self.old) { place = self.old.place + 36; sync = self.old.place } }
    {
        self.sync = self.place;
        self.place += POINT;
    }

    /// The last entry is one that has no records.
    pub fn reach(&mut self, last: u64)
        ensures { text_in self.new ≡ record (text_in self.old) { last = last } }
    {
        self.text.reach(last);
    }

    /// Hands out all that waits, for one group. It takes no memory.
    pub fn take(&mut self, alloc: Global) -> GroupText
        ensures text { (result.bytes.items ≡ self.old.text.bytes.items) × (result.ends.items ≡ self.old.text.ends.items) × (result.last ≡ self.old.text.last) }
        ensures rest { text_in self.new ≡ record (text_in self.old) { place = self.old.place + length self.old.text.bytes.items; bytes = []; ends = [] } }
    {
        let fresh = GroupText::new(alloc, self.text.last());
        self.place += self.text.bytes().len() as u64;
        mem::replace(&mut self.text, fresh)
    }
}
