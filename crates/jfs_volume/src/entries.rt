//! Entries that are handed out, and what a volume tells of itself.

ghost use Rattle.std.specs.Prelude.{◌≡◌, ◌≤◌, ◌<◌, ◌+◌, ℕ, nat_le, ◌∷◌, [], length, None};
ghost use Rattle.jfs_disk.specs.Image.{page_of};
ghost use Rattle.jfs_pages.specs.Dirty.{dirty_of};
ghost use Rattle.jfs_halves.specs.Parts.{OfEachHalf};
ghost use Rattle.jfs_halves.specs.Change.{HandsOut};
ghost use Rattle.jfs_halves.specs.Moves.{Moves};
ghost use Rattle.jfs_volume.specs.Room.{since_in};

use crate::volume::Volume;
use jfs_disk::{Disk, Fault};
use jfs_plain::Entry;
use std::alloc::Global;
use std::mem;

/// All entries of a list, which is empty then.
fn take_all(alloc: Global, entries: &mut Vec<Entry>) -> Vec<Entry>
    ensures entries { result.items ≡ entries.old.items }
    ensures rest { entries.new.items ≡ [] }
{
    let none = Vec::new(alloc);
    mem::replace(entries, none)
}

impl<D: Disk> Volume<D> {
    /// The entries that joined since the last such call or the mount, in order. The history stays. It takes no memory.
    pub fn take_entries(&mut self) -> Vec<Entry>
        ensures entries { result.items ≡ self.old.entries }
        ensures handed { OfEachHalf D.tells D.tells_crashes self.old (λ seen asked half. Moves seen asked self.old self.new half (HandsOut ∷ [])) }
        ensures rest { self.new ≡ record self.old { entries = [] } }
    {
        take_all(self.alloc, &mut self.entries)
    }

    /// The number of blocks of the file system part.
    pub fn blocks(&self) -> u32
        ensures { result ≡ self.now.blocks }
    {
        self.cache.blocks()
    }

    /// Whether the block map has states for blocks of the low part alone, as that of a volume has.
    pub fn has_whole_map(&self) -> bool
        ensures { result ≡ nat_le (length self.now.map.states) self.now.blocks }
    {
        self.maps.blocks.blocks() <= self.cache.blocks()
    }

    /// How many pages are dirty.
    pub fn dirty(&self) -> usize
        ensures { result ≡ length self.now.dirty }
    {
        self.cache.dirty_count()
    }

    /// The first fault of a write or sync of either part of the disk, and `None` where there was none.
    pub fn halted(&self) -> Option<Fault>
        ensures { result ≡ self.now.halted }
    {
        self.halted
    }

    /// How many entries the history has, and the number of its last one.
    pub fn appended(&self) -> u64
        ensures { result ≡ self.now.appended }
    {
        self.appended
    }

    /// The number of ring pages that the records since the newest SYNCPT take, with those that no group has taken.
    pub fn since(&self) -> u32
        ensures { result ≡ since_in self.now.text }
    {
        self.text.since()
    }

    /// The number of pages of the log's ring.
    pub fn ring(&self) -> u32
        ensures { result ≡ self.now.text.ring }
    {
        self.text.ring
    }

    /// Where the log's text will end once all that waits is written, in bytes from the ring's page number 0 on.
    pub fn text_end(&self) -> u64
        ensures { result ≡ self.now.text.place + length self.now.text.bytes }
    {
        self.text.end()
    }

    /// Hands back the low part, as it is. Pages that are dirty are lost. It takes no memory.
    pub fn into_low(self) -> D
        ensures pages { (D.page_count result ≡ self.count) × (D.room result ≡ self.room) × (D.fault_count result ≡ self.faults) }
        ensures image { D.image result ≡ self.disk }
        ensures past { D.past result ≡ self.past }
        ensures place { self.blocks ≤ self.count }
        // Where no page is dirty, the disk has what the volume shows.
        ensures clean { D.tells → ((p : ℕ) → dirty_of self.dirty p ≡ None) → (p : ℕ) → p < self.blocks → page_of self.disk p ≡ page_of self.view p }
    {
        let Volume { cache, .. } = self;
        cache.into_disk()
    }
}
