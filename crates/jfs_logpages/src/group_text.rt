//! The text of a group of records.

ghost use Rattle.std.specs.Prelude.{◌≡◌, ◌<◌, ◌≤◌, ◌+◌, ◌^◌, [], ◌∷◌, ◌++◌, length, map, vec_capacity, OnOk, OnErr};
ghost use Rattle.jfs_logfmt.specs.Written.{Fits, text_of};
ghost use Rattle.jfs_logpages.specs.Group.{AreRecords, AreRecords-prop, pages_of};
ghost use Rattle.jfs_logpages.specs.Ring.{ends_with, AreEnds};

use jfs_logfmt::{Record, write_record};
use std::alloc::{AllocError, Global};

/// Records that are written to the log as one: their bytes, where each ends in them, and the
/// number of the last entry that they belong to.
#[derive(Drop)]
pub struct GroupText {
    bytes: Vec<u8>,
    ends: Vec<u32>,
    last: u64,
    ghost records: { AreRecords 0 bytes.items ends.items } by { AreRecords-prop 0 bytes.items ends.items },
    ghost small: { length bytes.items < 2 ^ 32 },
}

impl GroupText {
    /// A group without records, whose last entry is `last`.
    pub fn new(alloc: Global, last: u64) -> GroupText
        ensures bytes { result.bytes.items ≡ [] }
        ensures ends { result.ends.items ≡ [] }
        ensures last { result.last ≡ last }
    {
        GroupText {
            bytes: Vec::new(alloc),
            ends: Vec::new(alloc),
            last,
        }
    }

    /// Adds a record of the entry `last`; a SYNCPT keeps the last entry.
    pub fn push(&mut self, record: &Record, last: u64) -> Result<(), AllocError>
        requires fits { Fits record.now }
        requires small { length self.old.bytes.items < 2 ^ 31 }
        ensures bytes { OnOk result (self.new.bytes.items ≡ self.old.bytes.items ++ text_of record.now) }
        ensures grows { OnOk result (length self.new.bytes.items < length self.old.bytes.items + 2 ^ 17) }
        ensures ends { OnOk result (self.new.ends.items ≡ self.old.ends.items ++ length self.new.bytes.items ∷ []) }
        ensures last { OnOk result (self.new.last ≡ last) }
        ensures kept { OnErr result ((self.new.bytes.items ≡ self.old.bytes.items) × (self.new.ends.items ≡ self.old.ends.items) × (self.new.last ≡ self.old.last)) }
    {
        let before = self.bytes.len();
        write_record(record, &mut self.bytes)?;
        match self.ends.push(self.bytes.len() as u32) {
            Ok(()) => {
                self.last = last;
                Ok(())
            }
            Err(_) => {
                self.bytes.truncate(before);
                Err(AllocError)
            }
        }
    }

    /// Makes room for a text of so many bytes and records. `Err` is want of memory; the text stays as it was.
    pub fn reserve(&mut self, bytes: usize, records: usize) -> Result<(), AllocError>
        ensures bytes { OnOk result (length self.new.bytes.items + bytes ≤ vec_capacity self.new.bytes) }
        ensures records { OnOk result (length self.new.ends.items + records ≤ vec_capacity self.new.ends) }
        ensures kept { (self.new.bytes.items ≡ self.old.bytes.items) × (self.new.ends.items ≡ self.old.ends.items) × (self.new.last ≡ self.old.last) }
    {
        self.bytes.reserve(bytes)?;
        self.ends.reserve(records)
    }

    /// Adds the records of another text, whose last entry is then the last one, within room that was made. Takes no memory.
    pub fn join(&mut self, more: &GroupText)
        requires bytes { length self.old.bytes.items + length more.now.bytes.items ≤ vec_capacity self.old.bytes }
        requires records { length self.old.ends.items + length more.now.ends.items ≤ vec_capacity self.old.ends }
        requires small { length self.old.bytes.items + length more.now.bytes.items < 2 ^ 32 }
        ensures text { self.new.bytes.items ≡ self.old.bytes.items ++ more.now.bytes.items }
        ensures ends { self.new.ends.items ≡ ends_with (length self.old.bytes.items) self.old.ends.items more.now.ends.items }
        ensures last { self.new.last ≡ more.now.last }
    {
        let start = self.bytes.len() as u32;
        match self.bytes.extend_from_slice(more.bytes()) {
            Ok(()) => {}
            Err(_) => unreachable!(),
        }
        push_ends(&mut self.ends, start, more.bytes.len(), more.ends());
        self.last = more.last;
    }

    /// Takes the last entry as far as one that has no records.
    pub fn reach(&mut self, last: u64)
        ensures last { self.new.last ≡ last }
        ensures kept { (self.new.bytes ≡ self.old.bytes) × (self.new.ends ≡ self.old.ends) }
    {
        self.last = last;
    }

    /// The record bytes.
    pub fn bytes(&self) -> &[u8]
        ensures { result.now ≡ self.now.bytes.items }
    {
        &self.bytes
    }

    /// Where each record ends in the bytes.
    pub fn ends(&self) -> &[u32]
        ensures { result.now ≡ self.now.ends.items }
    {
        &self.ends
    }

    /// The number of the last entry.
    pub fn last(&self) -> u64
        ensures { result ≡ self.now.last }
    {
        self.last
    }

    /// The greatest number of ring pages that the text touches; it may start anywhere in a page.
    pub fn pages(&self) -> u32
        ensures { result ≡ pages_of (length self.now.bytes.items) }
    {
        self.bytes.len().div_ceil(4080) as u32 + 1
    }
}

/// Adds the ends of a text of `size` bytes that stands behind `start` others, within room that was made.
fn push_ends(ends: &mut Vec<u32>, start: u32, size: usize, more: &[u32])
    requires room { length ends.old.items + length more.now ≤ vec_capacity ends.old }
    requires ends { AreEnds 0 size more.now }
    requires small { start + size < 2 ^ 32 }
    ensures { ends.new.items ≡ ends_with start ends.old.items more.now }
{
    for end in more {
        match ends.push(start + *end) {
            Ok(()) => {}
            Err(_) => unreachable!(),
        }
    }
}
