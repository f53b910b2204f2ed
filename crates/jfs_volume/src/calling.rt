//! The entry of a file call joins the history, by what the call answered alone.

ghost use Rattle.std.specs.Prelude.{◌≡◌, ◌<◌, ◌≤◌, ◌+◌, ◌^◌, length, None};
ghost use Rattle.jfs_disk.specs.Image.{page_of};
ghost use Rattle.jfs_bmap.specs.States.{AreReserved};
ghost use Rattle.jfs_marks.specs.data_steps.specs.After.{LieWithin};
ghost use Rattle.jfs_ranges.specs.View.{AreWhole};
ghost use Rattle.jfs_pages.specs.Kept.{image_in};
ghost use Rattle.jfs_volume.specs.Asked.{LeavesCache};
ghost use Rattle.jfs_volume.specs.Called.{CallIs, ReservedIs, IsRead, BesideOf, NotesOf, MarksOf, are_clean, called_of};
ghost use Rattle.jfs_volume.specs.Runs.{taken_in};

use crate::front::Front;
use crate::gone::frees_gone;
use crate::joined::Joined;
use crate::placing::have_places;
use crate::runs::taken_runs;
use crate::volume::Volume;
use jfs_bits::PxdList;
use jfs_disk::{Disk, Fault};
use jfs_imap::InodeMap;
use jfs_marks::data_steps::DataList;
use jfs_marks::{InodeMarks, Marking, frees_behind, inode_marks, is_loggable, notes_of};
use jfs_plain::Entry;
use jfs_ranges::{PageView, Tx, ViewError};
use jfs_records::Notes;
use std::alloc::Global;

/// How the entry of a file call joins the history.
#[derive(Clone, Copy, PartialEq, Eq, Debug)]
pub enum Called {
    /// It has this number, counted from 1.
    Entered { entry: u64 },
    /// The log has no room for its records.
    NoRoom,
    NoMemory,
    /// A page can't be read; or the write of a block of a file failed, and the volume has halted. The part's count of faults rose to the fault's.
    Failed { fault: Fault },
    /// No file call has such a transaction on a consistent volume.
    Unfit,
}

/// What an entry needs beside its transaction and its data.
#[derive(Drop)]
struct Beside {
    notes: Notes,
    marks: InodeMarks,
}

/// Why an entry doesn't join.
fn failed(error: ViewError) -> Called
    ensures { result ≡ called_of error }
{
    match error {
        ViewError::Memory => Called::NoMemory,
        ViewError::Read(fault) => Called::Failed { fault },
    }
}

/// What the records of a transaction name beside its edits; the view keeps its loan of the cache.
fn notes_in_loan<'a, D: Disk>(
    alloc: Global,
    front: &mut Front<'a, D>,
    tx: &Tx,
) -> Result<Notes, Called>
    ensures loan { front.new.cache.ghost_name ≡ front.old.cache.ghost_name }
    ensures cache { LeavesCache D.Disk front.old.cache.now front.new.cache.now }
    ensures blocks { front.new.blocks ≡ front.old.blocks }
    ensures notes { NotesOf D.tells front.old.blocks (page_of (image_in front.old.cache.now.blocks (D.image front.old.cache.now.disk) front.old.cache.now.kept)) tx.now (D.fault_count front.old.cache.now.disk) (D.fault_count front.new.cache.now.disk) result }
{
    match notes_of(alloc, front, tx) {
        Ok(notes) => Ok(notes),
        Err(error) => Err(failed(error)),
    }
}

/// What it changes of the inode map; the view keeps its loan of the cache.
fn marks_in_loan<'a, D: Disk>(
    front: &mut Front<'a, D>,
    inodes: &InodeMap,
    tx: &Tx,
    pages: &DataList,
) -> Result<InodeMarks, Called>
    ensures loan { front.new.cache.ghost_name ≡ front.old.cache.ghost_name }
    ensures cache { LeavesCache D.Disk front.old.cache.now front.new.cache.now }
    ensures marks { MarksOf D.tells front.old.blocks (page_of (image_in front.old.cache.now.blocks (D.image front.old.cache.now.disk) front.old.cache.now.kept)) inodes.now tx.now pages.now
        (D.fault_count front.old.cache.now.disk) (D.fault_count front.new.cache.now.disk) result }
{
    match inode_marks(front, inodes, tx, pages) {
        Ok(Marking::Fits(marks)) => Ok(marks),
        Ok(Marking::Unfit) => Err(Called::Unfit),
        Err(error) => Err(failed(error)),
    }
}

/// Both; the view keeps its loan of the cache.
fn beside_in_loan<'a, D: Disk>(
    alloc: Global,
    front: &mut Front<'a, D>,
    inodes: &InodeMap,
    tx: &Tx,
    pages: &DataList,
) -> Result<Beside, Called>
    ensures loan { front.new.cache.ghost_name ≡ front.old.cache.ghost_name }
    ensures cache { LeavesCache D.Disk front.old.cache.now front.new.cache.now }
    ensures beside { BesideOf D.tells front.old.blocks (page_of (image_in front.old.cache.now.blocks (D.image front.old.cache.now.disk) front.old.cache.now.kept)) inodes.now tx.now pages.now
        (D.fault_count front.old.cache.now.disk) (D.fault_count front.new.cache.now.disk) result }
{
    let notes = match notes_in_loan(alloc, front, tx) {
        Ok(notes) => notes,
        Err(called) => return Err(called),
    };
    if !is_loggable(front.blocks(), tx, &notes) {
        return Err(Called::Unfit);
    }
    if !frees_behind(tx) || !frees_gone(tx.as_slice()) {
        return Err(Called::Unfit);
    }
    match marks_in_loan(front, inodes, tx, pages) {
        Ok(marks) => Ok(Beside { notes, marks }),
        Err(called) => Err(called),
    }
}

impl<D: Disk> Volume<D> {
    /// Data is written to blocks of files, and then the entry of a call joins the history with its transaction, both as a file call answered them. Where it doesn't join, the blocks that were reserved for it are free
    /// again.
    pub fn append_call(&mut self, entry: Entry, tx: &Tx, pages: &DataList) -> Called
        requires running { self.old.halted ≡ None }
        requires number { self.old.appended + 1 < 2 ^ 32 }
        requires blocks { length self.old.map.states ≤ self.old.blocks }
        requires contents { LieWithin (length self.old.map.states) pages.now }
        ensures { CallIs D.tells D.tells_crashes entry tx.now pages.now self.old self.new result }
    {
        let called = match taken_runs(self.alloc, tx.as_slice()) {
            Ok(taken) => {
                if !self.maps.blocks.are_reserved(&taken) {
                    return Called::Unfit;
                }
                self.append_reserved(entry, tx, &taken, pages)
            }
            Err(_) => return Called::NoMemory,
        };
        match called {
            Called::Entered { .. } => {}
            _ => self.give_back(tx),
        }
        called
    }

    /// The same where the blocks that the transaction takes are reserved.
    fn append_reserved(
        &mut self,
        entry: Entry,
        tx: &Tx,
        taken: &PxdList,
        pages: &DataList,
    ) -> Called
        requires running { self.old.halted ≡ None }
        requires number { self.old.appended + 1 < 2 ^ 32 }
        requires blocks { length self.old.map.states ≤ self.old.blocks }
        requires contents { LieWithin (length self.old.map.states) pages.now }
        requires taken { taken.now ≡ taken_in tx.now }
        requires reserved { AreReserved self.old.map (taken_in tx.now) }
        ensures { ReservedIs D.tells D.tells_crashes entry tx.now pages.now self.old self.new result }
    {
        if !self.are_clean(pages) || !have_places(&self.maps.blocks, taken.as_slice(), pages) {
            return Called::Unfit;
        }
        let beside = match self.beside(tx, pages) {
            Ok(beside) => beside,
            Err(called) => return called,
        };
        match self.append(entry, tx, &beside.notes, beside.marks, pages) {
            Joined::Entered { entry } => Called::Entered { entry },
            Joined::NoRoom => Called::NoRoom,
            Joined::NoMemory => Called::NoMemory,
            Joined::Unread { fault } => Called::Failed { fault },
            Joined::Failed { fault } => Called::Failed { fault },
        }
    }

    /// Whether none of these pages is dirty.
    fn are_clean(&self, pages: &DataList) -> bool
        ensures { result ≡ are_clean pages.now self.now.dirty }
    {
        for page in pages.as_slice() {
            if self.cache.dirty_page(page.block).is_some() {
                return false;
            }
        }
        true
    }

    /// Each page has 4,096 bytes.
    fn has_whole_pages(&self)
        ensures { D.tells → AreWhole self.now.blocks self.now.view }
    {
        let _ = &self.cache;
    }

    /// What the entry needs beside its transaction and its data, by the pages as they are.
    fn beside(&mut self, tx: &Tx, pages: &DataList) -> Result<Beside, Called>
        requires blocks { length self.old.map.states ≤ self.old.blocks }
        ensures read { IsRead D.tells D.tells_crashes self.old self.new }
        ensures whole { D.tells → AreWhole self.old.blocks self.old.view }
        ensures beside { BesideOf D.tells (length self.old.map.states) (page_of self.old.view) self.old.inodes tx.now pages.now self.old.faults self.new.faults result }
    {
        self.has_whole_pages();
        let blocks = self.maps.blocks.blocks();
        let mut front = Front::new(&mut self.cache, blocks);
        beside_in_loan(self.alloc, &mut front, &self.maps.inodes, tx, pages)
    }
}
