//! Entries with a transaction join the history.

ghost use Rattle.std.specs.Prelude.{◌≡◌, ◌<◌, ◌≤◌, ◌+◌, ◌^◌, ℕ, true, List, length, None, IfOk};
ghost use Rattle.std.specs.List.{AllByRecursion};
ghost use Rattle.jfs_bits.specs.declared.descriptor.Moment.{Moment};
ghost use Rattle.jfs_ranges.specs.Apply.{touches_tx};
ghost use Rattle.jfs_records.specs.Limits.{IsLoggable};
ghost use Rattle.jfs_records.specs.Records.{Noted, noted, tx_of};
ghost use Rattle.jfs_records.specs.Sizes.{entry_size as size_of_entry};
ghost use Rattle.jfs_bmap.specs.States.{AreReserved};
ghost use Rattle.jfs_marks.specs.data_steps.specs.After.{LieWithin};
ghost use Rattle.jfs_halves.specs.Parts.{OfEachHalf};
ghost use Rattle.jfs_volume.specs.Append.{Appends, IsWritable, IsDraft, HasRuns, StaysUnless, KeepsStates, TellsRoom, TellsFault, unreserved, AddsEntry, ShowsEntry};
ghost use Rattle.jfs_marks.specs.Marks.{FitsMarks};
ghost use Rattle.jfs_volume.specs.Data.{AreClean};
ghost use Rattle.jfs_volume.specs.Room.{has_room};
ghost use Rattle.jfs_volume.specs.Runs.{taken_in};
ghost use Rattle.jfs_volume.specs.declared.joined.Joined.TheVariants.{NoRoom};

use crate::data::put_all;
use crate::draft::{Draft, add, make_draft, take_runs};
use crate::joined::Joined;
use crate::marks::mark;
use crate::ready::make_ready;
use crate::stale::mark_files;
use crate::volume::Volume;
use jfs_disk::Disk;
use jfs_marks::InodeMarks;
use jfs_marks::data_steps::DataList;
use jfs_plain::Entry;
use jfs_ranges::{Tx, ViewError};
use jfs_records::{Notes, entry_size};
use std::alloc::AllocError;

impl<D: Disk> Volume<D> {
    /// Blocks of files are written, past the log, and then the entry of a call joins the history with its transaction, for whose edits `notes` has what their records name beside them. The pages that it changes are dirty, its records wait for a group, the blocks that
    /// were reserved for it have owners, and those that it frees are busy until it is acknowledged. Pages of a map that it changes are stale; none is dirty.
    ///
    /// Room in the log and in memory is had first, so it joins whole or not at all; of the data alone a front may have been written, where a write failed.
    pub fn append(
        &mut self,
        entry: Entry,
        tx: &Tx,
        notes: &Notes,
        marks: InodeMarks,
        contents: &DataList,
    ) -> Joined
        requires running { self.old.halted ≡ None }
        requires number { self.old.appended + 1 < 2 ^ 32 }
        requires blocks { length self.old.map.states ≤ self.old.blocks }
        requires noted { length tx.now ≡ length notes.now }
        requires loggable { AllByRecursion (IsLoggable (length self.old.map.states)) (noted tx.now notes.now) }
        requires reserved { AreReserved self.old.map (taken_in tx.now) }
        requires marks { FitsMarks self.old.inodes marks }
        requires contents { LieWithin self.old.blocks contents.now }
        // Blocks that are written are no busy ones, and no entry holds changes of them in memory.
        ensures appends { IsWritable contents.now (unreserved tx.now self.old) → (now : Moment) → OfEachHalf D.tells D.tells_crashes (unreserved tx.now self.old)
            (λ seen asked half. Appends seen asked entry now (noted tx.now notes.now) contents.now self.old self.new half result) }
        ensures adds { AddsEntry entry (noted tx.now notes.now) marks self.old self.new result }
        ensures shows { D.tells → AreClean contents.now self.old.dirty → ShowsEntry contents.now tx.now self.old self.new result }
        ensures stays { StaysUnless D.tells D.tells_crashes result self.old self.new }
        ensures room { TellsRoom (has_room self.old.text (size_of_entry (noted tx.now notes.now))) result }
        ensures fault { TellsFault self.old.faults self.new.faults result }
    {
        if !self.has_room_for(tx, notes) {
            return Joined::NoRoom;
        }
        match self.prepare(tx, notes) {
            Ok(draft) => self.enter(entry, tx, &draft, marks, contents),
            Err(_) => Joined::NoMemory,
        }
    }

    /// Whether the log has room for the records of a transaction, with all that waits.
    pub fn has_room_for(&self, tx: &Tx, notes: &Notes) -> bool
        requires { length tx.now ≡ length notes.now }
        ensures room { result ≡ has_room self.now.text (size_of_entry (noted tx.now notes.now)) }
        ensures small { result ≡ true → size_of_entry (noted tx.now notes.now) < 2 ^ 26 }
    {
        let size = entry_size(tx.as_slice(), notes.as_slice());
        self.text.has_room(size)
    }

    /// What an entry adds whose records have room in the log, and room in the block map for what it frees. `Err` is want of memory.
    fn prepare(&mut self, tx: &Tx, notes: &Notes) -> Result<Draft, AllocError>
        requires number { self.old.appended + 1 < 2 ^ 32 }
        requires blocks { length self.old.map.states ≤ self.old.blocks }
        requires noted { length tx.now ≡ length notes.now }
        requires loggable { AllByRecursion (IsLoggable (length self.old.map.states)) (noted tx.now notes.now) }
        requires room { has_room self.old.text (size_of_entry (noted tx.now notes.now)) ≡ true }
        requires small { size_of_entry (noted tx.now notes.now) < 2 ^ 26 }
        ensures draft { IfOk result (IsDraft (noted tx.now notes.now) self.old) }
        ensures spare { IfOk result (λ draft. length draft.freed ≤ self.new.map.spare) }
        ensures stays { KeepsStates self.old self.new }
    {
        // so that their number is known to fit
        let _blocks = self.maps.blocks.blocks();
        let number = self.appended + 1;
        let (edits, notes) = (tx.as_slice(), notes.as_slice());
        let at = self.text.end();
        let draft = make_draft(self.alloc, edits, notes, self.text.ring, number, at)?;
        self.maps.blocks.make_room(draft.freed.len() as u32)?;
        Ok(draft)
    }

    /// An entry joins with what it adds.
    fn enter(
        &mut self,
        entry: Entry,
        tx: &Tx,
        draft: &Draft,
        marks: InodeMarks,
        contents: &DataList,
    ) -> Joined
        requires running { self.old.halted ≡ None }
        requires number { self.old.appended + 1 < 2 ^ 32 }
        requires within { (n : ℕ) → touches_tx n tx.now ≡ true → n < self.old.blocks }
        requires reserved { AreReserved self.old.map (taken_in tx.now) }
        requires contents { LieWithin self.old.blocks contents.now }
        requires runs { HasRuns tx.now self.old draft.now }
        requires room { has_room self.old.text (length draft.now.text.bytes.items) ≡ true }
        requires marks { FitsMarks self.old.inodes marks }
        ensures appends { (list : List Noted) → tx_of list ≡ tx.now → IsDraft list self.old draft.now → IsWritable contents.now (unreserved tx.now self.old) → (now : Moment) → OfEachHalf D.tells D.tells_crashes (unreserved tx.now self.old)
            (λ seen asked half. Appends seen asked entry now list contents.now self.old self.new half result) }
        ensures adds { (list : List Noted) → tx_of list ≡ tx.now → IsDraft list self.old draft.now → AddsEntry entry list marks self.old self.new result }
        ensures shows { D.tells → AreClean contents.now self.old.dirty → ShowsEntry contents.now tx.now self.old self.new result }
        ensures stays { StaysUnless D.tells D.tells_crashes result self.old self.new }
        ensures had_room { result ≡ NoRoom → ⊥ }
        ensures fault { TellsFault self.old.faults self.new.faults result }
    {
        let number = self.appended + 1;
        let (text, pages) = (&mut self.text, &mut self.freed);
        match make_ready(&mut self.cache, text, pages, &mut self.entries, tx, draft) {
            Ok(()) => {}
            Err(ViewError::Memory) => return Joined::NoMemory,
            Err(ViewError::Read(fault)) => return Joined::Unread { fault },
        }
        match put_all(&mut self.cache, contents) {
            Ok(()) => {}
            Err(fault) => {
                self.halt(fault);
                return Joined::Failed { fault };
            }
        }
        self.cache.edit(tx, &[], number);
        take_runs(&mut self.maps.blocks, draft, number);
        mark(&mut self.maps.inodes, marks);
        mark_files(&mut self.files, draft, marks);
        add(
            &mut self.text,
            &mut self.freed,
            &mut self.entries,
            draft,
            entry,
        );
        self.appended = number;
        Joined::Entered { entry: number }
    }
}
