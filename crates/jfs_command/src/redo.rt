//! The command `redo`: it redoes a volume that is mounted by its log, or says that there is nothing to redo.

ghost use Rattle.std.specs.Prelude.{◌≡◌, ◌≤◌, true, IfOk, string_bytes};
ghost use Rattle.jfs_super.specs.Rules.{IsAccepted};
ghost use Rattle.jfs_super.specs.Super.{FitsSuper};
ghost use Rattle.jfs_command.specs.Held.{held_of};
ghost use Rattle.jfs_command.specs.Meaning.{Performs};
ghost use Rattle.jfs_command.specs.Redo.{is_mounted, redone_text, end_of, RedoEnds, redo_meaning};

use crate::outcome::{End, Outcome};
use crate::status::{Status, Stop};
use crate::superblock::{SUPERBLOCK, look};
use jfs_bits::Rule;
use jfs_disk::Disk;
use jfs_redo::{RedoError, redo};
use jfs_super::{Super, VolumeState};
use std::alloc::{AllocError, Global};

/// What is printed of a volume that is clean.
const CLEAN: &[u8] = b"redo clean\n";

/// Redoes the volume of the disk, and writes the line that counts its log's transactions, or says that it is clean.
pub fn redo_volume<D: Disk>(alloc: Global, disk: &mut D) -> Outcome
    ensures meaning { Performs D.Disk redo_meaning disk.old disk.new result }
    ensures later { D.fault_count disk.old ≤ D.fault_count disk.new }
    ensures pages { D.page_count disk.new ≡ D.page_count disk.old }
{
    match look(disk) {
        Ok(s) => match redo_by_state(alloc, disk, &s) {
            Ok(text) => Outcome::new(alloc, End::Own(Status::Done), text),
            Err(end) => Outcome::new(alloc, end, Vec::new(alloc)),
        },
        Err(end) => Outcome::new(alloc, end, Vec::new(alloc)),
    }
}

// The text, by the state that an accepted superblock tells.
fn redo_by_state<D: Disk>(alloc: Global, disk: &mut D, s: &Super) -> Result<Vec<u8>, End>
    requires accepted { IsAccepted s.now (D.page_count disk.old) }
    requires fits { FitsSuper s.now }
    ensures ends { RedoEnds D.tells D.tells_crashes s.now (held_of D.Disk disk.old) (held_of D.Disk disk.new)
        (record { before = D.fault_count disk.old; now = D.fault_count disk.new }) result }
    ensures later { D.fault_count disk.old ≤ D.fault_count disk.new }
    ensures pages { D.page_count disk.new ≡ D.page_count disk.old }
{
    let state = s.state;
    if state == VolumeState::CLEAN {
        return match Vec::from_slice(alloc, CLEAN) {
            Ok(text) => Ok(text),
            Err(_) => Err(End::Stopped(Stop::Memory)),
        };
    }
    if state == VolumeState::MOUNTED {
        return redo_mounted(alloc, disk, s);
    }
    Err(End::Own(Status::BadImage {
        page: SUPERBLOCK,
        rule: Rule::State,
        value: state.0.into(),
    }))
}

// The text of a volume that is mounted.
fn redo_mounted<D: Disk>(alloc: Global, disk: &mut D, s: &Super) -> Result<Vec<u8>, End>
    requires accepted { IsAccepted s.now (D.page_count disk.old) }
    requires fits { FitsSuper s.now }
    requires mounted { is_mounted s.now.state.0 ≡ true }
    ensures ends { RedoEnds D.tells D.tells_crashes s.now (held_of D.Disk disk.old) (held_of D.Disk disk.new)
        (record { before = D.fault_count disk.old; now = D.fault_count disk.new }) result }
    ensures later { D.fault_count disk.old ≤ D.fault_count disk.new }
    ensures pages { D.page_count disk.new ≡ D.page_count disk.old }
{
    match redo(alloc, disk, s) {
        Ok(done) => match redone_line(alloc, done.transactions) {
            Ok(text) => Ok(text.into_bytes()),
            Err(_) => Err(End::Stopped(Stop::Memory)),
        },
        Err(why) => Err(end_of(why)),
    }
}

/// How the command ends where the volume wasn't redone.
pub fn end_of(why: RedoError) -> End
    ensures { result ≡ end_of why }
{
    match why {
        RedoError::Disk(_) => End::Stopped(Stop::Disk),
        RedoError::ForeignLog { label } => End::Own(Status::ForeignLog { label }),
        RedoError::BadLog { address, rule } => End::Own(Status::BadLog { address, rule }),
        RedoError::BadImage(bad) => End::Own(Status::BadImage {
            page: bad.page,
            rule: bad.rule,
            value: bad.value,
        }),
        RedoError::Memory => End::Stopped(Stop::Memory),
    }
}

/// The line that counts the transactions of a log.
pub fn redone_line(alloc: Global, count: u32) -> Result<String, AllocError>
    ensures { IfOk result (λ text. string_bytes text ≡ redone_text count) }
{
    format!(in alloc; "redo {count} transactions\n")
}
