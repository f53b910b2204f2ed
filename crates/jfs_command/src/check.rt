//! The command `check`: it lists what is wrong with a volume, or says that nothing is.

ghost use Rattle.std.specs.Prelude.{◌≡◌, ◌≤◌, ◌++◌, IfOk, OnOk, string_bytes};
ghost use Rattle.std.specs.List.{flat_map};
ghost use Rattle.jfs_super.specs.Rules.{IsAccepted};
ghost use Rattle.jfs_command.specs.Check.{is_taken, finding_line, found_line, free_words, clean_line, status_for, text_for, check_meaning, end_of, CheckEnds};
ghost use Rattle.jfs_command.specs.Meaning.{Performs};

use crate::outcome::{End, Outcome};
use crate::status::{Status, Stop};
use crate::superblock::{SUPERBLOCK, look};
use jfs_bits::Rule;
use jfs_check::{CheckError, Checked, check};
use jfs_disk::Disk;
use jfs_findings_new::findings::Finding;
use jfs_super::{Super, VolumeState};
use std::alloc::{AllocError, Global};
use std::fmt::Write;

/// What the command answers of a volume that was checked.
#[derive(Drop)]
pub struct Listed {
    pub status: Status,
    pub text: Vec<u8>,
}

/// Checks the volume of the disk and writes a line for each finding.
pub fn check_volume<D: Disk>(alloc: Global, disk: &mut D) -> Outcome
    ensures meaning { Performs D.Disk check_meaning disk.old disk.new result }
    ensures later { D.fault_count disk.old ≤ D.fault_count disk.new }
    ensures pages { D.page_count disk.new ≡ D.page_count disk.old }
{
    match look(disk) {
        Ok(s) => match list_findings(alloc, disk, &s) {
            Ok(listed) => Outcome::new(alloc, End::Own(listed.status), listed.text),
            Err(end) => Outcome::new(alloc, end, Vec::new(alloc)),
        },
        Err(end) => Outcome::new(alloc, end, Vec::new(alloc)),
    }
}

// The findings of the volume that an accepted superblock names, where its state is one that is taken.
fn list_findings<D: Disk>(alloc: Global, disk: &mut D, s: &Super) -> Result<Listed, End>
    requires { IsAccepted s.now (D.page_count disk.old) }
    ensures ends { CheckEnds D.tells (D.image disk.old) s.now (record { before = D.fault_count disk.old; now = D.fault_count disk.new }) result }
    ensures later { D.fault_count disk.old ≤ D.fault_count disk.new }
    ensures pages { D.page_count disk.new ≡ D.page_count disk.old }
    ensures image { D.tells → D.image disk.new ≡ D.image disk.old }
    ensures past { D.tells_crashes → D.past disk.new ≡ D.past disk.old }
{
    let state = s.state;
    if !is_taken(state) {
        return Err(End::Own(Status::BadImage {
            page: SUPERBLOCK,
            rule: Rule::State,
            value: state.0.into(),
        }));
    }
    match check(alloc, disk, s) {
        Ok(checked) => match lines_of(alloc, &checked) {
            Ok(listed) => Ok(listed),
            Err(_) => Err(End::Stopped(Stop::Memory)),
        },
        Err(error) => Err(end_of(error)),
    }
}

// A volume is taken that is clean or dirty, or whose redo failed.
fn is_taken(state: VolumeState) -> bool
    ensures { result ≡ is_taken state.0 }
{
    state == VolumeState::CLEAN || state == VolumeState::DIRTY || state == VolumeState::REDO_FAILED
}

// How the command ends where the volume couldn't be checked.
fn end_of(error: CheckError) -> End
    ensures { result ≡ end_of error }
{
    match error {
        CheckError::Read(_) => End::Stopped(Stop::Disk),
        CheckError::Memory => End::Stopped(Stop::Memory),
    }
}

// The status and the text of what was found. More findings than a status can count are answered as want of memory.
fn lines_of(alloc: Global, checked: &Checked) -> Result<Listed, AllocError>
    ensures status { IfOk result (λ l. l.status ≡ status_for checked.now.findings.items) }
    ensures text { IfOk result (λ l. l.text.items ≡ text_for checked.now.findings.items checked.now.free checked.now.inodes) }
{
    let findings = checked.findings.as_slice();
    let mut out = String::new(alloc);
    if findings.is_empty() {
        push_clean(&mut out, checked.free, checked.inodes)?;
        return Ok(Listed {
            status: Status::Done,
            text: out.into_bytes(),
        });
    }
    let Ok(count) = u32::try_from(findings.len()) else {
        return Err(AllocError);
    };
    push_findings(&mut out, findings)?;
    push_found(&mut out, count)?;
    Ok(Listed {
        status: Status::Found { count },
        text: out.into_bytes(),
    })
}

fn push_clean(out: &mut String, free: u32, inodes: u32) -> Result<(), AllocError>
    ensures { OnOk result (string_bytes out.new ≡ string_bytes out.old ++ clean_line free inodes) }
{
    push_free(out, free)?;
    match write!(out, "{inodes} inodes\n") {
        Ok(()) => Ok(()),
        Err(e) => Err(e),
    }
}

fn push_free(out: &mut String, free: u32) -> Result<(), AllocError>
    ensures { OnOk result (string_bytes out.new ≡ string_bytes out.old ++ free_words free) }
{
    match write!(out, "clean, {free} free blocks, ") {
        Ok(()) => Ok(()),
        Err(e) => Err(e),
    }
}

fn push_findings(out: &mut String, findings: &[Finding]) -> Result<(), AllocError>
    ensures { OnOk result (string_bytes out.new ≡ string_bytes out.old ++ flat_map finding_line findings.now) }
{
    for finding in findings {
        push_finding(out, *finding)?;
    }
    Ok(())
}

fn push_finding(out: &mut String, finding: Finding) -> Result<(), AllocError>
    ensures { OnOk result (string_bytes out.new ≡ string_bytes out.old ++ finding_line finding) }
{
    let kind = finding.kind;
    write!(out, "{} {}", kind.number(), kind.name())?;
    match write!(out, " page {} value {}\n", finding.page, finding.value) {
        Ok(()) => Ok(()),
        Err(e) => Err(e),
    }
}

fn push_found(out: &mut String, count: u32) -> Result<(), AllocError>
    ensures { OnOk result (string_bytes out.new ≡ string_bytes out.old ++ found_line count) }
{
    match write!(out, "found {count}\n") {
        Ok(()) => Ok(()),
        Err(e) => Err(e),
    }
}
