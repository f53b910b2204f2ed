//! The command `run`, and what `gen` has in common with it: the calls of clients on a volume that is clean, or is mounted and redone first.

ghost use Rattle.std.specs.Prelude.{◌≡◌, ◌≤◌, ◌<◌, ◌^◌, ◌++◌, ℕ, true, List, length, Ok, IfOk, OnOk};
ghost use Rattle.jfs_disk.specs.Image.{page_of, ArePages};
ghost use Rattle.jfs_super.specs.Rules.{IsAccepted};
ghost use Rattle.jfs_super.specs.Super.{FitsSuper, super_of};
ghost use Rattle.jfs_super.specs.declared.fields.TheConstants.VolumeState.{CLEAN};
ghost use Rattle.jfs_script.specs.History.{IsRisingFrom};
ghost use Rattle.jfs_run.specs.Tasks.{plan_of, IsPlan};
ghost use Rattle.jfs_command.specs.Held.{held_of};
ghost use Rattle.jfs_command.specs.Inputs.{source_faults};
ghost use Rattle.jfs_command.specs.Meaning.{Performs, work_of};
ghost use Rattle.jfs_command.specs.Top.{PerformsBy};
ghost use Rattle.jfs_command.specs.Redo.{is_mounted};
ghost use Rattle.jfs_command.specs.Order.{Order, Asks, planned, by_scripts, IsPrintable};
ghost use Rattle.jfs_command.specs.Run.{whole_text, front_text, end_of, text_before, text_of, Tells, StartEnds, LinesEnd, run_meaning};

use crate::outcome::{End, Outcome};
use crate::perform::Performed;
use crate::printed::Printed;
use crate::redo::{end_of as not_redone, redone_line};
use crate::scripts::read_scripts;
use crate::status::{Status, Stop};
use crate::superblock::{SUPERBLOCK, look};
use jfs_bits::{Moment, Rule};
use jfs_disk::Disk;
use jfs_gen::write_summary;
use jfs_io::{Gate, Source};
use jfs_plain::{Entry, Line};
use jfs_redo::redo;
use jfs_run::{Ran, RunEnd, run_lines};
use jfs_script::{write_done, write_history};
use jfs_super::{Super, VolumeState};
use std::alloc::{AllocError, Global};
use std::sync::Wait;
use std::thread::Threads;

/// Reads the scripts whole, and does their calls on the volume of the disk. Nothing is printed before the volume was ended or refused.
pub fn run_scripts<R: Threads + Wait + Sync, D: Disk + Send, S: Source, G: Gate + Sync>(
    rt: &R,
    alloc: Global,
    disk: D,
    scripts: &mut Vec<S>,
    now: Moment,
    is_left: bool,
    gate: &G,
) -> Performed<D>
    requires few { length scripts.old.items < 2 ^ 32 }
    requires some { 0 < length scripts.old.items }
    ensures meaning { PerformsBy D.Disk S.Source (λ inputs. run_meaning is_left (by_scripts inputs.scripts) inputs.now) now disk result.disk scripts.old.items scripts.new.items result.outcome }
    ensures pages { D.page_count result.disk ≡ D.page_count disk }
    ensures later { D.fault_count disk ≤ D.fault_count result.disk }
    ensures sources { source_faults S.Source scripts.old.items ≤ source_faults S.Source scripts.new.items }
{
    match read_scripts(alloc, scripts) {
        Ok(plan) => run_on_volume(
            rt,
            alloc,
            disk,
            plan.as_slice(),
            Printed::History,
            now,
            is_left,
            gate,
        ),
        Err(end) => Performed::idle(alloc, end, disk),
    }
}

/// Looks at the superblock, and does the calls of clients' lines where it is accepted.
pub fn run_on_volume<R: Threads + Wait + Sync, D: Disk + Send, G: Gate + Sync>(
    rt: &R,
    alloc: Global,
    disk: D,
    plan: &[Vec<Line>],
    printed: Printed,
    now: Moment,
    is_left: bool,
    gate: &G,
) -> Performed<D>
    requires plan { IsPlan (plan_of plan.now) }
    requires printed { IsPrintable printed }
    ensures meaning { (order : Order) → Asks order (Ok (planned plan.now printed)) → Performs D.Disk (run_meaning is_left order now) disk result.disk result.outcome }
    ensures pages { D.page_count result.disk ≡ D.page_count disk }
    ensures later { D.fault_count disk ≤ D.fault_count result.disk }
{
    let mut disk = disk;
    match look(&mut disk) {
        Ok(s) => run_by_state(rt, alloc, disk, &s, plan, printed, now, is_left, gate),
        Err(end) => Performed::idle(alloc, end, disk),
    }
}

// The calls of lines, by the state that an accepted superblock tells.
fn run_by_state<R: Threads + Wait + Sync, D: Disk + Send, G: Gate + Sync>(
    rt: &R,
    alloc: Global,
    disk: D,
    s: &Super,
    plan: &[Vec<Line>],
    printed: Printed,
    now: Moment,
    is_left: bool,
    gate: &G,
) -> Performed<D>
    requires accepted { IsAccepted s.now (D.page_count disk) }
    requires fits { FitsSuper s.now }
    requires spelled { D.tells → super_of (page_of (D.image disk) 8) ≡ s.now }
    requires plan { IsPlan (plan_of plan.now) }
    requires printed { IsPrintable printed }
    ensures ends { LinesEnd D.tells D.tells_crashes (planned plan.now printed) is_left now s.now (held_of D.Disk disk) (work_of result.outcome (held_of D.Disk result.disk))
        (record { before = D.fault_count disk; now = D.fault_count result.disk }) result.outcome.end }
    ensures pages { D.page_count result.disk ≡ D.page_count disk }
    ensures later { D.fault_count disk ≤ D.fault_count result.disk }
{
    let state = s.state;
    if state == VolumeState::CLEAN {
        return run_from(rt, alloc, disk, s, None, plan, printed, now, is_left, gate);
    }
    if state == VolumeState::MOUNTED {
        return run_redone(rt, alloc, disk, s, plan, printed, now, is_left, gate);
    }
    let refused = End::Own(Status::BadImage {
        page: SUPERBLOCK,
        rule: Rule::State,
        value: state.0.into(),
    });
    Performed::idle(alloc, refused, disk)
}

/// How many pages a disk has, each of which is whole.
fn whole_pages<D: Disk>(disk: &D) -> u32
    ensures pages { result ≡ D.page_count disk.now }
    ensures whole { D.tells → ArePages (D.page_count disk.now) (D.image disk.now) }
{
    disk.pages()
}

// The calls of lines on a volume that is mounted, once it is redone.
fn run_redone<R: Threads + Wait + Sync, D: Disk + Send, G: Gate + Sync>(
    rt: &R,
    alloc: Global,
    disk: D,
    s: &Super,
    plan: &[Vec<Line>],
    printed: Printed,
    now: Moment,
    is_left: bool,
    gate: &G,
) -> Performed<D>
    requires accepted { IsAccepted s.now (D.page_count disk) }
    requires fits { FitsSuper s.now }
    requires mounted { is_mounted s.now.state.0 ≡ true }
    requires plan { IsPlan (plan_of plan.now) }
    requires printed { IsPrintable printed }
    ensures ends { LinesEnd D.tells D.tells_crashes (planned plan.now printed) is_left now s.now (held_of D.Disk disk) (work_of result.outcome (held_of D.Disk result.disk))
        (record { before = D.fault_count disk; now = D.fault_count result.disk }) result.outcome.end }
    ensures pages { D.page_count result.disk ≡ D.page_count disk }
    ensures later { D.fault_count disk ≤ D.fault_count result.disk }
{
    let mut disk = disk;
    match redo(alloc, &mut disk, s) {
        Ok(done) => {
            // so that they are known to be whole
            let _pages = whole_pages(&disk);
            let clean = Super {
                state: VolumeState::CLEAN,
                ..*s
            };
            run_from(
                rt,
                alloc,
                disk,
                &clean,
                Some(done.transactions),
                plan,
                printed,
                now,
                is_left,
                gate,
            )
        }
        Err(why) => Performed::idle(alloc, not_redone(why), disk),
    }
}

// The calls of lines on a volume that is clean. One that was redone had so many transactions in its log.
fn run_from<R: Threads + Wait + Sync, D: Disk + Send, G: Gate + Sync>(
    rt: &R,
    alloc: Global,
    disk: D,
    s: &Super,
    redone: Option<u32>,
    plan: &[Vec<Line>],
    printed: Printed,
    now: Moment,
    is_left: bool,
    gate: &G,
) -> Performed<D>
    requires accepted { IsAccepted s.now (D.page_count disk) }
    requires fits { FitsSuper s.now }
    requires clean { s.now.state ≡ CLEAN }
    requires spelled { D.tells → super_of (page_of (D.image disk) 8) ≡ s.now }
    requires plan { IsPlan (plan_of plan.now) }
    requires printed { IsPrintable printed }
    ensures ends { StartEnds D.tells D.tells_crashes (planned plan.now printed) is_left now (record { super = s.now; image = D.image disk; text = text_before redone }) (D.past disk) (work_of result.outcome (held_of D.Disk result.disk))
        (record { before = D.fault_count disk; now = D.fault_count result.disk }) result.outcome.end }
    ensures pages { D.page_count result.disk ≡ D.page_count disk }
    ensures later { D.fault_count disk ≤ D.fault_count result.disk }
{
    let Ran {
        disk,
        end,
        history,
        told,
    } = run_lines(rt, alloc, disk, s, plan, now, is_left, gate);
    Performed {
        outcome: outcome_of(alloc, redone, printed, end, history, told),
        disk,
    }
}

// The outcome of a run, with its text.
fn outcome_of(
    alloc: Global,
    redone: Option<u32>,
    printed: Printed,
    end: RunEnd,
    history: Vec<Entry>,
    told: Vec<u64>,
) -> Outcome
    requires rising { IsRisingFrom 1 told.items }
    requires printed { IsPrintable printed }
    ensures tells { Tells redone printed end (record { history = history.items; told = told.items }) result.end result.text.items }
    ensures history { result.history.items ≡ history.items }
    ensures told { result.told.items ≡ told.items }
{
    match text_of(
        alloc,
        redone,
        printed,
        end,
        history.as_slice(),
        told.as_slice(),
    ) {
        Ok(text) => Outcome {
            end: end_of(end),
            text,
            history,
            told,
        },
        Err(_) => Outcome {
            end: End::Stopped(Stop::Memory),
            text: Vec::new(alloc),
            history,
            told,
        },
    }
}

// The line of a redo, if there was one, and what is printed of the calls.
fn text_of(
    alloc: Global,
    redone: Option<u32>,
    printed: Printed,
    end: RunEnd,
    history: &[Entry],
    told: &[u64],
) -> Result<Vec<u8>, AllocError>
    requires rising { IsRisingFrom 1 told.now }
    requires printed { IsPrintable printed }
    ensures { IfOk result (λ text. text.items ≡ text_of redone printed end (record { history = history.now; told = told.now })) }
{
    let mut text = match redone {
        Some(count) => redone_line(alloc, count)?.into_bytes(),
        None => Vec::new(alloc),
    };
    match end {
        RunEnd::Done => push_whole(alloc, printed, history, told, &mut text)?,
        RunEnd::BadImage(_) => {}
        RunEnd::Disk | RunEnd::Memory => push_front(alloc, printed, history, told, &mut text)?,
    }
    Ok(text)
}

// What is printed of a run that is done.
fn push_whole(
    alloc: Global,
    printed: Printed,
    history: &[Entry],
    told: &[u64],
    text: &mut Vec<u8>,
) -> Result<(), AllocError>
    requires rising { IsRisingFrom 1 told.now }
    requires printed { IsPrintable printed }
    ensures { OnOk result (text.new.items ≡ text.old.items ++ whole_text printed (record { history = history.now; told = told.now })) }
{
    match printed {
        Printed::History => {
            write_history(alloc, history, told, text)?;
            write_done(alloc, history.len(), told.len(), text)
        }
        Printed::Summary { clients } => write_summary(alloc, history, clients, text),
    }
}

// What is printed of a run that was stopped.
fn push_front(
    alloc: Global,
    printed: Printed,
    history: &[Entry],
    told: &[u64],
    text: &mut Vec<u8>,
) -> Result<(), AllocError>
    requires { IsRisingFrom 1 told.now }
    ensures { OnOk result (text.new.items ≡ text.old.items ++ front_text printed (record { history = history.now; told = told.now })) }
{
    match printed {
        Printed::History => write_history(alloc, history, told, text),
        Printed::Summary { .. } => Ok(()),
    }
}

// How the command ends by the end of the run.
fn end_of(end: RunEnd) -> End
    ensures { result ≡ end_of end }
{
    match end {
        RunEnd::Done => End::Own(Status::Done),
        RunEnd::BadImage(bad) => End::Own(Status::BadImage {
            page: bad.page,
            rule: bad.rule,
            value: bad.value,
        }),
        RunEnd::Disk => End::Stopped(Stop::Disk),
        RunEnd::Memory => End::Stopped(Stop::Memory),
    }
}
