//! The work of each command.

ghost use Rattle.std.specs.Prelude.{◌≡◌, ◌≤◌, ◌<◌, ◌^◌, true, false, [], length};
ghost use Rattle.jfs_disk.specs.Image.{ArePages};
ghost use Rattle.jfs_command.specs.Inputs.{Inputs, source_faults};
ghost use Rattle.jfs_command.specs.Meaning.{Performs};
ghost use Rattle.jfs_command.specs.Meanings.{job_meaning};
ghost use Rattle.jfs_command.specs.Top.{PerformsCommand};
ghost use Rattle.jfs_command.specs.Words.{is_alone, HasScripts, IsWithin};

use crate::check::check_volume;
use crate::format::format_volume;
use crate::generate::generate;
use crate::log::show_log;
use crate::outcome::{End, Outcome};
use crate::redo::redo_volume;
use crate::run::run_scripts;
use crate::show::show_super;
use crate::words::{Command, Job};
use jfs_bits::Moment;
use jfs_disk::Disk;
use jfs_io::{Gate, Source};
use std::alloc::Global;
use std::sync::Wait;
use std::thread::Threads;

/// What a command did, and the disk afterwards.
#[derive(Drop)]
pub struct Performed<D> {
    pub outcome: Outcome,
    pub disk: D,
}

impl<D: Disk> Performed<D> {
    /// Nothing was done to the disk, and nothing is printed but the line of the status. The disk's pages are whole, as each disk's are.
    pub fn idle(alloc: Global, end: End, disk: D) -> Performed<D>
        ensures end { result.outcome.end ≡ end }
        ensures text { result.outcome.text.items ≡ [] }
        ensures history { result.outcome.history.items ≡ [] }
        ensures told { result.outcome.told.items ≡ [] }
        ensures disk { result.disk ≡ disk }
        ensures whole { D.tells → ArePages (D.page_count disk) (D.image disk) }
    {
        Performed {
            outcome: Outcome::new(alloc, end, Vec::new(alloc)),
            disk,
        }
    }
}

/// Does the work of a job without clients. The disk is handed over and comes back: a command may cut it meanwhile.
pub fn perform_alone<D: Disk>(alloc: Global, job: Job, now: Moment, disk: D) -> Performed<D>
    requires { is_alone job ≡ true }
    ensures meaning { (inputs : Inputs) → inputs.now ≡ now → Performs D.Disk (job_meaning job inputs) disk result.disk result.outcome }
    ensures pages { D.page_count result.disk ≡ D.page_count disk }
    ensures later { D.fault_count disk ≤ D.fault_count result.disk }
{
    let mut disk = disk;
    let outcome = on_disk(alloc, job, now, &mut disk);
    Performed { outcome, disk }
}

/// Does the work of a command with clients. One without scripts leaves the sources alone.
pub fn perform_with_clients<R: Threads + Wait + Sync, D: Disk + Send, S: Source, G: Gate + Sync>(
    rt: &R,
    alloc: Global,
    command: Command,
    now: Moment,
    disk: D,
    scripts: &mut Vec<S>,
    gate: &G,
) -> Performed<D>
    requires few { length scripts.old.items < 2 ^ 32 }
    requires some { HasScripts command.job (length scripts.old.items) }
    requires within { IsWithin command.job }
    requires clients { is_alone command.job ≡ false }
    ensures meaning { PerformsCommand D.Disk S.Source command now disk result.disk scripts.old.items scripts.new.items result.outcome }
    ensures pages { D.page_count result.disk ≡ D.page_count disk }
    ensures later { D.fault_count disk ≤ D.fault_count result.disk }
    ensures scripts { scripts.old.items ≡ [] → scripts.new ≡ scripts.old }
    ensures sources { source_faults S.Source scripts.old.items ≤ source_faults S.Source scripts.new.items }
{
    match command.job {
        Job::Run { is_left } => run_scripts(rt, alloc, disk, scripts, now, is_left, gate),
        Job::Generate {
            number,
            calls,
            clients,
        } => generate(rt, alloc, disk, number, calls, clients, now, gate),
        Job::Super | Job::Log | Job::Check | Job::Redo | Job::Format { .. } => unreachable!(),
    }
}

// Does a job without clients, which leaves the disk in one piece.
fn on_disk<D: Disk>(alloc: Global, job: Job, now: Moment, disk: &mut D) -> Outcome
    requires { is_alone job ≡ true }
    ensures meaning { (inputs : Inputs) → inputs.now ≡ now → Performs D.Disk (job_meaning job inputs) disk.old disk.new result }
    ensures pages { D.page_count disk.new ≡ D.page_count disk.old }
    ensures later { D.fault_count disk.old ≤ D.fault_count disk.new }
{
    match job {
        Job::Super => show_super(alloc, disk),
        Job::Log => show_log(alloc, disk),
        Job::Check => check_volume(alloc, disk),
        Job::Redo => redo_volume(alloc, disk),
        Job::Format { uuid, label } => format_volume(alloc, disk, uuid, &label, now),
        Job::Run { .. } | Job::Generate { .. } => unreachable!(),
    }
}
