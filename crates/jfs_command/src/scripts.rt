//! The scripts of a run.

ghost use Rattle.std.specs.Prelude.{◌≡◌, ◌≤◌, ◌<◌, ◌^◌, ℕ, [], List, length, map, IfOk};
ghost use Rattle.jfs_run.specs.Tasks.{plan_of, IsPlan};
ghost use Rattle.jfs_command.specs.Inputs.{source_faults};
ghost use Rattle.jfs_command.specs.Scripts.{AreLines, end_of, OneEnds, ScriptsEnd};

use crate::outcome::End;
use crate::status::{Status, Stop};
use jfs_io::Source;
use jfs_plain::Line;
use jfs_script::{ScriptError, read_script};
use std::alloc::Global;

/// The greatest number of scripts.
const MOST_SCRIPTS: usize = 16;

/// The calls of all scripts of a run, one at least, the first of which is that of client 1. Each is read whole, one after the other, up to one that can't be read or is wrong.
pub fn read_scripts<S: Source>(alloc: Global, scripts: &mut Vec<S>) -> Result<Vec<Vec<Line>>, End>
    requires few { length scripts.old.items < 2 ^ 32 }
    requires some { 0 < length scripts.old.items }
    ensures ends { (texts : List (List ℕ)) × (length texts ≡ length scripts.old.items) × (S.tells → texts ≡ map S.remaining scripts.old.items)
        × ScriptsEnd texts (record { before = source_faults S.Source scripts.old.items; now = source_faults S.Source scripts.new.items }) result }
    ensures plan { IfOk result (λ plan. IsPlan (plan_of plan.items)) }
    ensures later { source_faults S.Source scripts.old.items ≤ source_faults S.Source scripts.new.items }
{
    let count = scripts.len();
    if count > MOST_SCRIPTS {
        return Err(End::Own(Status::TooMuch {
            count: count as u32,
        }));
    }
    let mut plan = Vec::new(alloc);
    for i in 0..count {
        let lines = read_one(alloc, i as u32 + 1, &mut scripts[i])?;
        match plan.push(lines) {
            Ok(()) => {}
            Err(_) => return Err(End::Stopped(Stop::Memory)),
        }
    }
    Ok(plan)
}

// The calls of the script of a client. A source whose count rose has failed, whatever it gave.
fn read_one<S: Source>(alloc: Global, client: u32, script: &mut S) -> Result<Vec<Line>, End>
    ensures ends { (text : List ℕ) × (S.tells → text ≡ S.remaining script.old)
        × OneEnds client text (record { before = S.fault_count script.old; now = S.fault_count script.new }) result }
    ensures lines { IfOk result (λ lines. AreLines lines.items) }
    ensures later { S.fault_count script.old ≤ S.fault_count script.new }
{
    let before = script.faults();
    let read = read_script(alloc, script);
    if script.faults() != before {
        return Err(End::Stopped(Stop::Scripts));
    }
    match read {
        Ok(lines) => Ok(lines),
        Err(error) => Err(end_of(client, error)),
    }
}

// How the command ends where the script of a client was not read.
fn end_of(client: u32, error: ScriptError) -> End
    ensures { result ≡ end_of client error }
{
    match error {
        ScriptError::Fault => End::Stopped(Stop::Scripts),
        ScriptError::TooMuch { count } => End::Own(Status::TooMuch { count }),
        ScriptError::BadScript { line, rule } => End::Own(Status::BadScript { client, line, rule }),
        ScriptError::Memory => End::Stopped(Stop::Memory),
    }
}
