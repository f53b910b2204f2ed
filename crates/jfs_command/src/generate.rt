//! The command `gen`: a run by generated scripts.

ghost use Rattle.std.specs.Prelude.{◌≡◌, ◌≤◌, ◌<◌, IfOk};
ghost use Rattle.jfs_run.specs.Tasks.{plan_of, IsPlan};
ghost use Rattle.jfs_command.specs.Order.{scripts_from};
ghost use Rattle.jfs_command.specs.Gen.{gen_meaning};
ghost use Rattle.jfs_command.specs.Meaning.{Performs};

use crate::outcome::End;
use crate::perform::Performed;
use crate::printed::Printed;
use crate::run::run_on_volume;
use crate::status::Stop;
use jfs_bits::Moment;
use jfs_disk::Disk;
use jfs_gen::workload;
use jfs_io::Gate;
use jfs_plain::Line;
use std::alloc::{AllocError, Global};
use std::sync::Wait;
use std::thread::Threads;

/// Generates the scripts of so many clients, with so many calls each, and does their calls on the volume of the disk. It prints one line that sums up what they did.
pub fn generate<R: Threads + Wait + Sync, D: Disk + Send, G: Gate + Sync>(
    rt: &R,
    alloc: Global,
    disk: D,
    number: u64,
    calls: u32,
    clients: u32,
    now: Moment,
    gate: &G,
) -> Performed<D>
    requires calls { calls ≤ 4094 }
    requires clients { (0 < clients) × (clients ≤ 16) }
    ensures meaning { Performs D.Disk (gen_meaning number calls clients now) disk result.disk result.outcome }
    ensures pages { D.page_count result.disk ≡ D.page_count disk }
    ensures later { D.fault_count disk ≤ D.fault_count result.disk }
{
    match generated(alloc, number, calls, clients) {
        Ok(plan) => run_on_volume(
            rt,
            alloc,
            disk,
            plan.as_slice(),
            Printed::Summary { clients },
            now,
            false,
            gate,
        ),
        Err(_) => Performed::idle(alloc, End::Stopped(Stop::Memory), disk),
    }
}

// The scripts of the clients 1 to `clients`.
fn generated(
    alloc: Global,
    number: u64,
    calls: u32,
    clients: u32,
) -> Result<Vec<Vec<Line>>, AllocError>
    requires calls { calls ≤ 4094 }
    requires clients { (0 < clients) × (clients ≤ 16) }
    ensures scripts { IfOk result (λ plan. plan_of plan.items ≡ scripts_from number calls 1 clients) }
    ensures plan { IfOk result (λ plan. IsPlan (plan_of plan.items)) }
{
    let mut plan = Vec::new(alloc);
    for i in 0..clients {
        let script = workload(alloc, number, i + 1, calls)?;
        plan.push(script)?;
    }
    Ok(plan)
}
