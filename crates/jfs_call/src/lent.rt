//! A call that is lent the log.

ghost use Rattle.std.specs.Prelude.{◌≡◌, ◌⊎◌, ◌<◌, ◌≤◌, ◌+◌, ◌^◌, length, None, false};
ghost use Rattle.jfs_plain.specs.Limits.{FitsRequest};
ghost use Rattle.jfs_volume_calls.specs.Together.{AreTogether, log_parts};
ghost use Rattle.jfs_call.specs.Answer.{held};
ghost use Rattle.jfs_call.specs.Does.{Does};
ghost use Rattle.jfs_call.specs.DoesLent.{DoesAgain, DoesCommitted, DoesPointed, NeedsThen, asks, ends_with, with_log};
ghost use Rattle.jfs_call.specs.Lent.{AreBoth, IsAnsweredLent};
ghost use Rattle.jfs_call.specs.Replied.{IsReplied};
ghost use Rattle.jfs_plain.specs.declared.refusal.Refusal.TheVariants.{IoFault};
ghost use Rattle.jfs_plain.specs.declared.reply.Reply.TheVariants.{Refused};

use crate::call::call_without_log;
use crate::outcome::Outcome;
use crate::reply::{Caller, refuse};
use jfs_bits::Moment;
use jfs_disk::{Disk, Fault};
use jfs_logpages::LogSide;
use jfs_plain::{Refusal, Request};
use jfs_volume_calls::volume::Volume;
use jfs_volume_calls::{PointText, commit, syncpoint};
use std::alloc::Global;

/// The last end of a text behind which a syncpoint has room, so that the numbers of the log's pages have 32 bits.
const LAST_POINT: u64 = 4080 * 4_294_967_296 - 72;

/// A call of a client on a mounted volume that is lent its log, at this moment. Where the log has no room for its records, or busy blocks stand between the call and its blocks, all entries so far are made durable
/// first; and where that isn't enough, a syncpoint makes room. A fault of these is the call's: it is refused for it.
pub fn call_with_log<D: Disk>(
    alloc: Global,
    volume: &mut Volume<D>,
    log: &mut LogSide<D>,
    point: &mut PointText,
    client: u32,
    line: u32,
    request: &Request,
    now: Moment,
) -> Outcome
    requires fits { FitsRequest request.now }
    requires number { volume.old.appended + 1 < 2 ^ 32 }
    requires size { length volume.old.map.states ≤ volume.old.blocks }
    requires both { AreBoth volume.old (log_parts D.Disk log.old) }
    ensures answered { IsAnsweredLent client line request.now volume.old volume.new (log_parts D.Disk log.new)
        (record { low = volume.old.faults; low_now = volume.new.faults; high = D.fault_count log.old.part; high_now = D.fault_count log.new.part }) result }
    ensures pages { D.page_count log.new.part ≡ D.page_count log.old.part }
    // Only for a call that needs the log is it used.
    ensures does { ((log.new ≡ log.old) × Does D.tells D.tells_crashes (record { client = client; line = line }) request.now now volume.old volume.new result)
        ⊎ NeedsThen D.tells D.tells_crashes (asks (record { client = client; line = line }) request.now now) (DoesAgain D.tells D.tells_crashes (asks (record { client = client; line = line }) request.now now))
        (with_log volume.old (log_parts D.Disk log.old)) (ends_with volume.new (log_parts D.Disk log.new) result) }
{
    let caller = Caller { client, line };
    match call_without_log(alloc, volume, client, line, request, now) {
        Outcome::NeedsLog => call_again(alloc, volume, log, point, caller, request, now),
        outcome => outcome,
    }
}

/// The call needs the log: a volume that has halted can't write it.
fn call_again<D: Disk>(
    alloc: Global,
    volume: &mut Volume<D>,
    log: &mut LogSide<D>,
    point: &mut PointText,
    caller: Caller,
    request: &Request,
    now: Moment,
) -> Outcome
    requires fits { FitsRequest request.now }
    requires number { volume.old.appended + 1 < 2 ^ 32 }
    requires size { length volume.old.map.states ≤ volume.old.blocks }
    requires both { AreBoth volume.old (log_parts D.Disk log.old) }
    requires begins { held volume.old.halted request.now.call ≡ None }
    ensures answered { IsAnsweredLent caller.client caller.line request.now volume.old volume.new (log_parts D.Disk log.new)
        (record { low = volume.old.faults; low_now = volume.new.faults; high = D.fault_count log.old.part; high_now = D.fault_count log.new.part }) result }
    ensures pages { D.page_count log.new.part ≡ D.page_count log.old.part }
    ensures does { DoesAgain D.tells D.tells_crashes (asks caller request.now now) (with_log volume.old (log_parts D.Disk log.old)) (ends_with volume.new (log_parts D.Disk log.new) result) }
{
    if volume.halted().is_some() {
        return Outcome::NoMemory;
    }
    call_after_commit(alloc, volume, log, point, caller, request, now)
}

/// Commits, and calls again.
fn call_after_commit<D: Disk>(
    alloc: Global,
    volume: &mut Volume<D>,
    log: &mut LogSide<D>,
    point: &mut PointText,
    caller: Caller,
    request: &Request,
    now: Moment,
) -> Outcome
    requires fits { FitsRequest request.now }
    requires number { volume.old.appended + 1 < 2 ^ 32 }
    requires size { length volume.old.map.states ≤ volume.old.blocks }
    requires running { volume.old.halted ≡ None }
    requires together { AreTogether volume.old (log_parts D.Disk log.old) }
    ensures answered { IsAnsweredLent caller.client caller.line request.now volume.old volume.new (log_parts D.Disk log.new)
        (record { low = volume.old.faults; low_now = volume.new.faults; high = D.fault_count log.old.part; high_now = D.fault_count log.new.part }) result }
    ensures pages { D.page_count log.new.part ≡ D.page_count log.old.part }
    ensures does { DoesCommitted D.tells D.tells_crashes (asks caller request.now now) (with_log volume.old (log_parts D.Disk log.old)) (ends_with volume.new (log_parts D.Disk log.new) result) }
{
    match commit(volume, log) {
        Ok(()) => {}
        Err(why) => return fail(alloc, volume, caller, request, why.fault),
    }
    match call_without_log(alloc, volume, caller.client, caller.line, request, now) {
        Outcome::NeedsLog => call_after_syncpoint(alloc, volume, log, point, caller, request, now),
        outcome => outcome,
    }
}

/// Makes a syncpoint, and calls again. Where the call needs the log even then it is answered as where memory lacks.
fn call_after_syncpoint<D: Disk>(
    alloc: Global,
    volume: &mut Volume<D>,
    log: &mut LogSide<D>,
    point: &mut PointText,
    caller: Caller,
    request: &Request,
    now: Moment,
) -> Outcome
    requires fits { FitsRequest request.now }
    requires number { volume.old.appended + 1 < 2 ^ 32 }
    requires size { length volume.old.map.states ≤ volume.old.blocks }
    requires running { volume.old.halted ≡ None }
    requires together { AreTogether volume.old (log_parts D.Disk log.old) }
    ensures answered { IsAnsweredLent caller.client caller.line request.now volume.old volume.new (log_parts D.Disk log.new)
        (record { low = volume.old.faults; low_now = volume.new.faults; high = D.fault_count log.old.part; high_now = D.fault_count log.new.part }) result }
    ensures pages { D.page_count log.new.part ≡ D.page_count log.old.part }
    ensures does { DoesPointed D.tells D.tells_crashes (asks caller request.now now) (with_log volume.old (log_parts D.Disk log.old)) (ends_with volume.new (log_parts D.Disk log.new) result) }
{
    if volume.text_end() > LAST_POINT {
        return Outcome::NoMemory;
    }
    match syncpoint(volume, log, point) {
        Ok(()) => {}
        Err(fault) => return fail(alloc, volume, caller, request, fault),
    }
    match call_without_log(alloc, volume, caller.client, caller.line, request, now) {
        Outcome::NeedsLog => Outcome::NoMemory,
        outcome => outcome,
    }
}

/// A commit or a syncpoint failed, and the volume has halted.
fn fail<D: Disk>(
    alloc: Global,
    volume: &mut Volume<D>,
    caller: Caller,
    request: &Request,
    fault: Fault,
) -> Outcome
    requires { volume.old.appended + 1 < 2 ^ 64 }
    ensures { IsReplied caller request.now (Refused (IoFault fault)) false volume.old volume.new result }
{
    refuse(alloc, volume, caller, request, Refusal::IoFault { fault })
}
