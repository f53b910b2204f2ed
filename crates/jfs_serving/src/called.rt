//! A call of one of many clients.
ghost use Rattle.std.specs.Prelude.{◌≡◌, ◌⊎◌, ◌<◌, ◌+◌};
ghost use Rattle.jfs_plain.specs.Limits.{FitsRequest};
ghost use Rattle.jfs_groups.specs.Commit.{GoesOn};
ghost use Rattle.jfs_groups.specs.Log.{standing};
ghost use Rattle.jfs_serving.specs.Calls.{asked};
ghost use Rattle.jfs_serving.specs.Called.{Keeps, HasCalled, HasNoEntry};
ghost use Rattle.jfs_serving.specs.Gave.{GaveIs, LeftIs, IsKnown, Ends};

use crate::alone::ask_alone;
use crate::serves::{Given, Serves};
use crate::with_log::ask_with_log;
use jfs_bits::Moment;
use jfs_disk::Disk;
use jfs_groups::{Committed, HasRecords, SharedLog, commit_up_to};
use jfs_io::{Gate, Place};
use jfs_plain::{Ack, Refusal, Reply, Request};
use jfs_turns::{Pass, Turns};
use std::alloc::Global;
use std::sync::Wait;
use std::thread::Threads;

/// A call of the pass's client, by its line, at this moment, and what is known of it on the disk: where it waits, it is made durable before this comes back. A call that needs the log takes both turns, so nobody
/// else has either while it makes room.
pub fn call_by<V: Serves<D, E>, D: Disk, G: Gate, E: HasRecords, R: Threads + Wait + Sync>(
    rt: &R,
    alloc: Global,
    turns: &Turns<V, SharedLog<D>, E>,
    pass: Pass<V, SharedLog<D>, E>,
    line: u32,
    request: &Request,
    now: Moment,
    gate: &G,
) -> (Reply, Ack, Pass<V, SharedLog<D>, E>)
    requires table { pass.seat.table_id ≡ turns.now.table.shared.table_id }
    requires left { 0 < pass.calls_left }
    requires fits { FitsRequest request.now }
    ensures same { (result.2.seat.table_id ≡ pass.seat.table_id) × (result.2.client ≡ pass.client) }
    ensures keeps { Keeps pass.seat.me.0 result.2.seat.me.0 }
    ensures called { (HasCalled E.client V.entry V.moment V.stands (standing D.Disk E.logs E.start) V.answers (λ y. y.side.halted) (asked pass.client line request.now now) result.0 result.1 pass.seat.me.0 result.2.seat.me.0 × (result.2.calls_left + 1 ≡ pass.calls_left))
        ⊎ (HasNoEntry E.client result.0 result.1 pass.seat.me.0 result.2.seat.me.0 × (result.2.calls_left ≡ pass.calls_left)) }
{
    let (given, pass) = ask_for(rt, alloc, turns, pass, line, request, now);
    acknowledge(rt, turns, pass, given, gate)
}

/// Asks the volume, with both turns where it needs the log.
fn ask_for<V: Serves<D, E>, D: Disk, E: HasRecords, R: Wait>(
    rt: &R,
    alloc: Global,
    turns: &Turns<V, SharedLog<D>, E>,
    pass: Pass<V, SharedLog<D>, E>,
    line: u32,
    request: &Request,
    now: Moment,
) -> (Given, Pass<V, SharedLog<D>, E>)
    requires table { pass.seat.table_id ≡ turns.now.table.shared.table_id }
    requires left { 0 < pass.calls_left }
    requires fits { FitsRequest request.now }
    ensures same { (result.1.seat.table_id ≡ pass.seat.table_id) × (result.1.client ≡ pass.client) }
    ensures keeps { Keeps pass.seat.me.0 result.1.seat.me.0 }
    ensures left { LeftIs result.0 pass.calls_left result.1.calls_left }
    ensures gave { GaveIs E.client V.entry V.moment V.stands V.answers (asked pass.client line request.now now) pass.seat.me.0 result.1.seat.me.0 result.0 }
{
    let (given, pass) = ask_alone(rt, alloc, turns, pass, line, request, now);
    match given {
        Given::NeedsLog => ask_with_log(rt, alloc, turns, pass, line, request, now),
        given => (given, pass),
    }
}

/// Makes an entry durable that waits, and tells the reply. A call without an entry found no memory.
fn acknowledge<V: Serves<D, E>, D: Disk, G: Gate, E: HasRecords, R: Threads + Wait + Sync>(
    rt: &R,
    turns: &Turns<V, SharedLog<D>, E>,
    pass: Pass<V, SharedLog<D>, E>,
    given: Given,
    gate: &G,
) -> (Reply, Ack, Pass<V, SharedLog<D>, E>)
    requires table { pass.seat.table_id ≡ turns.now.table.shared.table_id }
    requires known { IsKnown pass.seat.me.0 given }
    ensures same { (result.2.seat.table_id ≡ pass.seat.table_id) × (result.2.client ≡ pass.client) × (result.2.calls_left ≡ pass.calls_left) }
    ensures goes_on { GoesOn E.client pass.seat.me.0 result.2.seat.me.0 }
    ensures ends { Ends (standing D.Disk E.logs E.start) (λ y. y.side.halted) given result.0 result.1 result.2.seat.me.0 }
{
    let Given::Replied {
        reply,
        entry,
        waits,
    } = given
    else {
        return (Reply::Refused(Refusal::OutOfMemory), Ack::Pending, pass);
    };
    gate.pause(rt, Place::AfterAppend, pass.client());
    if !waits {
        return (reply, Ack::Pending, pass);
    }
    let (committed, pass) = commit_up_to(rt, turns, pass, entry, gate);
    match committed {
        Committed::Durable => (reply, Ack::Durable { entry }, pass),
        Committed::Failed { fault } => (reply, Ack::Failed { fault }, pass),
    }
}
