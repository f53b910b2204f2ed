//! A call of whoever has the volume turn alone.
ghost use Rattle.std.specs.Prelude.{◌≡◌, ◌<◌, ◌+◌, ◌-◌, ◌^◌, length};
ghost use Rattle.jfs_turns.specs.Told.{appended};
ghost use Rattle.jfs_plain.specs.Limits.{FitsRequest};
ghost use Rattle.jfs_serving.specs.Calls.{asked};
ghost use Rattle.jfs_serving.specs.Called.{Keeps};
ghost use Rattle.jfs_serving.specs.Gave.{GaveIs, LeftIs};

use crate::serves::{Given, Serves};
use jfs_bits::Moment;
use jfs_disk::Disk;
use jfs_groups::{HasRecords, SharedLog};
use jfs_plain::{Reply, Request};
use jfs_turns::{EntryFact, Pass, Turns, VolumeTurn};
use std::alloc::Global;
use std::marker::Brand;
use std::sync::Wait;

/// Counts the entry of a call, of which the caller says `W.fits`.
fn count_entry<V: Serves<D, E>, D: Disk, E: HasRecords, W: EntryFact<E>>(
    turns: &Turns<V, SharedLog<D>, E>,
    turn: &mut VolumeTurn<V, SharedLog<D>, E>,
    client: u32,
    line: u32,
    request: &Request,
    now: Moment,
    reply: &Reply,
)
    requires table { turn.old.seat.table_id ≡ turns.now.table.shared.table_id }
    requires room { length turn.old.seat.me.0.list + 1 < 2 ^ 64 }
    requires calls { 0 < turn.old.calls_left }
    requires said { (e : _) × W.fits e × (E.client e ≡ turn.old.client) }
    ensures same { (turn.new.seat.table_id ≡ turn.old.seat.table_id) × (turn.new.value ≡ turn.old.value) × (turn.new.client ≡ turn.old.client) × (turn.new.calls_left ≡ turn.old.calls_left - 1) }
    ensures told { appended W.fits turn.old.seat.me turn.new.seat.me }
{
    turns.append_as::<W>(turn);
}

/// Takes the volume turn, tells the volume what is durable, and asks it. Where the call is replied, its entry is counted.
pub(crate) fn ask_alone<V: Serves<D, E>, D: Disk, E: HasRecords, R: Wait>(
    rt: &R,
    alloc: Global,
    turns: &Turns<V, SharedLog<D>, E>,
    pass: Pass<V, SharedLog<D>, E>,
    line: u32,
    request: &Request,
    now: Moment,
) -> (Given, Pass<V, SharedLog<D>, E>)
    requires table { pass.seat.table_id ≡ turns.now.table.shared.table_id }
    requires left { 0 < pass.calls_left }
    requires fits { FitsRequest request.now }
    ensures same { (result.1.seat.table_id ≡ pass.seat.table_id) × (result.1.client ≡ pass.client) }
    ensures keeps { Keeps pass.seat.me.0 result.1.seat.me.0 }
    ensures left { LeftIs result.0 pass.calls_left result.1.calls_left }
    ensures gave { GaveIs E.client V.entry V.moment V.stands V.answers (asked pass.client line request.now now) pass.seat.me.0 result.1.seat.me.0 result.0 }
{
    let client = pass.client();
    let mut turn = turns.take_volume(rt, pass);
    let durable = turns.settled(&mut turn);
    turn.value.told(durable);
    match turn.value.call(alloc, client, line, request, now) {
        Given::Replied {
            reply,
            entry,
            waits,
        } => {
            count_entry::<V, D, E, Brand>(turns, &mut turn, client, line, request, now, &reply);
            let pass = turns.give_volume(turn);
            (
                Given::Replied {
                    reply,
                    entry,
                    waits,
                },
                pass,
            )
        }
        Given::NeedsLog => (Given::NeedsLog, turns.give_volume(turn)),
        Given::NoMemory => (Given::NoMemory, turns.give_volume(turn)),
    }
}
