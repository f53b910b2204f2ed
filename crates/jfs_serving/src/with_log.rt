//! A call that takes both turns.
ghost use Rattle.std.specs.Prelude.{◌≡◌, ◌<◌, ◌+◌, ◌-◌, ◌^◌, length, false};
ghost use Rattle.jfs_turns.specs.Both.{whole};
ghost use Rattle.jfs_turns.specs.Standing.{VolumeStands, LogStands};
ghost use Rattle.jfs_plain.specs.Limits.{FitsRequest};
ghost use Rattle.jfs_groups.specs.Log.{standing};
ghost use Rattle.jfs_serving.specs.Calls.{asked};
ghost use Rattle.jfs_serving.specs.Called.{Keeps};
ghost use Rattle.jfs_serving.specs.Gave.{GaveIs, LeftIs};
ghost use Rattle.jfs_serving.specs.Held.{IsBothOf, with_entry};

use crate::lent::call_lent;
use crate::serves::{Given, Serves};
use jfs_bits::Moment;
use jfs_disk::Disk;
use jfs_groups::{HasRecords, SharedLog};
use jfs_plain::{Reply, Request};
use jfs_turns::{BothTurns, EntryFact, Pass, Turns};
use std::alloc::Global;
use std::marker::Brand;
use std::sync::Wait;

/// Counts the entry of a call, of which the caller says `W.fits`.
fn count_both<V: Serves<D, E>, D: Disk, E: HasRecords, W: EntryFact<E>>(
    turns: &Turns<V, SharedLog<D>, E>,
    both: &mut BothTurns<V, SharedLog<D>, E>,
    client: u32,
    line: u32,
    request: &Request,
    now: Moment,
    reply: &Reply,
)
    requires of { IsBothOf turns.now.table.shared.table_id both.old }
    requires room { length (whole both.old).list + 1 < 2 ^ 64 }
    requires calls { 0 < both.old.volume.calls_left }
    requires said { (e : _) × W.fits e × (E.client e ≡ both.old.volume.client) }
    ensures of { IsBothOf turns.now.table.shared.table_id both.new }
    ensures same { (both.new.log ≡ both.old.log) × (both.new.volume.value ≡ both.old.volume.value) × (both.new.volume.client ≡ both.old.volume.client) × (both.new.volume.calls_left ≡ both.old.volume.calls_left - 1) }
    ensures told { (e : _) × W.fits e × (whole both.new ≡ with_entry (whole both.old) e) }
{
    turns.append_as::<W>(&mut both.volume);
}

/// Gives both turns.
fn give_both<V: Serves<D, E>, D: Disk, E: HasRecords>(
    turns: &Turns<V, SharedLog<D>, E>,
    both: BothTurns<V, SharedLog<D>, E>,
) -> Pass<V, SharedLog<D>, E>
    requires of { IsBothOf turns.now.table.shared.table_id both }
    requires volume { VolumeStands V.stands both.volume.value (whole both) }
    requires log { LogStands (standing D.Disk E.logs E.start) both.log.value (whole both) }
    ensures same { (result.seat.table_id ≡ turns.now.table.shared.table_id) × (result.client ≡ both.log.client) × (result.calls_left ≡ both.volume.calls_left) }
    ensures told { result.seat.me.0 ≡ record (whole both) { volume = false; appends = false; log = false } }
{
    let turn = turns.drop_volume(both);
    turns.give_log(turn)
}

/// Takes the log turn and then the volume turn, makes room, and asks the volume. Where the call is replied, its entry is counted.
pub(crate) fn ask_with_log<V: Serves<D, E>, D: Disk, E: HasRecords, R: Wait>(
    rt: &R,
    alloc: Global,
    turns: &Turns<V, SharedLog<D>, E>,
    pass: Pass<V, SharedLog<D>, E>,
    line: u32,
    request: &Request,
    now: Moment,
) -> (Given, Pass<V, SharedLog<D>, E>)
    requires table { pass.seat.table_id ≡ turns.now.table.shared.table_id }
    requires left { 0 < pass.calls_left }
    requires fits { FitsRequest request.now }
    ensures same { (result.1.seat.table_id ≡ pass.seat.table_id) × (result.1.client ≡ pass.client) }
    ensures keeps { Keeps pass.seat.me.0 result.1.seat.me.0 }
    ensures left { LeftIs result.0 pass.calls_left result.1.calls_left }
    ensures gave { GaveIs E.client V.entry V.moment V.stands V.answers (asked pass.client line request.now now) pass.seat.me.0 result.1.seat.me.0 result.0 }
{
    let client = pass.client();
    let turn = turns.take_log(rt, pass);
    let mut both = turns.add_volume(rt, turn);
    match call_lent(alloc, turns, &mut both, client, line, request, now) {
        Given::Replied {
            reply,
            entry,
            waits,
        } => {
            count_both::<V, D, E, Brand>(turns, &mut both, client, line, request, now, &reply);
            let pass = give_both(turns, both);
            (
                Given::Replied {
                    reply,
                    entry,
                    waits,
                },
                pass,
            )
        }
        Given::NeedsLog => (Given::NeedsLog, give_both(turns, both)),
        Given::NoMemory => (Given::NoMemory, give_both(turns, both)),
    }
}
