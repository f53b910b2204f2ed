//! What the leader of a group does. It has the log turn throughout, and the volume turn only while it takes the group.
ghost use Rattle.std.specs.Prelude.{◌≡◌, ◌<◌, ◌≤◌, ℕ, length, None};
ghost use Rattle.jfs_turns.specs.Views.{IsLoneLog};
ghost use Rattle.jfs_turns.specs.Standing.{LogStands};
ghost use Rattle.jfs_groups.specs.Log.{standing};
ghost use Rattle.jfs_groups.specs.Collects.{IsExact, KeepsCounts, Collects};
ghost use Rattle.jfs_groups.specs.Commit.{GoesOn, IsLed};

use crate::collected::{Collected, HasRecords};
use crate::committed::Committed;
use crate::log::SharedLog;
use jfs_disk::{Disk, Fault};
use jfs_io::{Gate, Place};
use jfs_logpages::{GroupText, LogFault};
use jfs_turns::{LogTurn, Pass, Turns};
use std::marker::Brand;
use std::sync::Wait;
use std::thread::Threads;

/// Takes all entries of the volume into a group, and gives the volume turn. What is durable by then is acknowledged.
fn collect<V: Collected<E>, D: Disk, E: HasRecords, R: Wait>(
    rt: &R,
    turns: &Turns<V, SharedLog<D>, E>,
    turn: LogTurn<V, SharedLog<D>, E>,
) -> (GroupText, LogTurn<V, SharedLog<D>, E>)
    requires table { turn.seat.table_id ≡ turns.now.table.shared.table_id }
    requires lone { IsLoneLog turn.seat.me }
    requires stands { LogStands (standing D.Disk E.logs E.start) turn.value turn.seat.me.0 }
    ensures turn { (result.1.seat.table_id ≡ turn.seat.table_id) × (result.1.value ≡ turn.value) × (result.1.client ≡ turn.client) × (result.1.calls_left ≡ turn.calls_left) × IsLoneLog result.1.seat.me }
    ensures goes_on { GoesOn E.client turn.seat.me.0 result.1.seat.me.0 }
    ensures exact { IsExact result.1.seat.me.0 }
    ensures collects { Collects E.logs E.start turn.seat.me.0 result.1.seat.me.0 result.0 }
{
    let mut both = turns.add_volume(rt, turn);
    let durable = both.log.value.side.durable();
    both.volume.value.told(durable);
    let group = both.volume.value.take_group();
    turns.mark_taken(&mut both);
    (group, turns.drop_volume(both))
}

/// Tells the volume that the log has halted. Both sides have a mark of that then.
fn halt_volume<V: Collected<E>, D: Disk, E: HasRecords, R: Wait>(
    rt: &R,
    turns: &Turns<V, SharedLog<D>, E>,
    turn: LogTurn<V, SharedLog<D>, E>,
    fault: Fault,
) -> LogTurn<V, SharedLog<D>, E>
    requires table { turn.seat.table_id ≡ turns.now.table.shared.table_id }
    requires lone { IsLoneLog turn.seat.me }
    requires counts { (turn.value.points ≤ turn.seat.me.0.log_stable) × (turn.seat.me.0.log_stable ≤ length turn.seat.me.0.log_points) }
    ensures turn { (result.seat.table_id ≡ turn.seat.table_id) × (result.value ≡ turn.value) × (result.client ≡ turn.client) × (result.calls_left ≡ turn.calls_left) × IsLoneLog result.seat.me }
    ensures goes_on { GoesOn E.client turn.seat.me.0 result.seat.me.0 }
    ensures exact { IsExact result.seat.me.0 }
    ensures keeps { KeepsCounts turn.seat.me.0 result.seat.me.0 }
{
    let mut both = turns.add_volume(rt, turn);
    both.volume.value.halt(fault);
    turns.mark_syncpoints_as::<Brand>(&mut both);
    turns.drop_volume(both)
}

/// Writes a group of all that the volume has by then, and makes it durable.
pub(crate) fn lead<V: Collected<E>, D: Disk, G: Gate, E: HasRecords, R: Threads + Wait + Sync>(
    rt: &R,
    turns: &Turns<V, SharedLog<D>, E>,
    turn: LogTurn<V, SharedLog<D>, E>,
    client: u32,
    gate: &G,
) -> (Committed, Pass<V, SharedLog<D>, E>)
    requires table { turn.seat.table_id ≡ turns.now.table.shared.table_id }
    requires lone { IsLoneLog turn.seat.me }
    requires stands { LogStands (standing D.Disk E.logs E.start) turn.value turn.seat.me.0 }
    requires running { turn.value.side.halted ≡ None }
    ensures same { (result.1.seat.table_id ≡ turn.seat.table_id) × (result.1.client ≡ turn.client) × (result.1.calls_left ≡ turn.calls_left) }
    ensures goes_on { GoesOn E.client turn.seat.me.0 result.1.seat.me.0 }
    ensures leads { (n : ℕ) → n ≤ length turn.seat.me.0.list → turn.value.side.durable < n → IsLed (standing D.Disk E.logs E.start) (λ y. y.side.halted) n result.1.seat.me.0 result.0 }
{
    let (group, mut turn) = collect(rt, turns, turn);
    gate.pause(rt, Place::BeforeLogWrite, client);
    match turn.value.write(&group) {
        Ok(()) => {
            turns.raise(&mut turn, group.last());
            (Committed::Durable, turns.give_log(turn))
        }
        Err(LogFault { fault }) => {
            let turn = halt_volume(rt, turns, turn, fault);
            (Committed::Failed { fault }, turns.give_log(turn))
        }
    }
}
