//! A commit by one of many clients.
ghost use Rattle.std.specs.Prelude.{◌≡◌, ◌≤◌, length};
ghost use Rattle.jfs_groups.specs.Log.{standing};
ghost use Rattle.jfs_groups.specs.Commit.{GoesOn, IsCommitted};

use crate::collected::{Collected, HasRecords};
use crate::committed::Committed;
use crate::lead::lead;
use crate::log::SharedLog;
use jfs_disk::Disk;
use jfs_io::Gate;
use jfs_turns::{Pass, Turns};
use std::sync::Wait;
use std::thread::Threads;

/// Makes the first `n` entries durable, where they aren't, and waits until they are. Whoever finds them durable makes no device call.
/// Whoever doesn't takes the log turn; if they aren't durable by then, it writes all that the volume has as one group, while others
/// may go on with the volume. `n` is at most the number of entries that the pass knows. It takes no memory.
pub fn commit_up_to<V: Collected<E>, D: Disk, G: Gate, E: HasRecords, R: Threads + Wait + Sync>(
    rt: &R,
    turns: &Turns<V, SharedLog<D>, E>,
    pass: Pass<V, SharedLog<D>, E>,
    n: u64,
    gate: &G,
) -> (Committed, Pass<V, SharedLog<D>, E>)
    requires table { pass.seat.table_id ≡ turns.now.table.shared.table_id }
    requires known { n ≤ length pass.seat.me.0.list }
    ensures same { (result.1.seat.table_id ≡ pass.seat.table_id) × (result.1.client ≡ pass.client) × (result.1.calls_left ≡ pass.calls_left) }
    ensures goes_on { GoesOn E.client pass.seat.me.0 result.1.seat.me.0 }
    ensures committed { IsCommitted (standing D.Disk E.logs E.start) (λ y. y.side.halted) n pass.seat.me.0 result.1.seat.me.0 result.0 }
{
    let client = pass.client();
    let mut pass = pass;
    if turns.durable(&mut pass) >= n {
        return (Committed::Durable, pass);
    }
    let turn = turns.take_log(rt, pass);
    if turn.value.side.durable() >= n {
        return (Committed::Durable, turns.give_log(turn));
    }
    match turn.value.side.halted() {
        Some(fault) => (Committed::Failed { fault }, turns.give_log(turn)),
        None => lead(rt, turns, turn, client, gate),
    }
}
