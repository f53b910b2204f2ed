//! A call that changes something.

ghost use Rattle.std.specs.Prelude.{◌≡◌, ◌<◌, ◌≤◌, ◌+◌, ◌^◌, length, None};
ghost use Rattle.jfs_files.specs.data_steps.specs.After.{LieWithin};
ghost use Rattle.jfs_call.specs.Changed.{IsChangedBy, EntersAs};

use crate::outcome::Outcome;
use crate::reply::{Caller, refuse};
use jfs_disk::Disk;
use jfs_files::DataList;
use jfs_plain::{Entry, Refusal, Reply, Request};
use jfs_ranges::Tx;
use jfs_volume_calls::volume::{Called, Volume};
use std::alloc::Global;

/// Data is written, and the transaction is appended.
pub(crate) fn change<D: Disk>(
    alloc: Global,
    volume: &mut Volume<D>,
    caller: Caller,
    request: &Request,
    tx: &Tx,
    blocks: &DataList,
) -> Outcome
    requires running { volume.old.halted ≡ None }
    requires number { volume.old.appended + 1 < 2 ^ 32 }
    requires size { length volume.old.map.states ≤ volume.old.blocks }
    requires data { LieWithin (length volume.old.map.states) blocks.now }
    ensures { IsChangedBy D.tells D.tells_crashes caller request.now tx.now blocks.now volume.old volume.new result }
{
    match enter(alloc, volume, caller, request, tx, blocks) {
        Called::Entered { entry } => Outcome::Replied {
            reply: Reply::Done,
            entry,
            waits: !request.lazy,
        },
        Called::NoRoom => Outcome::NeedsLog,
        Called::Failed { fault } => {
            refuse(alloc, volume, caller, request, Refusal::IoFault { fault })
        }
        Called::NoMemory => Outcome::NoMemory,
        Called::Unfit => Outcome::NoMemory,
    }
}

/// The entry joins, where there is memory for it.
fn enter<D: Disk>(
    alloc: Global,
    volume: &mut Volume<D>,
    caller: Caller,
    request: &Request,
    tx: &Tx,
    blocks: &DataList,
) -> Called
    requires running { volume.old.halted ≡ None }
    requires number { volume.old.appended + 1 < 2 ^ 32 }
    requires size { length volume.old.map.states ≤ volume.old.blocks }
    requires data { LieWithin (length volume.old.map.states) blocks.now }
    ensures { EntersAs D.tells D.tells_crashes caller request.now tx.now blocks.now volume.old volume.new result }
{
    let Ok(call) = request.call.copy(alloc) else {
        return Called::NoMemory;
    };
    let entry = Entry {
        client: caller.client,
        line: caller.line,
        call,
        lazy: request.lazy,
        reply: Reply::Done,
    };
    volume.append_call(entry, tx, blocks)
}
