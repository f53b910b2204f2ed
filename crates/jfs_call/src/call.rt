//! A call that is lent no log.

ghost use Rattle.std.specs.Prelude.{◌≡◌, ◌<◌, ◌≤◌, ◌+◌, ◌^◌, length, None};
ghost use Rattle.jfs_plain.specs.CallStep.{is_sync, writes};
ghost use Rattle.jfs_plain.specs.Limits.{FitsRequest};
ghost use Rattle.jfs_call.specs.Answer.{IsAnswered, held};
ghost use Rattle.jfs_call.specs.Does.{Does, DoesWhere, Syncs, AsksFile};
ghost use Rattle.jfs_call.specs.Replied.{TellsSame, is_kept_back};

use crate::asking::ask_file;
use crate::changing::change;
use crate::outcome::Outcome;
use crate::reply::{Caller, refuse, reply_with};
use jfs_bits::Moment;
use jfs_disk::{Disk, Fault};
use jfs_files::FileOutcome;
use jfs_plain::{Call, Refusal, Reply, Request};
use jfs_volume_calls::volume::Volume;
use std::alloc::Global;

/// A call of a client on a mounted volume, at this moment.
pub fn call_without_log<D: Disk>(
    alloc: Global,
    volume: &mut Volume<D>,
    client: u32,
    line: u32,
    request: &Request,
    now: Moment,
) -> Outcome
    requires fits { FitsRequest request.now }
    requires number { volume.old.appended + 1 < 2 ^ 32 }
    requires size { length volume.old.map.states ≤ volume.old.blocks }
    ensures answered { IsAnswered client line request.now volume.old volume.new result }
    ensures does { Does D.tells D.tells_crashes (record { client = client; line = line }) request.now now volume.old volume.new result }
{
    let caller = Caller { client, line };
    match held(volume, &request.call) {
        Some(fault) => refuse(alloc, volume, caller, request, Refusal::ReadOnly { fault }),
        None => begin(alloc, volume, caller, request, now),
    }
}

/// The fault for which a halted volume refuses the call.
fn held<D: Disk>(volume: &Volume<D>, call: &Call) -> Option<Fault>
    ensures { result ≡ held volume.now.halted call.now }
{
    if writes(call) { volume.halted() } else { None }
}

/// Whether a halted volume refuses the call.
fn writes(call: &Call) -> bool
    ensures { result ≡ writes call.now }
{
    call.is_changing() || is_sync(call)
}

fn is_sync(call: &Call) -> bool
    ensures { result ≡ is_sync call.now }
{
    matches!(call, Call::Sync)
}

/// A call that the volume doesn't refuse because it has halted.
fn begin<D: Disk>(
    alloc: Global,
    volume: &mut Volume<D>,
    caller: Caller,
    request: &Request,
    now: Moment,
) -> Outcome
    requires fits { FitsRequest request.now }
    requires number { volume.old.appended + 1 < 2 ^ 32 }
    requires size { length volume.old.map.states ≤ volume.old.blocks }
    requires begins { held volume.old.halted request.now.call ≡ None }
    ensures { DoesWhere None (is_sync request.now.call) D.tells D.tells_crashes caller request.now now volume.old volume.new result }
{
    if is_sync(&request.call) {
        return sync(alloc, volume, caller, request);
    }
    ask(alloc, volume, caller, request, now)
}

/// Syncs the low part. The caller waits until all entries so far are durable.
fn sync<D: Disk>(
    alloc: Global,
    volume: &mut Volume<D>,
    caller: Caller,
    request: &Request,
) -> Outcome
    requires { volume.old.appended + 1 < 2 ^ 32 }
    ensures { Syncs D.tells D.tells_crashes caller request.now volume.old volume.new result }
{
    match volume.sync_low() {
        Ok(()) => reply_with(alloc, volume, caller, request, Reply::Done, true),
        Err(fault) => refuse(alloc, volume, caller, request, Refusal::IoFault { fault }),
    }
}

/// A file call.
fn ask<D: Disk>(
    alloc: Global,
    volume: &mut Volume<D>,
    caller: Caller,
    request: &Request,
    now: Moment,
) -> Outcome
    requires fits { FitsRequest request.now }
    requires number { volume.old.appended + 1 < 2 ^ 32 }
    requires size { length volume.old.map.states ≤ volume.old.blocks }
    requires begins { held volume.old.halted request.now.call ≡ None }
    ensures { AsksFile D.tells D.tells_crashes caller request.now now volume.old volume.new result }
{
    match ask_file(alloc, volume, request, now) {
        FileOutcome::Changed { tx, blocks } => {
            // no other call changes anything
            if !request.call.is_changing() {
                return Outcome::NoMemory;
            }
            change(alloc, volume, caller, request, &tx, &blocks)
        }
        FileOutcome::Same(reply) => same(alloc, volume, caller, request, reply),
        FileOutcome::NeedsLog => Outcome::NeedsLog,
    }
}

/// Nothing changes. No file call is refused as a halted volume's.
fn same<D: Disk>(
    alloc: Global,
    volume: &mut Volume<D>,
    caller: Caller,
    request: &Request,
    reply: Reply,
) -> Outcome
    requires { volume.old.appended + 1 < 2 ^ 64 }
    ensures { TellsSame caller request.now reply volume.old volume.new result }
{
    if is_kept_back(&reply) {
        return Outcome::NoMemory;
    }
    reply_with(alloc, volume, caller, request, reply, false)
}

/// Whether a reply has no entry: want of memory, and what no file call is refused for.
fn is_kept_back(reply: &Reply) -> bool
    ensures { result ≡ is_kept_back reply.now }
{
    matches!(
        reply,
        Reply::Refused(Refusal::OutOfMemory) | Reply::Refused(Refusal::ReadOnly { .. })
    )
}
