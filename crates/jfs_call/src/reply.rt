//! Replies that join the history without a transaction.

ghost use Rattle.std.specs.Prelude.{◌<◌, ◌+◌, ◌^◌, false};
ghost use Rattle.jfs_plain.specs.declared.reply.Reply.TheVariants.{Refused};
ghost use Rattle.jfs_call.specs.Replied.{IsReplied};

use crate::outcome::Outcome;
use jfs_disk::Disk;
use jfs_plain::{Refusal, Reply, Request};
use jfs_volume_calls::volume::{Outcome as Joined, Volume};
use std::alloc::Global;

/// Who calls: a client, and the line of its script.
#[derive(Clone, Copy, PartialEq, Eq, Debug)]
pub struct Caller {
    pub client: u32,
    pub line: u32,
}

/// A call gets this reply, and its entry joins the history.
pub(crate) fn reply_with<D: Disk>(
    alloc: Global,
    volume: &mut Volume<D>,
    caller: Caller,
    request: &Request,
    reply: Reply,
    waits: bool,
) -> Outcome
    requires { volume.old.appended + 1 < 2 ^ 64 }
    ensures { IsReplied caller request.now reply waits volume.old volume.new result }
{
    let Ok(copy) = reply.copy(alloc) else {
        return Outcome::NoMemory;
    };
    match volume.join_reply(caller.client, caller.line, request, copy) {
        Joined::Replied { entry } => Outcome::Replied {
            reply,
            entry,
            waits,
        },
        Joined::NoMemory => Outcome::NoMemory,
    }
}

/// A call is refused.
pub(crate) fn refuse<D: Disk>(
    alloc: Global,
    volume: &mut Volume<D>,
    caller: Caller,
    request: &Request,
    why: Refusal,
) -> Outcome
    requires { volume.old.appended + 1 < 2 ^ 64 }
    ensures { IsReplied caller request.now (Refused why) false volume.old volume.new result }
{
    reply_with(alloc, volume, caller, request, Reply::Refused(why), false)
}
