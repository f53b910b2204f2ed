//! Who does the calls of one client.
ghost use Rattle.std.specs.Prelude.{◌≤◌, ◌<◌, ◌+◌, ℕ};
ghost use Rattle.std.specs.Thread.{IsSync};
ghost use Rattle.jfs_plain.specs.Limits.{FitsRequest};
ghost use Rattle.jfs_plain.specs.declared.call.Ack.{Ack};
ghost use Rattle.jfs_plain.specs.declared.call.Request.{Request};
ghost use Rattle.jfs_plain.specs.declared.reply.Reply.{Reply};

use jfs_plain::{Ack, Reply, Request};
use std::sync::Wait;
use std::thread::Threads;

/// Does the calls of one client, one after the other.
pub trait Caller {
    /// How many calls it has left.
    ghost left: { Self → ℕ };

    /// What a call does: the caller before it, the number of the line, the request, the reply, what is known of it on the disk, and the caller after it.
    ghost did: { Self → ℕ → Request → Reply → Ack → Self → Type 0 };

    /// Does a call of this line, and waits until it is durable where the request asks for that.
    fn call<R: Threads + Wait + Sync>(
        &mut self,
        rt: &R,
        line: u32,
        request: &Request,
    ) -> (Reply, Ack)
        requires sync { IsSync R.row }
        requires one { 0 < left self.old }
        requires fits { FitsRequest request.now }
        ensures left { left self.old ≤ left self.new + 1 }
        ensures did { did self.old line request.now result.0 result.1 self.new };
}
