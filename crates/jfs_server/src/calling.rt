//! A call by one of the clients.

ghost use Rattle.std.specs.Prelude.{◌≡◌, ◌<◌};
ghost use Rattle.jfs_plain.specs.Limits.{FitsRequest};
ghost use Rattle.jfs_serving.specs.Calls.{asked};
ghost use Rattle.jfs_server.specs.Called.{IsCalled};

use crate::server::{Server, ServerPass};
use jfs_bits::Moment;
use jfs_disk::Disk;
use jfs_io::Gate;
use jfs_plain::{Ack, Reply, Request};
use jfs_serving::call_by;
use std::sync::Wait;
use std::thread::Threads;

impl<D: Disk> Server<D> {
    /// A call of the pass's client, by its line, at this moment, and what is known of it on the disk. A call that waits comes back once it is durable, or the log has failed. The pass is of this server, and has a call
    /// left.
    pub fn call<G: Gate, R: Threads + Wait + Sync>(
        &self,
        rt: &R,
        pass: ServerPass<D>,
        line: u32,
        request: &Request,
        now: Moment,
        gate: &G,
    ) -> (Reply, Ack, ServerPass<D>)
        requires table { pass.seat.table_id ≡ self.now.turns.table.shared.table_id }
        requires left { 0 < pass.calls_left }
        requires fits { FitsRequest request.now }
        ensures called { IsCalled D.Disk (asked pass.client line request.now now) result.0 result.1 pass result.2 }
    {
        call_by(rt, self.alloc, &self.turns, pass, line, request, now, gate)
    }
}
