//! One of a server's clients, which does a script's calls.

ghost use Rattle.std.specs.Prelude.{◌≡◌, ◌<◌, [], true, false, Some, length, vec_capacity};
ghost use Rattle.jfs_server.specs.Client.{is_waiting, has_failed, marked, fails};

use crate::server::{Server, ServerPass};
use jfs_bits::Moment;
use jfs_clients::Caller;
use jfs_disk::Disk;
use jfs_io::Gate;
use jfs_plain::{Ack, Reply, Request};
use std::sync::Wait;
use std::thread::Threads;

/// A client of a server. All its calls are handed at one moment.
pub struct Client<'a, D: Disk, G> {
    server: &'a Server<D>,
    gate: &'a G,
    now: Moment,
    pass: Option<ServerPass<D>>,
    /// Of each entry of the client, in their order, whether it had to be made durable.
    waits: Vec<bool>,
    /// Whether one of these couldn't be.
    failed: bool,
    ghost of: { (p : _) → pass ≡ Some p → p.seat.table_id ≡ server.now.turns.table.shared.table_id },
}

impl<'a, D: Disk, G: Gate> Client<'a, D, G> {
    /// The client of a pass of this server, whose calls are handed at this moment. `waits` has room for as many marks as it will do calls.
    pub fn new(
        server: &'a Server<D>,
        gate: &'a G,
        now: Moment,
        pass: ServerPass<D>,
        waits: Vec<bool>,
    ) -> Client<'a, D, G>
        requires table { pass.seat.table_id ≡ server.now.turns.table.shared.table_id }
        requires none { waits.items ≡ [] }
        ensures fields { (result.pass ≡ Some pass) × (result.now ≡ now) × (result.waits ≡ waits) × (result.failed ≡ false) }
    {
        Client {
            server,
            gate,
            now,
            pass: Some(pass),
            waits,
            failed: false,
        }
    }

    /// Its pass, whether each of its entries had to be made durable, and whether one couldn't be.
    pub fn finish(self) -> (ServerPass<D>, Vec<bool>, bool)
        requires { (pass : _) × (self.pass ≡ Some pass) }
        ensures { (self.entry.pass ≡ Some result.0) × (result.1 ≡ self.entry.waits) × (result.2 ≡ self.entry.failed) }
    {
        let Client {
            server: _,
            gate: _,
            now: _,
            pass,
            waits,
            failed,
        } = self;
        match pass {
            Some(pass) => (pass, waits, failed),
            None => unreachable!(),
        }
    }
}

impl<'a, D: Disk, G: Gate> Caller for Client<'a, D, G> {
    ghost use Rattle.std.specs.Prelude.{vec_capacity};
    ghost use Rattle.jfs_server.specs.Client.{left_of, Did};

    ghost left = { λ c. left_of D.Disk c.pass (vec_capacity c.waits) c.waits.items };

    ghost did = { λ c line request reply ack after. Did D.Disk (record { pass = c.pass; now = c.now; waits = c.waits.items; failed = c.failed }) line request reply ack (record { pass = after.pass; now = after.now; waits = after.waits.items; failed = after.failed }) };

    fn call<R: Threads + Wait + Sync>(
        &mut self,
        rt: &R,
        line: u32,
        request: &Request,
    ) -> (Reply, Ack) {
        let Some(pass) = self.pass.take() else {
            unreachable!()
        };
        let left = pass.calls_left();
        let (reply, ack, pass) = self
            .server
            .call(rt, pass, line, request, self.now, self.gate);
        let joined = pass.calls_left() < left;
        self.failed = mark(&mut self.waits, self.failed, joined, ack);
        match self.pass.replace(pass) {
            None => {}
            Some(_) => unreachable!(),
        }
        (reply, ack)
    }
}

/// Marks the entry of a call, where it has one, and tells whether one couldn't be made durable.
fn mark(waits: &mut Vec<bool>, failed: bool, joined: bool, ack: Ack) -> bool
    requires room { joined ≡ true → length waits.old.items < vec_capacity waits.old }
    ensures waits { waits.new.items ≡ marked joined ack waits.old.items }
    ensures room { vec_capacity waits.new ≡ vec_capacity waits.old }
    ensures failed { result ≡ fails joined ack failed }
{
    if !joined {
        return failed;
    }
    waits.push_reserved(is_waiting(ack));
    failed || has_failed(ack)
}

/// Whether an entry had to be made durable.
fn is_waiting(ack: Ack) -> bool
    ensures { result ≡ is_waiting ack }
{
    !matches!(ack, Ack::Pending)
}

/// Whether that failed.
fn has_failed(ack: Ack) -> bool
    ensures { result ≡ has_failed ack }
{
    matches!(ack, Ack::Failed { .. })
}
