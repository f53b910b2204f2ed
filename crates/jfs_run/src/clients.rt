//! The clients of a run, from the passes of a server and back.

ghost use Rattle.std.specs.Prelude.{◌≡◌, ◌≤◌, [], vec_len, vec_capacity};
ghost use Rattle.std.specs.List.{AllByRecursion};
ghost use Rattle.jfs_run.specs.Clients.{AreReady, AreClientsOf, HavePasses, AreBack, EachCame};

use jfs_bits::Moment;
use jfs_disk::Disk;
use jfs_io::Gate;
use jfs_plain::Line;
use jfs_server::{Client, Server, ServerPass, run_scripts};
use std::sync::Wait;
use std::thread::Threads;

/// The passes of clients that have done their scripts, in their order, and whether one was told that an entry couldn't be made durable.
pub struct Back<D: Disk> {
    pub passes: Vec<ServerPass<D>>,
    pub failed: bool,
}

/// Does the lines of all scripts at once, each by the client of the pass at its place, whose calls are all handed at one moment. Of each client `marks` has then whether each of its entries had to be made durable, in
/// their order. `room` has room for the clients.
pub fn do_scripts<'a, D: Disk + Send, G: Gate + Sync, R: Threads + Wait + Sync>(
    rt: &R,
    server: &'a Server<D>,
    gate: &'a G,
    now: Moment,
    passes: Vec<ServerPass<D>>,
    marks: &mut Vec<Vec<bool>>,
    room: Vec<Client<'a, D, G>>,
    scripts: &[Vec<Line>],
) -> Back<D>
    requires ready { AreReady D.Disk server.now.turns.table.shared.table_id scripts.now passes.items marks.old.items }
    requires none { room.items ≡ [] }
    requires room { vec_len passes ≤ vec_capacity room }
    ensures came { EachCame D.Disk now result.failed scripts.now passes.items result.passes.items marks.new.items }
{
    let mut passes = passes;
    let clients = clients_of(server, gate, now, &mut passes, marks, room);
    let clients = run_scripts(rt, clients, scripts);
    let failed = take_back(clients, &mut passes, marks);
    Back { passes, failed }
}

/// Makes a client of each pass and the marks at its place.
fn clients_of<'a, D: Disk, G: Gate>(
    server: &'a Server<D>,
    gate: &'a G,
    now: Moment,
    passes: &mut Vec<ServerPass<D>>,
    marks: &mut Vec<Vec<bool>>,
    room: Vec<Client<'a, D, G>>,
) -> Vec<Client<'a, D, G>>
    requires same { vec_len marks.old ≡ vec_len passes.old }
    requires none { room.items ≡ [] }
    requires room { vec_len passes.old ≤ vec_capacity room }
    requires table { AllByRecursion (λ p. p.seat.table_id ≡ server.now.turns.table.shared.table_id) passes.old.items }
    requires empty { AllByRecursion (λ w. w.items ≡ []) marks.old.items }
    ensures clients { AreClientsOf D.Disk now passes.old.items marks.old.items result.items }
    ensures passes { (passes.new.items ≡ []) × (vec_capacity passes.new ≡ vec_capacity passes.old) }
    ensures marks { (marks.new.items ≡ []) × (vec_capacity marks.new ≡ vec_capacity marks.old) }
{
    let mut clients = room;
    for _ in 0..passes.len() {
        let pass = passes.remove(0);
        let waits = marks.remove(0);
        clients.push_reserved(Client::new(server, gate, now, pass, waits));
    }
    clients
}

/// Takes the clients' passes and marks back, and tells whether one was told that an entry couldn't be made durable.
fn take_back<'a, D: Disk, G: Gate>(
    clients: Vec<Client<'a, D, G>>,
    passes: &mut Vec<ServerPass<D>>,
    marks: &mut Vec<Vec<bool>>,
) -> bool
    requires have { HavePasses D.Disk clients.items }
    requires passes { (passes.old.items ≡ []) × (vec_len clients ≤ vec_capacity passes.old) }
    requires marks { (marks.old.items ≡ []) × (vec_len clients ≤ vec_capacity marks.old) }
    ensures back { AreBack D.Disk result clients.entry.items passes.new.items marks.new.items }
{
    let mut clients = clients;
    let mut failed = false;
    for _ in 0..clients.len() {
        let (pass, waits, has_failed) = clients.remove(0).finish();
        passes.push_reserved(pass);
        marks.push_reserved(waits);
        failed = failed || has_failed;
    }
    clients.destroy_empty();
    failed
}
