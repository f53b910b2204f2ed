//! The clients of a server, at once.

ghost use Rattle.jfs_clients.specs.Ran.{AllMayRun, EachRan};
ghost use Rattle.jfs_server.specs.Running.{left_in, did_in};

use crate::client::Client;
use jfs_clients::run_clients;
use jfs_disk::Disk;
use jfs_io::Gate;
use jfs_plain::Line;
use std::sync::Wait;
use std::thread::Threads;

/// Does the lines of each script by the client at its place: all clients at once, each client's lines in order, each once, up to the first that finds no memory. Each client has its pass again then.
pub fn run_scripts<'a, D: Disk + Send, G: Gate + Sync, R: Threads + Wait + Sync>(
    rt: &R,
    clients: Vec<Client<'a, D, G>>,
    scripts: &[Vec<Line>],
) -> Vec<Client<'a, D, G>>
    requires { AllMayRun (left_in D.Disk) scripts.now clients.items }
    ensures { EachRan (did_in D.Disk) scripts.now clients.entry.items result.items }
{
    run_clients(rt, clients, scripts)
}
