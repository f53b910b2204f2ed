//! Scripts of clients, done at once.
ghost use Rattle.std.specs.Prelude.{◌≡◌};
ghost use Rattle.std.specs.Thread.{IsSync};
ghost use Rattle.jfs_clients.specs.Ran.{wants_memory, MayRun, Ran, AllMayRun, EachRan, MayRunAt, RanAt};

use crate::caller::Caller;
use jfs_plain::{Line, Refusal, Reply};
use std::sync::Wait;
use std::thread;
use std::thread::Threads;

/// Does the lines of each script by the caller at its place: all callers at once, each caller's lines in order, each once, up to the first
/// that finds no memory. It takes no memory itself.
pub fn run_clients<C: Caller + Send, R: Threads + Wait + Sync>(
    rt: &R,
    callers: Vec<C>,
    scripts: &[Vec<Line>],
) -> Vec<C>
    requires { AllMayRun C.left scripts.now callers.items }
    ensures { EachRan C.did scripts.now callers.items result.items }
{
    let mut callers = callers;
    let threads = callers.len().max(1);
    let run = |i: usize, caller: &mut C|
        requires { IsSync R.row × MayRunAt C.left scripts.now i caller.now }
        ensures { RanAt C.did scripts.entry.now i caller.entry.now caller.exit.now }
    { run_lines(rt, caller, scripts[i].as_slice()) };
    thread::for_each_mut(rt, callers.as_mut_slice(), threads, &run);
    callers
}

/// Does lines in order, up to the first that finds no memory.
fn run_lines<C: Caller, R: Threads + Wait + Sync>(rt: &R, caller: &mut C, lines: &[Line])
    requires sync { IsSync R.row }
    requires may { MayRun C.left lines.now caller.old }
    ensures { Ran C.did lines.now caller.old caller.new }
{
    for line in lines {
        let (reply, _) = caller.call(rt, line.number, &line.request);
        if wants_memory(&reply) {
            return;
        }
    }
}

/// Whether a call found no memory.
fn wants_memory(reply: &Reply) -> bool
    ensures { result ≡ wants_memory reply.now }
{
    matches!(reply, Reply::Refused(Refusal::OutOfMemory))
}
