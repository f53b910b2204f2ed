//! Clients at once.
ghost use Rattle.std.specs.Prelude.{◌≡◌, ◌≤◌, IfSome, length};
ghost use Rattle.jfs_plain.specs.Limits.{FitsRequest};
ghost use Rattle.jfs_clients.specs.Ran.{AllFit, AllMayRun};

use crate::toy::{Meeting, Toy};
use jfs_clients::run_clients;
use jfs_plain::{Call, Line, Request};
use std::alloc::Global;
use std::sync::atomic::Ordering;
use std::test::*;

/// How many lines each client has.
const LINES: u32 = 3;

// A line that asks for `sync`.
fn line(number: u32) -> Line
    ensures { FitsRequest result.request }
{
    Line {
        number,
        request: Request {
            call: Call::Sync,
            lazy: false,
        },
    }
}

fn script(alloc: Global) -> Option<Vec<Line>>
    ensures { IfSome result (λ lines. AllFit lines.items × (length lines.items ≤ 3)) }
{
    let mut lines = Vec::new(alloc);
    lines.push(line(1)).ok()?;
    lines.push(line(2)).ok()?;
    lines.push(line(3)).ok()?;
    Some(lines)
}

fn toy<'a>(alloc: Global, meeting: &'a Meeting, last: u32) -> Toy<'a>
    ensures { result.left ≡ 3 }
{
    Toy {
        meeting,
        left: LINES,
        last,
        lines: Vec::new(alloc),
    }
}

// Callers and their scripts. The call of the last client's line 2 finds no memory.
fn crowd<'a>(alloc: Global, meeting: &'a Meeting) -> Option<(Vec<Toy<'a>>, Vec<Vec<Line>>)>
    ensures { IfSome result (λ r. AllMayRun (λ toy. toy.left) r.1.items r.0.items) }
{
    let mut toys = Vec::new(alloc);
    let mut scripts = Vec::new(alloc);
    let one = script(alloc)?;
    let other = script(alloc)?;
    scripts.push(one).ok()?;
    scripts.push(other).ok()?;
    toys.push(toy(alloc, meeting, 0)).ok()?;
    toys.push(toy(alloc, meeting, 2)).ok()?;
    Some((toys, scripts))
}

#[test]
fn each_line_once_and_in_order(rt: HostRuntime) {
    let alloc = rt.alloc();
    let meeting = Meeting::new();
    let (toys, scripts) = crowd(alloc, &meeting).expect(&rt, "memory");
    let toys = run_clients(&rt, toys, scripts.as_slice());
    let lines: [&[u32]; 2] = [&[1, 2, 3], &[1, 2]];
    assert!(rt; toys.len() == 2);
    for (i, toy) in toys.as_slice().iter().enumerate() {
        assert!(rt; toy.lines.as_slice() == lines[i], "client {i}");
    }
    assert!(rt; meeting.come.load(Ordering::SeqCst) == 2);
    assert!(rt; meeting.missed.load(Ordering::SeqCst) == 0);
}
