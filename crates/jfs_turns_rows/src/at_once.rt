//! Threads that work at once, each with a pass.
ghost use Rattle.std.specs.Prelude.{◌≡◌, ◌≤◌, ◌<◌, [], length, IfSome, IfNone};
ghost use Rattle.jfs_turns_rows.specs.Same.{AreCallers, KeepsPass};
ghost use Rattle.jfs_turns.specs.Passes.{ArePasses};

use crate::client::{SmallPass, SmallTurns, Step, work};
use crate::small::{SmallLog, SmallVolume};
use std::alloc::Global;
use std::marker::Brand;
use std::sync::Wait;
use std::thread::{self, Threads};

// A caller works with its pass, and has it again.
fn work_once<R: Wait>(
    rt: &R,
    turns: &SmallTurns,
    caller: &mut Option<SmallPass>,
    plan: &[Step],
    rounds: u32,
)
    requires { IfSome caller.old (λ p. p.seat.table_id ≡ turns.now.table.shared.table_id) }
    ensures { KeepsPass caller.old caller.new }
{
    if let Some(pass) = caller.take() {
        let pass = work(rt, turns, pass, plan, rounds);
        match caller.replace(pass) {
            None => {}
            Some(_) => unreachable!(),
        }
    }
}

// Each pass works in a thread of its own.
fn work_at_once<R: Threads + Wait + Sync>(
    rt: &R,
    turns: &SmallTurns,
    callers: &mut [Option<SmallPass>],
    plan: &[Step],
    rounds: u32,
    total: u32,
)
    requires { (0 < length callers.old) × AreCallers turns.now.table.shared.table_id total callers.old }
    ensures { AreCallers turns.now.table.shared.table_id total callers.new }
{
    let threads = callers.len();
    thread::for_each_mut(
        rt,
        callers,
        threads,
        &|_place, caller: &mut Option<SmallPass>|
            requires { IfSome caller.old (λ p. p.seat.table_id ≡ turns.now.table.shared.table_id) }
            ensures { KeepsPass caller.old caller.new }
        { work_once(rt, turns, caller, plan, rounds) },
    );
}

/// What is in the volume and the log once `passes` threads have each taken the steps of the plan so many times. None: memory was refused.
pub fn crowd<R: Threads + Wait + Sync>(
    rt: &R,
    alloc: Global,
    passes: u32,
    plan: &[Step],
    rounds: u32,
) -> Option<(SmallVolume, SmallLog)>
    requires { (0 < passes) × (passes ≤ 17) }
{
    let volume = SmallVolume::new(alloc);
    let log = SmallLog::new();
    let Ok((turns, mut dealt)) = SmallTurns::new::<Brand>(alloc, volume, log, passes) else {
        return None;
    };
    let Ok(mut callers) = Vec::with_capacity(alloc, passes as usize) else {
        turns.close(dealt);
        return None;
    };
    while let Some(pass) = dealt.pop() {
        callers.push_reserved(Some(pass));
    }
    work_at_once(rt, &turns, callers.as_mut_slice(), plan, rounds, passes);
    while let Some(caller) = callers.pop() {
        match caller {
            Some(pass) => dealt.push_reserved(pass),
            None => unreachable!(),
        }
    }
    callers.destroy_empty();
    Some(turns.close(dealt))
}
