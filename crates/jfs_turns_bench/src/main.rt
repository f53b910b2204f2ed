//! What it takes to take and give the volume turn, beside locking and unlocking a plain mutex. It does so with the word `turns`.
#![tactic(auto)]

use jfs_turns_rows::{Step, crowd};
use std::sync::{Mutex, Wait};
use std::thread::{self, Threads};
use std::time::Instant;
use std::{env, io};

/// The calls of each thread.
const CALLS: u32 = 1000000;

fn lock_often<R: Wait>(rt: &R, count: &Mutex<u64>, calls: u32) {
    for _ in 0..calls {
        let mut guard = count.lock(rt);
        *guard = guard.wrapping_add(1);
    }
}

fn lock_at_once<R: Threads + Wait + Sync>(rt: &R, threads: usize, calls: u32) {
    let count = Mutex::new(0);
    let mut hands = [0u8; 4];
    thread::for_each_mut(
        rt,
        &mut hands[..threads.min(4)],
        4,
        &|_place, _hand: &mut u8| { lock_often(rt, &count, calls) },
    );
}

fn main(rt: HostRuntime) -> io::Result<()> {
    for word in env::args(&rt)?.skip(1) {
        if word.as_str() != "turns" {
            continue;
        }
        for threads in [1u32, 4] {
            let start = Instant::now(&rt)?;
            let _ = crowd(&rt, rt.alloc(), threads, &[Step::Hold(CALLS)], 1);
            let turns = start.elapsed(&rt)?.as_micros();
            let start = Instant::now(&rt)?;
            lock_at_once(&rt, threads as usize, CALLS);
            let locks = start.elapsed(&rt)?.as_micros();
            println!(&rt;
                "{threads} threads, {CALLS} calls each: turns {turns} us, locks {locks} us"
            )?;
        }
    }
    Ok(())
}
