//! What a client does with its pass.
ghost use Rattle.std.specs.Prelude.{◌≡◌};
ghost use Rattle.jfs_turns_rows.specs.Same.{IsSamePass};

use crate::small::{Line, SmallLog, SmallVolume};
use jfs_turns::{Pass, Turns};
use std::sync::Wait;

pub type SmallTurns = Turns<SmallVolume, SmallLog, Line>;

pub type SmallPass = Pass<SmallVolume, SmallLog, Line>;

/// Appends a line of the pass's client and acknowledges what is durable. It appends nothing where the pass has no call left, or
/// memory is refused.
pub fn append_line<R: Wait>(rt: &R, turns: &SmallTurns, pass: SmallPass, number: u32) -> SmallPass
    requires { pass.seat.table_id ≡ turns.now.table.shared.table_id }
    ensures { IsSamePass pass result }
{
    let client = pass.client();
    let left = pass.calls_left();
    let mut turn = turns.take_volume(rt, pass);
    if left > 0 && turn.value.lines.push(Line { client, number }).is_ok() {
        turns.append(&mut turn);
    }
    let told = turns.settled(&mut turn);
    turn.value.told = told;
    turns.give_volume(turn)
}

/// Takes all lines into a group, makes a syncpoint where `point` says so and there is memory, and makes the group durable once the
/// volume is given.
pub fn take_group<R: Wait>(rt: &R, turns: &SmallTurns, pass: SmallPass, point: bool) -> SmallPass
    requires { pass.seat.table_id ≡ turns.now.table.shared.table_id }
    ensures { IsSamePass pass result }
{
    let log = turns.take_log(rt, pass);
    let mut both = turns.add_volume(rt, log);
    let all = both.volume.value.lines.len() as u64;
    both.volume.value.taken = all;
    both.log.value.taken = all;
    turns.mark_taken(&mut both);
    if point && both.volume.value.points.push(all).is_ok() {
        let points = both.volume.value.points.len() as u64;
        both.log.value.stable = points;
        both.volume.value.known = points;
        turns.mark_syncpoints(&mut both);
    }
    let mut log = turns.drop_volume(both);
    log.value.durable = all;
    turns.raise(&mut log, all);
    turns.give_log(log)
}

/// A part of what a client does.
#[derive(Clone, Copy, Drop)]
pub enum Step {
    /// Appends so many lines, numbered from 0 on over all of the pass's calls.
    Append(u32),
    /// Appends a line whose number is the durable count that the pass sees.
    Note,
    /// Takes the volume turn and gives it, so often.
    Hold(u32),
    /// Takes a group.
    Group,
    /// Takes a group and makes a syncpoint.
    Point,
}

// Appends lines, each numbered by the calls that the pass has made.
fn append_lines<R: Wait>(rt: &R, turns: &SmallTurns, pass: SmallPass, count: u32) -> SmallPass
    requires { pass.seat.table_id ≡ turns.now.table.shared.table_id }
    ensures { IsSamePass pass result }
{
    let mut pass = pass;
    for _ in 0..count {
        let number = 65536u32.wrapping_sub(pass.calls_left());
        pass = append_line(rt, turns, pass, number);
    }
    pass
}

fn hold<R: Wait>(rt: &R, turns: &SmallTurns, pass: SmallPass, count: u32) -> SmallPass
    requires { pass.seat.table_id ≡ turns.now.table.shared.table_id }
    ensures { IsSamePass pass result }
{
    let mut pass = pass;
    for _ in 0..count {
        let turn = turns.take_volume(rt, pass);
        pass = turns.give_volume(turn);
    }
    pass
}

fn take_step<R: Wait>(rt: &R, turns: &SmallTurns, pass: SmallPass, step: Step) -> SmallPass
    requires { pass.seat.table_id ≡ turns.now.table.shared.table_id }
    ensures { IsSamePass pass result }
{
    match step {
        Step::Append(count) => append_lines(rt, turns, pass, count),
        Step::Note => {
            let mut pass = pass;
            let durable = turns.durable(&mut pass);
            append_line(rt, turns, pass, u32::try_from(durable).unwrap_or(0))
        }
        Step::Hold(count) => hold(rt, turns, pass, count),
        Step::Group => take_group(rt, turns, pass, false),
        Step::Point => take_group(rt, turns, pass, true),
    }
}

/// Takes the steps in order, so many times.
pub fn work<R: Wait>(
    rt: &R,
    turns: &SmallTurns,
    pass: SmallPass,
    plan: &[Step],
    rounds: u32,
) -> SmallPass
    requires { pass.seat.table_id ≡ turns.now.table.shared.table_id }
    ensures { IsSamePass pass result }
{
    let mut pass = pass;
    for _ in 0..rounds {
        for step in plan {
            pass = take_step(rt, turns, pass, *step);
        }
    }
    pass
}
