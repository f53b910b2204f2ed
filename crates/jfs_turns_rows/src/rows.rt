//! Rows of the turns: clients at once, one pass step by step, and a pass that uses up its calls.

use crate::at_once::crowd;
use crate::client::Step;
use crate::small::Line;

// What a client does, how many clients do it at once and how often each, and what is left: each client's lines, how many of all are
// durable, and the syncpoints.
type Row = (&'static [Step], u32, u32, u32, u64, u64);

// A pass has 65,536 calls, so the last row's last line isn't appended.
#[rattlefmt::skip]
static ROWS: [Row; 6] = [
    (&[Step::Append(4), Step::Group, Step::Append(4), Step::Point], 1, 5, 40, 40, 5),
    (&[Step::Append(4), Step::Group, Step::Append(4), Step::Point], 2, 50, 400, 800, 100),
    (&[Step::Append(4), Step::Group, Step::Append(4), Step::Point], 4, 50, 400, 1600, 200),
    (&[Step::Append(4), Step::Group, Step::Append(4), Step::Point], 16, 10, 80, 1280, 160),
    (&[Step::Append(3)], 2, 2, 6, 0, 0),
    (&[Step::Append(65536), Step::Group, Step::Append(1)], 1, 1, 65536, 65536, 0),
];

// Each client's lines stand in order, none is missing, and both sides have the same counts.
#[test]
fn nothing_is_lost(rt: HostRuntime) {
    for (plan, threads, rounds, lines, durable, points) in &ROWS {
        let Some((volume, log)) = crowd(&rt, rt.alloc(), *threads, plan, *rounds) else {
            assert!(rt; false, "memory was refused");
            return;
        };
        for client in 1..*threads + 1 {
            assert!(rt;
                has_all(volume.lines.as_slice(), client, *lines),
                "{client} of {threads}"
            );
        }
        assert_eq!(rt; volume.lines.len() as u64, *threads as u64 * *lines as u64);
        let volume_counts = [volume.taken, volume.points.len() as u64, volume.known];
        assert_eq!(rt; volume_counts, [*durable, *points, *points]);
        assert_eq!(rt;
            [log.taken, log.durable, log.stable],
            [*durable, *durable, *points]
        );
        assert!(rt; volume.told <= log.durable);
    }
}

// The client's lines are 0 to count - 1, in order.
fn has_all(lines: &[Line], client: u32, count: u32) -> bool {
    let mut next = 0;
    for line in lines {
        if line.client == client {
            if line.number != next || next == count {
                return false;
            }
            next = next.wrapping_add(1);
        }
    }
    next == count
}

// One pass sees the durable count before and after its groups. Each line acknowledges what is durable by then.
#[test]
fn one_pass_step_by_step(rt: HostRuntime) {
    let plan = [
        Step::Note,
        Step::Append(1),
        Step::Note,
        Step::Group,
        Step::Note,
        Step::Point,
        Step::Note,
    ];
    let Some((volume, log)) = crowd(&rt, rt.alloc(), 1, &plan, 1) else {
        assert!(rt; false, "memory was refused");
        return;
    };
    let mut numbers = [9; 5];
    for (number, line) in numbers.iter_mut().zip(volume.lines.as_slice()) {
        *number = line.number;
    }
    assert_eq!(rt; numbers, [0, 1, 0, 3, 4]);
    assert_eq!(rt; volume.lines.len(), 5);
    assert_eq!(rt; [volume.taken, volume.told, volume.known], [4, 4, 1]);
    assert_eq!(rt; volume.points.as_slice(), [4].as_slice());
    assert_eq!(rt; [log.taken, log.durable, log.stable], [4, 4, 1]);
}
