use crate::runs::{Do, run, zeros};
use jfs_core::{CoreState, StepRefused, Why};
use std::test::*;

struct Case {
    steps: &'static [Do],
    refused: Option<(u32, Why)>,
}

const CASES: [Case; 26] = [
    // The log has halted; its group stays open.
    Case {
        steps: &[Do::Set(0, 0, 1), Do::Take, Do::FailGroup, Do::Group],
        refused: Some((3, Why::Halted)),
    },
    Case {
        steps: &[Do::Take, Do::FailGroup, Do::FailGroup],
        refused: Some((2, Why::Halted)),
    },
    Case {
        steps: &[Do::Take, Do::FailGroup, Do::Take],
        refused: Some((2, Why::GroupOpen)),
    },
    // A part has halted: no entry with a change, and one without.
    Case {
        steps: &[Do::FailSync, Do::Nothing, Do::Set(0, 0, 1)],
        refused: Some((2, Why::Halted)),
    },
    Case {
        steps: &[Do::Take, Do::FailGroup, Do::Set(0, 0, 1)],
        refused: Some((2, Why::Halted)),
    },
    // A failed read halts nothing, and a low part that has halted still writes.
    Case {
        steps: &[Do::FailRead, Do::Set(0, 0, 1)],
        refused: None,
    },
    Case {
        steps: &[
            Do::Set(0, 0, 1),
            Do::Take,
            Do::Group,
            Do::Told,
            Do::FailSync,
            Do::Home(0),
            Do::Sync,
            Do::FailSync,
        ],
        refused: None,
    },
    // Not dirty: never touched, no such page, already home, an entry without a change.
    Case {
        steps: &[Do::Home(0)],
        refused: Some((0, Why::NotDirty)),
    },
    Case {
        steps: &[Do::Home(2)],
        refused: Some((0, Why::NotDirty)),
    },
    Case {
        steps: &[Do::Set(0, 0, 1), Do::Take, Do::Group, Do::Told, Do::Home(1)],
        refused: Some((4, Why::NotDirty)),
    },
    Case {
        steps: &[
            Do::Set(0, 0, 1),
            Do::Take,
            Do::Group,
            Do::Told,
            Do::Home(0),
            Do::Home(0),
        ],
        refused: Some((5, Why::NotDirty)),
    },
    // Not acknowledged.
    Case {
        steps: &[Do::Set(0, 0, 1), Do::Home(0)],
        refused: Some((1, Why::NotTold)),
    },
    Case {
        steps: &[Do::Set(0, 0, 1), Do::Take, Do::Group, Do::Home(0)],
        refused: Some((3, Why::NotTold)),
    },
    Case {
        steps: &[
            Do::Set(0, 0, 1),
            Do::Take,
            Do::Group,
            Do::Told,
            Do::Set(0, 1, 2),
            Do::Home(0),
        ],
        refused: Some((5, Why::NotTold)),
    },
    Case {
        steps: &[Do::Point(0), Do::Point(1)],
        refused: Some((1, Why::NotTold)),
    },
    // Neither acknowledged nor stable: the earlier condition is named.
    Case {
        steps: &[Do::Set(0, 0, 1), Do::Point(1)],
        refused: Some((1, Why::NotTold)),
    },
    // Groups.
    Case {
        steps: &[Do::Take, Do::Take],
        refused: Some((1, Why::GroupOpen)),
    },
    Case {
        steps: &[Do::Group],
        refused: Some((0, Why::NoGroup)),
    },
    Case {
        steps: &[Do::FailGroup],
        refused: Some((0, Why::NoGroup)),
    },
    // Not stable: dirty, unsynced, and a count that falls.
    Case {
        steps: &[
            Do::Set(0, 0, 1),
            Do::Take,
            Do::Group,
            Do::Told,
            Do::Point(1),
        ],
        refused: Some((4, Why::NotSynced)),
    },
    Case {
        steps: &[
            Do::Set(0, 0, 1),
            Do::Take,
            Do::Group,
            Do::Told,
            Do::Home(0),
            Do::Point(1),
        ],
        refused: Some((5, Why::NotSynced)),
    },
    Case {
        steps: &[
            Do::Set(0, 0, 1),
            Do::Take,
            Do::Group,
            Do::Told,
            Do::Home(0),
            Do::Sync,
            Do::Point(1),
            Do::Point(0),
        ],
        refused: Some((7, Why::NotSynced)),
    },
    // A failed write back has to be one that a step would make.
    Case {
        steps: &[Do::Set(0, 0, 1), Do::FailHome(0, 1, 8)],
        refused: Some((1, Why::NotDirty)),
    },
    Case {
        steps: &[
            Do::Set(0, 0, 1),
            Do::Take,
            Do::Group,
            Do::Told,
            Do::FailHome(0, 2, 8),
        ],
        refused: Some((4, Why::NotDirty)),
    },
    Case {
        steps: &[
            Do::Set(0, 0, 1),
            Do::Take,
            Do::Group,
            Do::Told,
            Do::FailHome(0, 1, 9),
        ],
        refused: Some((4, Why::NotDirty)),
    },
    Case {
        steps: &[
            Do::Set(0, 0, 1),
            Do::Take,
            Do::Group,
            Do::Told,
            Do::FailHome(0, 1, 8),
            Do::Home(0),
            Do::Set(0, 0, 2),
        ],
        refused: Some((6, Why::Halted)),
    },
];

#[test]
fn names_the_first_condition(rt: HostRuntime) {
    let alloc = rt.alloc();
    for case in &CASES {
        let mut core = CoreState::new(alloc, &zeros(alloc, 2).expect(&rt, "memory")).expect(
            &rt, "memory",
        );
        assert!(rt; case.steps.len() <= 100);
        let refused = run(alloc, &mut core, case.steps).expect(&rt, "memory");
        let wanted = match case.refused {
            Some((at, why)) => Some(StepRefused { at, why }),
            None => None,
        };
        assert_eq!(rt; refused, wanted);
    }
}
