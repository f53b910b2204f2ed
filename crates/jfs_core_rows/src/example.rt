//! One page that is written back twice between two syncs of the low part, and the sync points that are refused meanwhile.

use crate::runs::{Do, run, zeros};
use jfs_core::{CoreState, StepRefused, Why};
use jfs_disk::Choice;
use std::alloc::{AllocError, Global};
use std::test::*;

/// The first bytes of sectors 0 and 1 of page 0, after a crash by a choice and redo of the entries up to `n`.
fn redone(
    alloc: Global,
    core: &CoreState,
    choice: Choice,
    n: u64,
) -> Result<Option<(u8, u8)>, AllocError> {
    match core.crash(alloc, &[choice], n)? {
        Some(image) => Ok(image.get(0).map(|page| (page.0[0], page.0[512]))),
        None => Ok(None),
    }
}

/// Whether redo gives these bytes, whatever the crash leaves of `contents` contents of the page.
fn all_redone(
    alloc: Global,
    core: &CoreState,
    contents: u32,
    n: u64,
    wanted: (u8, u8),
) -> Result<bool, AllocError> {
    for top in 0..contents {
        for base in 0..top + 1 {
            for sectors in 0..9 {
                let choice = Choice {
                    page: 0,
                    base,
                    top,
                    sectors,
                };
                if redone(alloc, core, choice, n)? != Some(wanted) {
                    return Ok(false);
                }
            }
        }
    }
    Ok(true)
}

/// Steps, the one that is refused, and what redo then gives, whatever a crash leaves.
struct Stage {
    steps: &'static [Do],
    refused: Option<StepRefused>,
    contents: u32,
    n: u64,
    wanted: (u8, u8),
}

const NOT_SYNCED: Option<StepRefused> = Some(StepRefused {
    at: 0,
    why: Why::NotSynced,
});

// One page of zeros, and the stages one after another.
const STAGES: [Stage; 9] = [
    // Entry 1 sets sector 0's first line, is acknowledged, and goes home. The disk holds the zeros, stable, and the page after
    // entry 1, pending: entry 1 is unsynced.
    Stage {
        steps: &[Do::Set(0, 0, 1), Do::Take, Do::Group, Do::Told, Do::Home(0)],
        refused: None,
        contents: 2,
        n: 1,
        wanted: (1, 0),
    },
    // Entry 2 sets sector 1's first line, and the page goes home once more, with no sync between. The contents are the zeros,
    // the page after entry 1 and the page after entry 2; entries 1 to 2 are unsynced. The page isn't dirty any more.
    // Whatever a crash leaves, each cell has its value after entry 0, 1 or 2: sector 0 of the newest write over the zeros has
    // entry 1 and not entry 2, for one. Redo of entries 1 and 2 gives both lines.
    Stage {
        steps: &[
            Do::Set(0, 32, 2),
            Do::Take,
            Do::Group,
            Do::Told,
            Do::Home(0),
        ],
        refused: None,
        contents: 3,
        n: 2,
        wanted: (1, 2),
    },
    // No sync count may pass entry 1: the zeros may be all that a crash leaves, and a log that begins after entry 1 couldn't
    // bring its line back. That the page isn't dirty, and that its first write back had entry 1 alone, is not enough.
    // A refused step changes nothing: redo still begins at entry 1.
    Stage {
        steps: &[Do::Point(1)],
        refused: NOT_SYNCED,
        contents: 3,
        n: 2,
        wanted: (1, 2),
    },
    Stage {
        steps: &[Do::Point(2)],
        refused: NOT_SYNCED,
        contents: 3,
        n: 2,
        wanted: (1, 2),
    },
    // After a sync the page after entry 2 is the only content, and the count may pass both entries. A group makes it stable.
    Stage {
        steps: &[Do::Sync, Do::Point(2), Do::Take, Do::Group],
        refused: None,
        contents: 1,
        n: 2,
        wanted: (1, 2),
    },
    // Entry 3 sets sector 0's line anew and goes home. The log now holds entry 3 alone, and that is enough: sector 1's line is
    // in each content that a crash may leave.
    Stage {
        steps: &[Do::Set(0, 0, 3), Do::Take, Do::Group, Do::Told, Do::Home(0)],
        refused: None,
        contents: 2,
        n: 3,
        wanted: (3, 2),
    },
    // Count 3 is refused until the next sync, count 1 would fall, and count 2 stays allowed: what is unsynced begins past it.
    Stage {
        steps: &[Do::Point(3)],
        refused: NOT_SYNCED,
        contents: 2,
        n: 3,
        wanted: (3, 2),
    },
    Stage {
        steps: &[Do::Point(1)],
        refused: NOT_SYNCED,
        contents: 2,
        n: 3,
        wanted: (3, 2),
    },
    Stage {
        steps: &[Do::Point(2)],
        refused: None,
        contents: 2,
        n: 3,
        wanted: (3, 2),
    },
];

#[test]
fn a_page_written_back_twice(rt: HostRuntime) {
    let alloc = rt.alloc();
    let mut core = CoreState::new(alloc, &zeros(alloc, 1).expect(&rt, "memory")).expect(
        &rt, "memory",
    );
    for stage in &STAGES {
        assert!(rt; stage.steps.len() <= 100);
        assert_eq!(rt;
            run(alloc, &mut core, stage.steps).expect(&rt, "memory"),
            stage.refused
        );
        assert!(rt;
            all_redone(alloc, &core, stage.contents, stage.n, stage.wanted).expect(&rt, "memory")
        );
    }
}
