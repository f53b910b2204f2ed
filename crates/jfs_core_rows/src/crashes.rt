ghost use Rattle.std.specs.Prelude.{◌≤◌, ◌^◌, length};

use crate::runs::{Do, run, zeros};
use jfs_core::CoreState;
use jfs_disk::{Choice, Page, PageList};
use std::alloc::{AllocError, Global};
use std::test::*;

/// A page by the first byte of each of its sectors: an entry sets the 16 bytes of a sector's first line.
#[derive(Clone, Copy)]
struct Sectors {
    bytes: [u8; 8],
}

// Entries 1 and 2 go home, then entry 3; entry 4 is taken by a group that is still open.
const STEPS: [Do; 16] = [
    Do::Set(0, 0, 1),
    Do::Set(1, 96, 2),
    Do::Take,
    Do::Group,
    Do::Told,
    Do::Home(0),
    Do::Home(1),
    Do::Set(0, 224, 3),
    Do::Take,
    Do::Group,
    Do::Told,
    Do::Home(0),
    Do::SetBoth(0, 0, 1, 0, 4),
    Do::Take,
    Do::FailRead,
    Do::Told,
];

/// Content `k` of a page, by the entries that went home.
fn content(page: u32, k: u32) -> Sectors {
    let bytes = match (page, k) {
        (0, 1) => [1, 0, 0, 0, 0, 0, 0, 0],
        (0, 2) => [1, 0, 0, 0, 0, 0, 0, 3],
        (1, 1) => [0, 0, 0, 2, 0, 0, 0, 0],
        _ => [0; 8],
    };
    Sectors { bytes }
}

/// The page after the entries up to `n`.
fn after(page: u32, n: u64, old: Sectors) -> Sectors {
    let mut bytes = old.bytes;
    if page == 0 && n >= 1 {
        bytes[0] = 1;
    }
    if page == 1 && n >= 2 {
        bytes[3] = 2;
    }
    if page == 0 && n >= 3 {
        bytes[7] = 3;
    }
    if n >= 4 {
        bytes[0] = 4;
    }
    Sectors { bytes }
}

fn torn(choice: &Choice) -> Sectors {
    let front = content(choice.page, choice.top);
    let mut bytes = content(choice.page, choice.base).bytes;
    for i in 0..8 {
        if (i as u32) < choice.sectors {
            bytes[i] = front.bytes[i];
        }
    }
    Sectors { bytes }
}

/// Whether a page has these bytes, and zeros elsewhere.
fn is_page(page: Option<&Page>, sectors: Sectors) -> bool {
    match page {
        Some(page) => has_bytes(page, sectors),
        None => false,
    }
}

fn has_bytes(page: &Page, sectors: Sectors) -> bool {
    for i in 0..4096usize {
        let wanted = if i % 512 < 16 {
            sectors.bytes[i / 512]
        } else {
            0
        };
        if page.0[i] != wanted {
            return false;
        }
    }
    true
}

/// Whether redo of these pages by `n` entries is what the model has, and the same as those entries alone.
fn is_redone(image: &PageList, n: u64, choices: &[Choice; 2]) -> bool {
    let zeros = content(2, 0);
    is_page(image.get(0), after(0, n, torn(&choices[0])))
        && is_page(image.get(1), after(1, n, torn(&choices[1])))
        && is_page(image.get(0), after(0, n, zeros))
        && is_page(image.get(1), after(1, n, zeros))
}

/// Whether a crash by these choices is redone, where three entries are durable and four are taken.
fn agrees(alloc: Global, core: &CoreState, choices: &[Choice; 2]) -> Result<bool, AllocError> {
    for n in 0..6 {
        let right = match core.crash(alloc, choices, n)? {
            Some(image) => (n == 3 || n == 4) && is_redone(&image, n, choices),
            None => n != 3 && n != 4,
        };
        if !right {
            return Ok(false);
        }
    }
    Ok(true)
}

/// Each choice of a page, by number: its contents and 0, 1, 4, 7 or 8 sectors.
fn choice_of(page: u32, number: u32) -> Choice {
    let (base, top) = match number / 5 {
        0 => (0, 0),
        1 => (0, 1),
        2 => (1, 1),
        3 => (0, 2),
        4 => (1, 2),
        _ => (2, 2),
    };
    let sectors = match number % 5 {
        0 => 0,
        1 => 1,
        2 => 4,
        3 => 7,
        _ => 8,
    };
    Choice {
        page,
        base,
        top,
        sectors,
    }
}

fn all_agree(alloc: Global, core: &CoreState) -> Result<bool, AllocError> {
    for first in 0..30 {
        for second in 0..15 {
            let choices = [choice_of(0, first), choice_of(1, second)];
            if !agrees(alloc, core, &choices)? {
                return Ok(false);
            }
        }
    }
    Ok(true)
}

#[test]
fn redoes_every_crash(rt: HostRuntime) {
    let alloc = rt.alloc();
    let mut core = CoreState::new(alloc, &zeros(alloc, 2).expect(&rt, "memory")).expect(
        &rt, "memory",
    );
    let refused = run(alloc, &mut core, &STEPS).expect(&rt, "memory");
    assert_eq!(rt; refused, None);
    assert!(rt; all_agree(alloc, &core).expect(&rt, "memory"));
}

// Entries 1 and 2 are stable at home, and the sync count 2 is stable in the log; entry 3 is durable.
const SYNCED: [Do; 13] = [
    Do::Set(0, 0, 1),
    Do::Set(1, 96, 2),
    Do::Take,
    Do::Group,
    Do::Told,
    Do::Home(0),
    Do::Home(1),
    Do::Sync,
    Do::Point(2),
    Do::Set(0, 224, 3),
    Do::Take,
    Do::Group,
    Do::Told,
];

// The page failed to go home after its first sector: what a read gives is pending, and the page's bytes.
const FAILED: [Do; 5] = [
    Do::Set(0, 0, 1),
    Do::Take,
    Do::Group,
    Do::Told,
    Do::FailHome(0, 1, 1),
];

// One line is set twice, and the page is written back.
const TWICE: [Do; 6] = [
    Do::Set(0, 0, 1),
    Do::Set(0, 0, 2),
    Do::Take,
    Do::Group,
    Do::Told,
    Do::Home(0),
];

/// What redo by `n` entries gives after these steps from pages of zeros, where no step is refused.
fn redone(
    alloc: Global,
    count: u32,
    steps: &[Do],
    choices: &[Choice],
    n: u64,
) -> Result<Option<PageList>, AllocError>
    requires { length steps.now ≤ 2 ^ 32 }
{
    let mut core = CoreState::new(alloc, &zeros(alloc, count)?)?;
    match run(alloc, &mut core, steps)? {
        Some(_) => Ok(None),
        None => core.crash(alloc, choices, n),
    }
}

fn first_of(image: Option<PageList>, sectors: Sectors) -> bool {
    match image {
        Some(image) => is_page(image.get(0), sectors),
        None => false,
    }
}

#[test]
fn redoes_from_the_sync_count(rt: HostRuntime) {
    let alloc = rt.alloc();
    assert!(rt;
        first_of(
            redone(alloc, 2, &SYNCED, &[], 3).expect(&rt, "memory"),
            content(0, 2)
        )
    );
    assert!(rt;
        redone(alloc, 2, &SYNCED, &[], 2)
            .expect(&rt, "memory")
            .is_none()
    );
}

#[test]
fn redoes_a_failed_write(rt: HostRuntime) {
    let alloc = rt.alloc();
    for top in 0..3 {
        let choice = Choice {
            page: 0,
            base: 0,
            top,
            sectors: 8,
        };
        assert!(rt;
            first_of(
                redone(alloc, 1, &FAILED, &[choice], 1).expect(&rt, "memory"),
                content(0, 1)
            )
        );
    }
}

#[test]
fn redoes_one_page(rt: HostRuntime) {
    let alloc = rt.alloc();
    let choices = [Choice {
        page: 0,
        base: 0,
        top: 1,
        sectors: 1,
    }];
    let twos = Sectors {
        bytes: [2, 0, 0, 0, 0, 0, 0, 0],
    };
    assert!(rt;
        first_of(
            redone(alloc, 1, &TWICE, &choices, 2).expect(&rt, "memory"),
            twos
        )
    );
    assert!(rt;
        redone(alloc, 1, &TWICE, &choices, 1)
            .expect(&rt, "memory")
            .is_none()
    );
}
