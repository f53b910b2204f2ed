//! The commands with many clients: `run` with many scripts, and `gen`.

use crate::check::new_volume;
use crate::volume::{is_wrong_word, run_all, sound_disk};
use jfs_bits::Moment;
use jfs_command::{Ended, Status};
use jfs_disk::MemDisk;
use jfs_io::SureSink;
use jfs_plain::{Call, Entry, PlainTree, Reply};
use std::alloc::Global;
use std::sync::Wait;
use std::thread::Threads;

/// Sixteen scripts, and one more.
const MANY: [&str; 19] = [
    "run", "I", "A", "B", "C", "D", "E", "F", "G", "H", "J", "K", "L", "M", "N", "O", "P", "Q", "R",
];

/// Words, scripts, the status's number, and the text. One client at most has calls, so that their order is known.
static ROWS: [(&[&str], &[&str], u8, &str); 8] = [
    (
        &["run", "I", "S", "T"],
        &["", "mkdir /b 0755\nlist /\n"],
        0,
        "1 2.1 ok +\n2 2.2 names 1 b -\ndone 2 entries, 1 durable\n",
    ),
    (
        &["run", "I", "S", "T", "U"],
        &["", "", ""],
        0,
        "done 0 entries, 0 durable\n",
    ),
    // the first script that is wrong is told
    (
        &["run", "I", "S", "T"],
        &["sync", "sync\nmkdir /a 0999"],
        4,
        "jfsd: bad script: client 2 line 2 rule mode\n",
    ),
    (
        &["run", "I", "S", "T"],
        &["halt", "mkdir /a 0999"],
        4,
        "jfsd: bad script: client 1 line 1 rule word\n",
    ),
    // their number comes before any of them
    (&MANY, &["halt"], 11, "jfsd: too much: 17\n"),
    (
        &["gen", "I", "1", "0", "1"],
        &[],
        0,
        "gen 2 entries, 0 refused, 0 files, 0 bytes\n",
    ),
    (
        &["gen", "I", "18446744073709551615", "0", "16"],
        &[],
        0,
        "gen 32 entries, 0 refused, 0 files, 0 bytes\n",
    ),
    // mkdir /g1, truncate f8, stat f13, fill f14, truncate f3, fill f15, fill f5, stat f0, fill f12, unlink f2, truncate f10, truncate f10, unlink f2, sync
    (
        &["gen", "I", "7", "12", "1"],
        &[],
        0,
        "gen 14 entries, 12 refused, 0 files, 0 bytes\n",
    ),
];

#[test]
fn scripts_of_clients(rt: HostRuntime) {
    let alloc = rt.alloc();
    for (words, scripts, number, text) in ROWS.iter() {
        let mut out = SureSink::new(alloc);
        let disk = new_volume(&rt, alloc).expect(&rt, "memory");
        let ended = run_all(&rt, alloc, words, scripts, disk, &mut out).expect(&rt, "memory");
        assert!(rt; ended.status.number() == *number, "{words:?}");
        assert!(rt; out.bytes() == text.as_bytes(), "{words:?}");
    }
}

/// Words of `gen`, and the place of the first that leaves the grammar.
static WRONG_WORDS: [(&[&str], u32); 12] = [
    (&["gen"], 2),
    (&["gen", "-I", "1", "1", "1"], 2),
    (&["gen", "I"], 3),
    (&["gen", "I", "01", "1", "1"], 3),
    (&["gen", "I", "18446744073709551616", "1", "1"], 3),
    (&["gen", "I", "1"], 4),
    (&["gen", "I", "1", "4095", "1"], 4),
    (&["gen", "I", "1", "+1", "1"], 4),
    (&["gen", "I", "1", "1"], 5),
    (&["gen", "I", "1", "1", "0"], 5),
    (&["gen", "I", "1", "1", "17"], 5),
    (&["gen", "I", "1", "1", "1", "1"], 6),
];

#[test]
fn names_the_wrong_word(rt: HostRuntime) {
    let alloc = rt.alloc();
    for (words, place) in WRONG_WORDS.iter() {
        let is_so = is_wrong_word(&rt, alloc, words, *place, sound_disk(alloc));
        assert!(rt; is_so == Some(true), "{words:?}");
    }
}

// ---- many clients on one tree

/// Scripts whose clients rename each other's directories.
static TOGETHER: [&str; 4] = [
    "mkdir /a 0755\ncreate /a/f 0644\nrename /b/f /a/g\nrename /a /c\nlist /\n",
    "mkdir /b 0755\ncreate /b/f 0644\nrename /a/f /b/g\nrename /c /b/a\nlist /b\n",
    "mkdir /c 0755\nlazy create /c/f 0644\nlink /b/f /c/h\nrmdir /a\nsync\n",
    "rename /a /d\nrename /b /e\nunlink /c/f\nlist /\nsync\n",
];

/// How many lines each of these has.
const LINES: u32 = 5;

/// The moment of all runs.
const NOW: Moment = Moment { sec: 1000, nano: 0 };

/// A call on a plain file tree. A new object gets the lowest number that is free, as on a volume.
fn step(tree: &mut PlainTree, call: &Call) -> Option<Reply> {
    for fresh in 4..1000 {
        if tree.is_free(fresh) {
            return Some(tree.step(call, fresh, NOW));
        }
    }
    None
}

/// Whether a plain file tree gives the replies of a history, one after the other; `None` where there is no memory.
fn is_legal(alloc: Global, history: &[Entry]) -> Option<bool> {
    let mut tree = PlainTree::new(alloc, 268_435_456, NOW).ok()?;
    for entry in history {
        let wanted = step(&mut tree, &entry.call)?;
        let found = &entry.reply;
        let wanted = format!(in alloc; "{wanted:?}").ok()?;
        let found = format!(in alloc; "{found:?}").ok()?;
        if wanted.as_str() != found.as_str() {
            return Some(false);
        }
    }
    Some(true)
}

/// Whether a client's entries are its so many lines, from the first to the last of them.
fn has_lines(history: &[Entry], client: u32, lines: u32) -> Option<bool> {
    let mut next: u32 = 1;
    for entry in history {
        if entry.client == client {
            if entry.line != next {
                return Some(false);
            }
            next = next.checked_add(1)?;
        }
    }
    Some(next.checked_sub(1)? == lines)
}

#[test]
fn clients_on_one_tree(rt: HostRuntime) {
    let alloc = rt.alloc();
    let words = ["run", "I", "S", "T", "U", "V"];
    let mut out = SureSink::new(alloc);
    let disk = new_volume(&rt, alloc).expect(&rt, "memory");
    let ended = run_all(&rt, alloc, &words, &TOGETHER, disk, &mut out).expect(&rt, "memory");
    assert!(rt; ended.status == Status::Done);
    let history = ended.history.as_slice();
    assert!(rt; history.len() == 20);
    for client in 1..5 {
        assert!(rt; has_lines(history, client, LINES) == Some(true), "{client}");
    }
    assert!(rt; is_legal(alloc, history) == Some(true));
}

// ---- sixteen clients

/// How many lines each of their scripts has.
const MANY_LINES: u32 = 8;

/// The script of a client, which takes files out of the next one's directory and moves its own into the one before.
fn crossing(alloc: Global, client: u32) -> Option<String> {
    let next = client % 16 + 1;
    let before = if client > 1 { client - 1 } else { 16 };
    format!(in alloc;
        "mkdir /d{client} 0755\ncreate /d{client}/f 0644\nrename /d{next}/f /d{client}/g\nrename /d{client} /d{before}/e\n\
lazy create /d{client}/h 0644\nrename /d{before}/e/g /d{next}/x\nlist /\nsync\n"
    )
    .ok()
}

/// The words and the scripts of sixteen clients whose renames cross each other's directories, and whether the history is a legal one that has all of their lines.
fn is_legal_crowd<R: Threads + Wait + Sync>(rt: &R, alloc: Global) -> Option<bool> {
    let mut texts = Vec::new(alloc);
    for client in 1..17 {
        texts.push(crossing(alloc, client)?).ok()?;
    }
    let mut scripts = Vec::new(alloc);
    for text in &texts {
        scripts.push(text.as_str()).ok()?;
    }
    let mut out = SureSink::new(alloc);
    let disk = new_volume(rt, alloc)?;
    let ended = run_all(rt, alloc, &MANY[..18], scripts.as_slice(), disk, &mut out)?;
    if ended.status != Status::Done {
        return Some(false);
    }
    for client in 1..17 {
        if !has_lines(ended.history.as_slice(), client, MANY_LINES)? {
            return Some(false);
        }
    }
    is_legal(alloc, ended.history.as_slice())
}

#[test]
fn sixteen_clients_on_one_tree(rt: HostRuntime) {
    let alloc = rt.alloc();
    assert!(rt; is_legal_crowd(&rt, alloc) == Some(true));
}

// ---- generated scripts

/// What `gen` prints on a new volume, and the disk; `None` where it isn't done.
fn generated<R: Threads + Wait + Sync>(
    rt: &R,
    alloc: Global,
    out: &mut SureSink,
) -> Option<Ended<MemDisk>> {
    let words = ["gen", "I", "7", "40", "3"];
    let ended = run_all(rt, alloc, &words, &[], new_volume(rt, alloc)?, out)?;
    (ended.status == Status::Done).then_some(ended)
}

#[test]
fn the_same_number_gives_the_same_summary(rt: HostRuntime) {
    let alloc = rt.alloc();
    let mut first = SureSink::new(alloc);
    let mut second = SureSink::new(alloc);
    let one = generated(&rt, alloc, &mut first).expect(&rt, "done");
    let other = generated(&rt, alloc, &mut second).expect(&rt, "done");
    assert!(rt; first.bytes() == second.bytes());
    assert!(rt; one.history.len() == 126 && other.history.len() == 126);
    assert!(rt; is_legal(alloc, one.history.as_slice()) == Some(true));
}
