//! The command `run` with one script, and words that leave the grammar. Texts are worked out by hand.

use crate::check::{CLEAN, altered, new_volume};
use crate::faults::faults_of;
use crate::refusals::Change;
use crate::volume::{
    Script, after, after_number, failing_all, fails_at, is_wrong_word, run, sound_disk,
};
use jfs_command::{Ended, Status};
use jfs_disk::{Fail, Kind, MemDisk, Part};
use jfs_io::{MemSink, Sink, SureSink};
use std::alloc::Global;
use std::sync::Wait;
use std::thread::Threads;

pub const WORDS: [&str; 3] = ["run", "I", "S"];

pub const LEAVE: [&str; 4] = ["run", "--leave", "I", "S"];

/// A script, and what is printed.
type Row = (&'static str, &'static str);

/// A directory and a file in it.
const FIRST: Row = (
    "mkdir /a 0755
create /a/f 0644
fill /a/f 0 6 41
read /a/f 0 16
stat /a/f
list /a
",
    "1 1.1 ok +
2 1.2 ok +
3 1.3 ok +
4 1.4 bytes 414141414141 -
5 1.5 stat file 0644 1 0 0 6 5 1000 -
6 1.6 names 1 f -
done 6 entries, 3 durable
",
);

/// Scripts of a new volume.
static ROWS: [Row; 6] = [
    FIRST,
    ("", "done 0 entries, 0 durable\n"),
    ("\n# nothing\r\n  \n", "done 0 entries, 0 durable\n"),
    // what is lazy is not told
    (
        "lazy mkdir /a 0755\nsync",
        "1 1.1 ok -\n2 1.2 ok +\ndone 2 entries, 1 durable\n",
    ),
    (
        "mkdir /a 0755
rename /a /a/b
rename /a /a
create /x 0644
link /x /y
rename /x /y
list /
",
        "1 1.1 ok +
2 1.2 refused 9 IntoItself -
3 1.3 ok -
4 1.4 ok +
5 1.5 ok +
6 1.6 ok -
7 1.7 names 3 a x y -
done 7 entries, 3 durable
",
    ),
    // the numbers of lines count those that are skipped
    (
        "# a file with a hole

create /h 0644
write /h 1000000 41
read /h 999999 2
read /h 0 4
truncate /h 268435457
truncate /h 268435456
fill /h 268435455 2 42
",
        "1 1.3 ok +
2 1.4 ok +
3 1.5 bytes 0041 -
4 1.6 bytes 00000000 -
5 1.7 refused 8 FileTooBig -
6 1.8 ok +
7 1.9 refused 8 FileTooBig -
done 7 entries, 3 durable
",
    ),
];

/// What a run came to.
fn came<R: Threads + Wait + Sync, K: Sink>(
    rt: &R,
    alloc: Global,
    words: &[&str],
    script: Script<'_>,
    disk: Option<MemDisk>,
    out: &mut K,
) -> Option<Ended<MemDisk>> {
    run(rt, alloc, words, script, disk?, out)
}

/// The disk after a run that ended with this status and this text; `None` where it didn't.
pub fn after_run<R: Threads + Wait + Sync>(
    rt: &R,
    alloc: Global,
    words: &[&str],
    script: Script<'_>,
    disk: Option<MemDisk>,
    number: u8,
    text: &str,
) -> Option<MemDisk> {
    let mut out = SureSink::new(alloc);
    let came = came(rt, alloc, words, script, disk, &mut out)?;
    if came.status.number() == number && out.bytes() == text.as_bytes() {
        Some(came.disk)
    } else {
        None
    }
}

#[test]
fn scripts_on_a_new_volume(rt: HostRuntime) {
    let alloc = rt.alloc();
    for (script, text) in ROWS.iter() {
        let disk = new_volume(&rt, alloc);
        let disk = after_run(&rt, alloc, &WORDS, Script::of(script), disk, 0, text);
        assert!(rt; faults_of(&disk) == Some(0), "{text}");
    }
}

/// The entries of a history, and the numbers that were told.
fn counts_of(ended: &Ended<MemDisk>) -> (usize, &[u64]) {
    (ended.history.len(), ended.told.as_slice())
}

#[test]
fn tells_the_history(rt: HostRuntime) {
    let alloc = rt.alloc();
    let mut out = SureSink::new(alloc);
    let disk = new_volume(&rt, alloc);
    let came = came(&rt, alloc, &WORDS, Script::of(FIRST.0), disk, &mut out);
    assert!(rt; came.is_some());
    if let Some(ended) = came {
        assert!(rt; counts_of(&ended) == (6, [1, 2, 3].as_slice()));
    }
}

/// The state of the volume stands there on page 8, and says that it is mounted.
const MOUNTED: (u32, Change) = (8, (40, 4, 1));

/// The superblock of a clean volume that another made: version 1, other flags, and a log of 256 pages.
static OF_ANOTHER: [(u32, Change); 3] = [
    (8, (4, 4, 1)),
    (8, (36, 4, 0x1000_0902)),
    (8, (72, 4, 0x100)),
];

/// A new volume with these changes of its pages, each of one number.
fn changed<R: Threads + Wait + Sync>(
    rt: &R,
    alloc: Global,
    changes: &[(u32, Change)],
) -> Option<MemDisk> {
    let mut disk = new_volume(rt, alloc);
    for (n, changed) in changes {
        disk = altered(disk, *n, *changed);
    }
    disk
}

#[test]
fn a_volume_of_another_maker(rt: HostRuntime) {
    let alloc = rt.alloc();
    let disk = changed(&rt, alloc, &OF_ANOTHER);
    let disk = after_run(&rt, alloc, &WORDS, Script::of(FIRST.0), disk, 0, FIRST.1);
    // Files of a small log are shorter.
    let script = Script::of("truncate /a/f 33554433\ntruncate /a/f 33554432");
    let text = "1 1.1 refused 8 FileTooBig -\n2 1.2 ok +\ndone 2 entries, 1 durable\n";
    let disk = after_run(&rt, alloc, &WORDS, script, disk, 0, text);
    assert!(rt; disk.is_some());
}

#[test]
fn freed_blocks_come_back(rt: HostRuntime) {
    let alloc = rt.alloc();
    let nine =
        "create /f1 0644\ncreate /f2 0644\ncreate /f3 0644\ncreate /f4 0644\ncreate /f5 0644\n\
create /f6 0644\ncreate /f7 0644\ncreate /f8 0644\ncreate /f9 0644\n";
    let text =
        "1 1.1 ok +\n2 1.2 ok +\n3 1.3 ok +\n4 1.4 ok +\n5 1.5 ok +\n6 1.6 ok +\n7 1.7 ok +\n8 1.8 ok +\n9 1.9 ok +\n\
done 9 entries, 9 durable\n";
    let disk = new_volume(&rt, alloc);
    let disk = after_run(&rt, alloc, &WORDS, Script::of(nine), disk, 0, text);
    let clean = "clean, 2974 free blocks, 13 inodes\n";
    let disk = after(&rt, alloc, &["check", "I"], disk, Status::Done, clean);
    let none = "unlink /f1\nunlink /f2\nunlink /f3\nunlink /f4\nunlink /f5\n\
unlink /f6\nunlink /f7\nunlink /f8\nunlink /f9\nlist /\n";
    let text =
        "1 1.1 ok +\n2 1.2 ok +\n3 1.3 ok +\n4 1.4 ok +\n5 1.5 ok +\n6 1.6 ok +\n7 1.7 ok +\n8 1.8 ok +\n9 1.9 ok +\n\
10 1.10 names 0 -\ndone 10 entries, 9 durable\n";
    let disk = after_run(&rt, alloc, &WORDS, Script::of(none), disk, 0, text);
    let disk = after(&rt, alloc, &["check", "I"], disk, Status::Done, CLEAN);
    assert!(rt; disk.is_some());
}

// ---- a volume that is left

/// Three calls, and what is printed.
const THREE: Row = (
    "mkdir /a 0755\ncreate /a/f 0644\nfill /a/f 0 65536 41\n",
    "1 1.1 ok +\n2 1.2 ok +\n3 1.3 ok +\ndone 3 entries, 3 durable\n",
);

/// All writes fail from this one on.
fn failing_from(alloc: Global, disk: Option<MemDisk>, first: u64) -> Option<MemDisk> {
    failing_all(alloc, disk, &[fails_at(Kind::Write, first, u64::MAX)])
}

#[test]
fn a_volume_that_is_left_is_redone(rt: HostRuntime) {
    let alloc = rt.alloc();
    let redo = ["redo", "I"];
    let disk = new_volume(&rt, alloc);
    let disk = after_run(&rt, alloc, &LEAVE, Script::of(THREE.0), disk, 0, THREE.1);
    let disk = failing_from(alloc, disk, 4);
    let disk = after_number(&rt, alloc, &redo, disk, 7, "jfsd: disk fault\n");
    let disk = failing_all(alloc, disk, &[]);
    let disk = after_number(&rt, alloc, &redo, disk, 0, "redo 3 transactions\n");
    let disk = after_number(&rt, alloc, &redo, disk, 0, "redo clean\n");
    let clean = "clean, 2959 free blocks, 6 inodes\n";
    let disk = after(&rt, alloc, &["check", "I"], disk, Status::Done, clean);
    assert!(rt; disk.is_some());
}

/// A volume that three calls were made on, and that was left.
fn left_volume<R: Threads + Wait + Sync>(rt: &R, alloc: Global) -> Option<MemDisk> {
    let disk = new_volume(rt, alloc);
    after_run(rt, alloc, &LEAVE, Script::of(THREE.0), disk, 0, THREE.1)
}

#[test]
fn a_run_redoes_a_volume_that_is_left(rt: HostRuntime) {
    let alloc = rt.alloc();
    let text = "redo 3 transactions\n1 1.1 names 1 f -\n2 1.2 ok +\ndone 2 entries, 1 durable\n";
    let script = Script::of("list /a\nunlink /a/f");
    let disk = after_run(&rt, alloc, &WORDS, script, left_volume(&rt, alloc), 0, text);
    let clean = "clean, 2975 free blocks, 5 inodes\n";
    let disk = after(&rt, alloc, &["check", "I"], disk, Status::Done, clean);
    assert!(rt; disk.is_some());
}

#[test]
fn a_run_that_redid_may_be_refused(rt: HostRuntime) {
    let alloc = rt.alloc();
    let disk = changed(&rt, alloc, &[MOUNTED, (29, (1076, 4, 0x81a4))]);
    let text = "redo 0 transactions\njfsd: bad image: page 29 rule root value 33188\n";
    let disk = after_run(&rt, alloc, &WORDS, Script::of("sync"), disk, 3, text);
    assert!(rt; faults_of(&disk) == Some(0));
}

#[test]
fn a_fault_behind_a_redo(rt: HostRuntime) {
    let alloc = rt.alloc();
    // The redo's own first write fails; then the first one of the mount behind it.
    let text = "jfsd: disk fault\n";
    let disk = failing_from(alloc, left_volume(&rt, alloc), 1);
    let disk = after_run(&rt, alloc, &WORDS, Script::of("sync"), disk, 7, text);
    assert!(rt; faults_of(&disk) == Some(1));
    let fail = Fail {
        part: Part::High,
        kind: Kind::Write,
        first: 1,
        last: 1,
    };
    let text = "redo 0 transactions\njfsd: disk fault\n";
    let disk = failing_all(alloc, changed(&rt, alloc, &[MOUNTED]), &[fail]);
    let disk = after_run(&rt, alloc, &WORDS, Script::of("sync"), disk, 7, text);
    assert!(rt; faults_of(&disk) == Some(1));
}

#[test]
fn the_log_of_a_volume_that_is_left(rt: HostRuntime) {
    let alloc = rt.alloc();
    let text = "1 1.1 ok +\ndone 1 entries, 1 durable\n";
    let disk = new_volume(&rt, alloc);
    let disk = after_run(
        &rt,
        alloc,
        &LEAVE,
        Script::of("chmod / 0700"),
        disk,
        0,
        text,
    );
    let text =
        "4190252 0 SYNCPT 0\n4190420 1 REDOPAGE 16 0 INODE 29 1 8+1\n4190456 1 COMMIT\nlog 3 records, end 4190456\n";
    let disk = after(&rt, alloc, &["log", "I"], disk, Status::Done, text);
    assert!(rt; disk.is_some());
}

// ---- what is refused

/// Words, and the place of the first that leaves the grammar.
static WRONG_WORDS: [(&[&str], u32); 11] = [
    (&["run"], 2),
    (&["run", "I"], 3),
    (&["run", "I", "S", "-T"], 4),
    (&["run", "-I", "S"], 2),
    (&["run", "I", "-S"], 3),
    (&["run", "--leave"], 3),
    (&["run", "--leave", "I"], 4),
    (&["run", "--leave", "I", "S", "-T", "U"], 5),
    (&["run", "I", "--leave"], 3),
    (&["run", "--leave", "--leave", "I"], 3),
    (&["--leave", "run", "I", "S"], 1),
];

#[test]
fn names_the_wrong_word(rt: HostRuntime) {
    let alloc = rt.alloc();
    for (words, place) in WRONG_WORDS.iter() {
        let is_so = is_wrong_word(&rt, alloc, words, *place, sound_disk(alloc));
        assert!(rt; is_so == Some(true), "{words:?}");
    }
}

/// Changes of a new volume, a script, the status's number, and the text. Nothing is written. The block map tells its volume's size on page 16, and page 29 has the root's mode at byte 1076.
static REFUSED: [(&[(u32, Change)], &str, u8, &str); 10] = [
    (
        &[],
        "mkdir /a 0999",
        4,
        "jfsd: bad script: client 1 line 1 rule mode\n",
    ),
    (
        &[],
        "\nsync\nlazy stat /\nhalt\n",
        4,
        "jfsd: bad script: client 1 line 3 rule lazy\n",
    ),
    // Scripts come before the superblock, and that before the maps.
    (
        &[(8, (0, 4, 0))],
        "halt",
        4,
        "jfsd: bad script: client 1 line 1 rule word\n",
    ),
    (
        &[(8, (0, 4, 0)), (16, (0, 8, 3007))],
        "",
        3,
        "jfsd: bad image: page 8 rule magic value 0\n",
    ),
    (
        &[(16, (0, 8, 3007))],
        "",
        3,
        "jfsd: bad image: page 16 rule mapsize value 3007\n",
    ),
    (
        &[(29, (1076, 4, 0x81a4))],
        "",
        3,
        "jfsd: bad image: page 29 rule root value 33188\n",
    ),
    (
        &[MOUNTED, (3073, (52, 8, 0x72_6568_746f)), (3073, (60, 8, 0))],
        "",
        9,
        "jfsd: foreign log: other\n",
    ),
    (
        &[MOUNTED, (16, (0, 8, 3007))],
        "",
        3,
        "jfsd: bad image: page 16 rule mapsize value 3007\n",
    ),
    (
        &[(8, (40, 4, 2))],
        "",
        3,
        "jfsd: bad image: page 8 rule state value 2\n",
    ),
    (
        &[(8, (40, 4, 8))],
        "",
        3,
        "jfsd: bad image: page 8 rule state value 8\n",
    ),
];

#[test]
fn what_is_refused_is_left_alone(rt: HostRuntime) {
    let alloc = rt.alloc();
    for (changes, script, number, text) in REFUSED.iter() {
        let disk = failing_from(alloc, changed(&rt, alloc, changes), 1);
        let disk = after_run(&rt, alloc, &WORDS, Script::of(script), disk, *number, text);
        assert!(rt; faults_of(&disk) == Some(0), "{text}");
    }
}

// ---- faults

#[test]
fn a_script_that_fails(rt: HostRuntime) {
    let alloc = rt.alloc();
    let script = Script {
        text: "sync",
        fails: Some((2, 2)),
    };
    let disk = failing_from(alloc, new_volume(&rt, alloc), 1);
    let text = "jfsd: script fault\n";
    let disk = after_run(&rt, alloc, &WORDS, script, disk, 5, text);
    assert!(rt; faults_of(&disk) == Some(0));
}

/// The log's part fails at its 1,024th write: a mount writes 1,022 pages of the ring and the log's superblock.
const AT_THE_FIRST_GROUP: Fail = Fail {
    part: Part::High,
    kind: Kind::Write,
    first: 1024,
    last: 1024,
};

#[test]
fn a_log_that_fails(rt: HostRuntime) {
    let alloc = rt.alloc();
    let script = Script::of("mkdir /a 0755\nmkdir /b 0755\nlist /");
    let text =
        "1 1.1 ok -\n2 1.2 refused 12 ReadOnly log 1 -\n3 1.3 names 1 a -\njfsd: disk fault\n";
    let disk = failing_all(alloc, new_volume(&rt, alloc), &[AT_THE_FIRST_GROUP]);
    let disk = after_run(&rt, alloc, &WORDS, script, disk, 7, text);
    assert!(rt; faults_of(&disk) == Some(1));
    let disk = failing_all(alloc, disk, &[]);
    let disk = after_number(&rt, alloc, &["redo", "I"], disk, 0, "redo 0 transactions\n");
    let disk = after(&rt, alloc, &["check", "I"], disk, Status::Done, CLEAN);
    assert!(rt; disk.is_some());
}

/// Whether a sink that takes nothing gives its status, and the run was done all the same.
fn is_sink_fault<R: Threads + Wait + Sync>(rt: &R, alloc: Global) -> Option<bool> {
    let mut out = MemSink::new(alloc).with_fails(1, 1, true);
    let disk = new_volume(rt, alloc);
    let came = came(
        rt,
        alloc,
        &WORDS,
        Script::of("mkdir /a 0755"),
        disk,
        &mut out,
    )?;
    if came.status != Status::SinkFault || !out.bytes().is_empty() {
        return Some(false);
    }
    let clean = "clean, 2975 free blocks, 5 inodes\n";
    let disk = after(
        rt,
        alloc,
        &["check", "I"],
        Some(came.disk),
        Status::Done,
        clean,
    );
    Some(disk.is_some())
}

#[test]
fn a_sink_that_fails_stops_no_call(rt: HostRuntime) {
    let alloc = rt.alloc();
    assert!(rt; is_sink_fault(&rt, alloc) == Some(true));
}
