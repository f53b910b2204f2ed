//! A volume that is left and redone beside the same one unmounted, and one whose free blocks wait for the log.

use crate::check::new_volume;
use crate::run::{LEAVE, WORDS, after_run};
use crate::volume::{Script, after, after_number, failing, run};
use jfs_command::Status;
use jfs_disk::{Disk, Fail, Kind, MemDisk, Page, Part};
use jfs_io::SureSink;
use std::alloc::{AllocError, Global};
use std::sync::Wait;
use std::thread::Threads;

/// Calls that change the tree, none of them lazy: a directory gets a page and loses it, files have holes and shrink, names go and come in place of others.
const MANY: &'static str = "mkdir /d 0755
create /d/a 0644
create /d/b 0644
create /d/c 0644
create /d/d 0644
create /d/e 0644
create /d/f 0644
create /d/g 0644
create /d/h 0644
create /d/i 0644
fill /d/a 0 9000 41
fill /d/b 100000 65536 42
write /d/b 4090 0102030405060708090a0b0c
truncate /d/b 120000
symlink /l d/a
link /d/a /m
rename /d/b /d/c
unlink /d/a
mkdir /e 0700
rename /d/d /e/dd
rename /e /d/e2
chmod /d/e2 0711
unlink /d/e
unlink /d/f
unlink /d/g
rename /d/e2 /e3
unlink /d/h
unlink /d/i
unlink /d/c
rmdir /d
fill /m 4000 5000 43
truncate /m 20000
";

/// All of them are done.
const END: &'static [u8] = b"done 32 entries, 32 durable\n";

/// The disk of a new volume after these calls, where each is done.
fn ran<R: Threads + Wait + Sync>(rt: &R, alloc: Global, words: &[&str]) -> Option<MemDisk> {
    let mut out = SureSink::new(alloc);
    let disk = new_volume(rt, alloc)?;
    let ended = run(rt, alloc, words, Script::of(MANY), disk, &mut out)?;
    if ended.status == Status::Done && out.bytes().ends_with(END) {
        Some(ended.disk)
    } else {
        None
    }
}

/// The first page of the file system part at which two disks differ.
fn first_difference(a: &mut MemDisk, b: &mut MemDisk) -> Option<u32> {
    let mut page = Page::zeros();
    let mut other = Page::zeros();
    for n in 0..3008 {
        if n >= a.pages() || n >= b.pages() {
            return Some(n);
        }
        if a.read(n, &mut page).is_err() || b.read(n, &mut other).is_err() || page.0 != other.0 {
            return Some(n);
        }
    }
    None
}

// Page by page, also those of blocks that are free again. Before that page 8 says that the volume is mounted.
#[test]
fn a_volume_that_is_redone_is_the_one_that_was_unmounted(rt: HostRuntime) {
    let alloc = rt.alloc();
    let mut unmounted = ran(&rt, alloc, &WORDS).expect(&rt, "a run");
    let mut left = ran(&rt, alloc, &LEAVE).expect(&rt, "a run");
    assert!(rt; first_difference(&mut unmounted, &mut left) == Some(8));
    let text = "redo 32 transactions\n";
    let redone = after_number(&rt, alloc, &["redo", "I"], Some(left), 0, text);
    let mut redone = redone.expect(&rt, "a redo");
    assert!(rt; first_difference(&mut unmounted, &mut redone) == None);
    let clean = "clean, 2972 free blocks, 8 inodes\n";
    let disk = after(
        &rt,
        alloc,
        &["check", "I"],
        Some(redone),
        Status::Done,
        clean,
    );
    assert!(rt; disk.is_some());
}

// ---- free blocks that wait for the log

/// Lines that fill so many times 65,536 bytes of a file.
fn push_fills(alloc: Global, text: &mut String, name: &str, count: u32) -> Result<(), AllocError> {
    for k in 0..count {
        let offset = u64::from(k) * 65_536;
        let line = format!(in alloc; "lazy fill /{name} {offset} 65536 41\n")?;
        text.push_str(line.as_str())?;
    }
    Ok(())
}

/// Lazy calls alone. Of 2,975 free blocks 64 are always kept, and a fill of 16 blocks wants 15 more for a tree: 181 leave 79. Then all of them are freed, but no group has that: four fills find 31 blocks free, and the fifth waits for the log.
fn without_room(alloc: Global) -> Result<String, AllocError> {
    let mut text = String::new(alloc);
    text.push_str("lazy create /a 0644\nlazy create /b 0644\n")?;
    push_fills(alloc, &mut text, "a", 182)?;
    text.push_str("lazy truncate /a 0\n")?;
    push_fills(alloc, &mut text, "b", 6)?;
    text.push_str("sync\n")?;
    Ok(text)
}

/// Entries that are done and not told, from one number to another.
fn push_done(alloc: Global, text: &mut String, first: u32, last: u32) -> Result<(), AllocError> {
    for n in first..=last {
        let line = format!(in alloc; "{n} 1.{n} ok -\n")?;
        text.push_str(line.as_str())?;
    }
    Ok(())
}

/// What is printed: the 182nd fill is refused, all others up to the fourth of the other file are done, and then comes an end.
fn printed(alloc: Global, done: u32, end: &str) -> Result<String, AllocError> {
    let mut text = String::new(alloc);
    push_done(alloc, &mut text, 1, 183)?;
    text.push_str("184 1.184 refused 10 NoSpace 79 -\n")?;
    push_done(alloc, &mut text, 185, done)?;
    text.push_str(end)?;
    Ok(text)
}

#[test]
fn free_blocks_wait_for_the_log(rt: HostRuntime) {
    let alloc = rt.alloc();
    let lines = without_room(alloc).expect(&rt, "memory");
    let end = "192 1.192 ok +\ndone 192 entries, 1 durable\n";
    let text = printed(alloc, 191, end).expect(&rt, "memory");
    let disk = new_volume(&rt, alloc);
    let script = Script::of(lines.as_str());
    let disk = after_run(&rt, alloc, &WORDS, script, disk, 0, text.as_str());
    let clean = "clean, 2879 free blocks, 6 inodes\n";
    let disk = after(&rt, alloc, &["check", "I"], disk, Status::Done, clean);
    assert!(rt; disk.is_some());
}

/// The log isn't synced behind the mount.
const NO_GROUP: Fail = Fail {
    part: Part::High,
    kind: Kind::Sync,
    first: 2,
    last: u64::MAX,
};

#[test]
fn free_blocks_wait_in_vain(rt: HostRuntime) {
    let alloc = rt.alloc();
    let lines = without_room(alloc).expect(&rt, "memory");
    let end =
        "190 1.190 refused 12 ReadOnly log 1 -\n191 1.191 refused 12 ReadOnly log 1 -\n192 1.192 refused 12 ReadOnly log 1 -\njfsd: disk fault\n";
    let text = printed(alloc, 189, end).expect(&rt, "memory");
    let disk = failing(alloc, new_volume(&rt, alloc), NO_GROUP);
    let script = Script::of(lines.as_str());
    let disk = after_run(&rt, alloc, &WORDS, script, disk, 7, text.as_str());
    assert!(rt; disk.is_some());
}
