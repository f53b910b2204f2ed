//! The command `run` at two borders: the longest name, and a volume without room.

use crate::check::new_volume;
use crate::run::{WORDS, after_run};
use crate::volume::{Script, after};
use jfs_command::Status;
use std::alloc::{AllocError, Global};

/// A line that makes a file whose name is so many letters.
fn make_long(alloc: Global, letters: u32) -> Result<String, AllocError> {
    let mut line = String::new(alloc);
    line.push_str("create /")?;
    for _ in 0..letters {
        line.push_str("n")?;
    }
    line.push_str(" 0644\n")?;
    Ok(line)
}

#[test]
fn the_longest_name(rt: HostRuntime) {
    let alloc = rt.alloc();
    let longest = make_long(alloc, 255).expect(&rt, "memory");
    let text = "1 1.1 ok +\ndone 1 entries, 1 durable\n";
    let disk = new_volume(&rt, alloc);
    let script = Script::of(longest.as_str());
    let disk = after_run(&rt, alloc, &WORDS, script, disk, 0, text);
    // Its entry takes 18 slots, more than an inode has, so the directory got a page.
    let clean = "clean, 2974 free blocks, 5 inodes\n";
    let disk = after(&rt, alloc, &["check", "I"], disk, Status::Done, clean);
    let longer = make_long(alloc, 256).expect(&rt, "memory");
    let text = "jfsd: bad script: client 1 line 1 rule name\n";
    let script = Script::of(longer.as_str());
    let disk = after_run(&rt, alloc, &WORDS, script, disk, 4, text);
    assert!(rt; disk.is_some());
}

/// A file that is filled by 65,536 bytes at a time until that is refused; then it is removed, and made anew with as many.
fn full(alloc: Global) -> Result<String, AllocError> {
    let mut text = String::new(alloc);
    text.push_str("create /f 0644\n")?;
    for k in 0..182u64 {
        let offset = k * 65_536;
        let line = format!(in alloc; "fill /f {offset} 65536 78\n")?;
        text.push_str(line.as_str())?;
    }
    text.push_str("unlink /f\ncreate /f 0644\nfill /f 0 65536 78\n")?;
    Ok(text)
}

/// Of 2,975 free blocks 64 are always kept, and a fill of 16 blocks wants 15 more for a tree: so 181 of them leave 79. The unlink's blocks are free again at once, since its group is durable.
fn full_printed(alloc: Global) -> Result<String, AllocError> {
    let mut text = String::new(alloc);
    for n in 1..=182u32 {
        let line = format!(in alloc; "{n} 1.{n} ok +\n")?;
        text.push_str(line.as_str())?;
    }
    text.push_str("183 1.183 refused 10 NoSpace 79 -\n")?;
    text.push_str("184 1.184 ok +\n185 1.185 ok +\n186 1.186 ok +\n")?;
    text.push_str("done 186 entries, 185 durable\n")?;
    Ok(text)
}

#[test]
fn a_volume_without_room(rt: HostRuntime) {
    let alloc = rt.alloc();
    let lines = full(alloc).expect(&rt, "memory");
    let text = full_printed(alloc).expect(&rt, "memory");
    let disk = new_volume(&rt, alloc);
    let script = Script::of(lines.as_str());
    let disk = after_run(&rt, alloc, &WORDS, script, disk, 0, text.as_str());
    let clean = "clean, 2959 free blocks, 5 inodes\n";
    let disk = after(&rt, alloc, &["check", "I"], disk, Status::Done, clean);
    assert!(rt; disk.is_some());
}
