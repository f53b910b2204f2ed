//! The scripts.

use std::alloc::{AllocError, Global};

/// A directory, a file in it, and what reads them.
pub const FIRST: &'static [u8] = b"mkdir /a 0755
create /a/f 0644
fill /a/f 0 6 41
read /a/f 0 16
stat /a/f
list /a
";

/// A call of each kind.
pub const ALL_KINDS: &'static [u8] = b"mkdir /d 0755
create /d/a 0644
write /d/a 0 4142434445
fill /d/a 5 3 2e
truncate /d/a 7
read /d/a 0 16
list /d
lazy chmod /d/a 0600
rename /d/a /b
read /b 1 2
symlink /s d
readlink /s
link /b /c
unlink /b
rmdir /d
rmdir /d
stat /c
sync
list /
";

/// A file whose bytes are synced; its inode is 4, and nothing changes it later.
const KEPT: &'static [u8] = b"create /kept 0644
fill /kept 0 9000 41
sync
mkdir /d 0755
";

/// The last one below it that was synced.
pub const SYNCED: usize = 3;

/// Objects behind the first inode extent, renames over files, truncates, and what is lazy.
const OTHERS: &'static [u8] = b"lazy mkdir /e 0700
lazy create /e/f 0644
fill /e/f 4090 9000 42
symlink /e/l ../kept
create /e/g 0600
write /e/g 20000 61
rename /e/g /e/f
truncate /e/f 30000
truncate /e/f 5000
lazy fill /e/f 4000 5000 43
lazy link /e/f /h
create /i 0644
fill /i 0 20000 44
sync
rename /i /h
truncate /h 100
mkdir /e/k 0755
rename /e/k /k
lazy unlink /e/f
unlink /e/l
rmdir /e
fill /h 90 300 45
";

/// How many names the directory gets.
const NAMES: u8 = 26;

/// Pushes a line: a call, a name of some letters in the directory, by the number of the name, and what follows it.
fn push_line(text: &mut Vec<u8>, call: &[u8], number: u8, rest: &[u8]) -> Result<(), AllocError> {
    const LENGTHS: [usize; 7] = [255, 1, 200, 13, 250, 120, 2];
    text.extend_from_slice(call)?;
    text.extend_from_slice(b" /d/")?;
    for _ in 0..LENGTHS[(number % 7) as usize] {
        text.push(b'a' + number % NAMES)?;
    }
    text.extend_from_slice(rest)
}

/// A script whose directory splits, while names of many lengths are made in one order, and is empty again once they are taken away in another. Meanwhile the inodes get an extent more.
pub fn busy(alloc: Global) -> Result<Vec<u8>, AllocError> {
    let mut text = Vec::from_slice(alloc, KEPT)?;
    for i in 0..NAMES {
        push_line(&mut text, b"create", i * 7 % NAMES, b" 0644\n")?;
    }
    text.extend_from_slice(OTHERS)?;
    for i in 0..NAMES {
        push_line(&mut text, b"unlink", i * 5 % NAMES, b"\n")?;
    }
    text.extend_from_slice(b"rmdir /d\n")?;
    Ok(text)
}
