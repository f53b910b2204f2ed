//! What calls on a plain tree are answered, worked out by hand: each call, each refusal but those of limits, renames, holes.

use crate::scripts::script_of;
use jfs_bits::Moment;
use jfs_plain::{Call, Entry, PlainTree, Reply};
use jfs_script::write_entry;
use std::alloc::{AllocError, Global};
use std::test::*;

/// The line of an entry of a call with this reply.
fn line_of(alloc: Global, call: Call, reply: Reply) -> Result<Vec<u8>, AllocError> {
    let entry = Entry {
        client: 1,
        line: 1,
        call,
        lazy: false,
        reply,
    };
    let mut text = Vec::new(alloc);
    write_entry(alloc, &entry, 1, false, &mut text)?;
    Ok(text)
}

/// What a call on a tree is answered; nothing where the number isn't free.
fn reply_to(tree: &mut PlainTree, call: &Call, fresh: u32, now: Moment) -> Option<Reply> {
    if tree.is_free(fresh) {
        Some(tree.step(call, fresh, now))
    } else {
        None
    }
}

/// What a call on a tree is answered, as it is printed; nothing where the number isn't free.
fn told(
    alloc: Global,
    tree: &mut PlainTree,
    call: Call,
    fresh: u32,
    now: Moment,
) -> Result<Vec<u8>, AllocError> {
    match reply_to(tree, &call, fresh, now) {
        Some(reply) => line_of(alloc, call, reply),
        None => Ok(Vec::new(alloc)),
    }
}

/// The call that a line of a script asks for.
fn call_of(alloc: Global, text: &str) -> Option<Call> {
    let mut lines = script_of(alloc, text.as_bytes()).ok()?;
    Some(lines.pop()?.request.call)
}

/// Whether row i, from 0, is answered as wanted: it comes at second 100 + i, and inode 4 + i is free for it.
fn is_told(
    alloc: Global,
    tree: &mut PlainTree,
    row: u32,
    text: &str,
    wanted: &str,
) -> Result<bool, AllocError> {
    let now = Moment {
        sec: row.wrapping_add(100),
        nano: 5,
    };
    let Some(call) = call_of(alloc, text) else {
        return Ok(false);
    };
    let told = told(alloc, tree, call, row.wrapping_add(4), now)?;
    let expected = format!(in alloc; "1 1.1 {wanted} -\n")?;
    Ok(told.as_slice() == expected.as_bytes())
}

/// The first row whose reply isn't as wanted, of a new tree with this file limit.
fn first_wrong(
    alloc: Global,
    file_limit: u64,
    rows: &[(&str, &str)],
) -> Result<Option<u32>, AllocError> {
    let tree = PlainTree::new(alloc, file_limit, Moment { sec: 7, nano: 0 })?;
    first_wrong_of(alloc, tree, rows)
}

/// The first row whose reply isn't as wanted, of this tree.
pub fn first_wrong_of(
    alloc: Global,
    mut tree: PlainTree,
    rows: &[(&str, &str)],
) -> Result<Option<u32>, AllocError> {
    let mut row = 0u32;
    for (text, wanted) in rows {
        if !is_told(alloc, &mut tree, row, text, wanted)? {
            return Ok(Some(row));
        }
        row = row.wrapping_add(1);
    }
    Ok(None)
}

static INTO_ITSELF: [(&str, &str); 7] = [
    ("mkdir /a 0755", "ok"),
    ("rename /a /a/b", "refused 9 IntoItself"),
    ("rename /a /a", "ok"),
    ("create /x 0644", "ok"),
    ("link /x /y", "ok"),
    ("rename /x /y", "ok"),
    ("list /", "names 3 a x y"),
];

#[test]
fn a_directory_into_itself_and_two_names_of_one_file(rt: HostRuntime) {
    assert_eq!(rt;
        first_wrong(rt.alloc(), 33_554_432, &INTO_ITSELF).expect(&rt, "memory"),
        None
    );
}

static HOLES: [(&str, &str); 13] = [
    ("create /h 0644", "ok"),
    ("write /h 1000000 41", "ok"),
    ("read /h 999999 2", "bytes 0041"),
    ("read /h 0 4", "bytes 00000000"),
    ("truncate /h 268435457", "refused 8 FileTooBig"),
    ("truncate /h 268435456", "ok"),
    ("fill /h 268435455 2 42", "refused 8 FileTooBig"),
    ("write /h 18446744073709551615 42", "refused 8 FileTooBig"),
    ("read /h 1000000 4", "bytes 41000000"),
    ("read /h 268435456 1", "bytes -"),
    ("truncate /h 1000000", "ok"),
    ("truncate /h 1000001", "ok"),
    ("read /h 999999 9", "bytes 0000"),
];

#[test]
fn holes_and_the_file_limit(rt: HostRuntime) {
    assert_eq!(rt;
        first_wrong(rt.alloc(), 268_435_456, &HOLES).expect(&rt, "memory"),
        None
    );
}

static EACH_CALL: [(&str, &str); 30] = [
    ("mkdir /d 0750", "ok"),
    ("create /d/f 0640", "ok"),
    ("stat /d", "stat dir 0750 2 0 0 0 4 101"),
    ("stat /", "stat dir 0755 3 0 0 0 2 100"),
    ("symlink /d/l ab%20c", "ok"),
    ("readlink /d/l", "target ab%20c"),
    ("stat /d/l", "stat link 0777 1 0 0 4 8 104"),
    ("write /d/f 2 4142", "ok"),
    ("stat /d/f", "stat file 0640 1 0 0 4 5 107"),
    ("link /d/f /g", "ok"),
    ("stat /g", "stat file 0640 2 0 0 4 5 107"),
    ("stat /", "stat dir 0755 3 0 0 0 2 109"),
    ("read /g 0 9", "bytes 00004142"),
    ("chmod /g 0600", "ok"),
    ("stat /d/f", "stat file 0600 2 0 0 4 5 107"),
    ("list /d", "names 2 f l"),
    ("truncate /g 3", "ok"),
    ("read /d/f 1 8", "bytes 0041"),
    ("fill /g 4 2 ff", "ok"),
    ("read /g 0 16", "bytes 00004100ffff"),
    ("unlink /d/f", "ok"),
    ("stat /g", "stat file 0600 1 0 0 6 5 118"),
    ("unlink /d/l", "ok"),
    ("stat /d", "stat dir 0750 2 0 0 0 4 122"),
    ("rmdir /d", "ok"),
    ("stat /", "stat dir 0755 2 0 0 0 2 124"),
    ("sync", "ok"),
    ("list /", "names 1 g"),
    ("unlink /g", "ok"),
    ("list /", "names 0"),
];

#[test]
fn each_call(rt: HostRuntime) {
    assert_eq!(rt;
        first_wrong(rt.alloc(), 33_554_432, &EACH_CALL).expect(&rt, "memory"),
        None
    );
}

static EACH_REFUSAL: [(&str, &str); 42] = [
    ("create /f 0644", "ok"),
    ("mkdir /d 0755", "ok"),
    ("mkdir /d/e 0755", "ok"),
    ("symlink /l d", "ok"),
    ("stat /x", "refused 1 NotFound"),
    ("create /x/y 0644", "refused 1 NotFound"),
    ("link /f /x/y", "refused 1 NotFound"),
    ("rename /x /", "refused 1 NotFound"),
    ("rename /d /x/y", "refused 1 NotFound"),
    ("stat /f/x", "refused 2 NotDir"),
    ("stat /l/e", "refused 2 NotDir"),
    ("create /f/x 0644", "refused 2 NotDir"),
    ("list /f", "refused 2 NotDir"),
    ("rmdir /l", "refused 2 NotDir"),
    ("rename /d /f", "refused 2 NotDir"),
    ("unlink /", "refused 3 IsDir"),
    ("link /d /x/y", "refused 3 IsDir"),
    ("read / 0 1", "refused 3 IsDir"),
    ("write /d 99999999999 41", "refused 3 IsDir"),
    ("fill /d 0 1 41", "refused 3 IsDir"),
    ("truncate /d 99999999999", "refused 3 IsDir"),
    ("rename /f /d", "refused 3 IsDir"),
    ("read /l 0 1", "refused 4 NotFile"),
    ("write /l 99999999999 41", "refused 4 NotFile"),
    ("readlink /f", "refused 4 NotFile"),
    ("readlink /d", "refused 4 NotFile"),
    ("mkdir / 0755", "refused 5 Exists"),
    ("create /d 0644", "refused 5 Exists"),
    ("symlink /l x", "refused 5 Exists"),
    ("link /f /", "refused 5 Exists"),
    ("link /f /l", "refused 5 Exists"),
    ("rmdir /d", "refused 6 NotEmpty"),
    ("mkdir /h 0755", "ok"),
    ("rename /h /d", "refused 6 NotEmpty"),
    ("write /f 33554432 41", "refused 8 FileTooBig"),
    ("truncate /f 33554433", "refused 8 FileTooBig"),
    ("rmdir /", "refused 9 IntoItself"),
    ("rename / /x", "refused 9 IntoItself"),
    ("rename /f /", "refused 9 IntoItself"),
    ("rename /d /d/e", "refused 9 IntoItself"),
    ("rename /d /d/e/g", "refused 9 IntoItself"),
    ("list /", "names 4 d f h l"),
];

#[test]
fn each_refusal(rt: HostRuntime) {
    assert_eq!(rt;
        first_wrong(rt.alloc(), 33_554_432, &EACH_REFUSAL).expect(&rt, "memory"),
        None
    );
}

static RENAMES_OF_DIRECTORIES: [(&str, &str); 16] = [
    ("mkdir /a 0755", "ok"),
    ("mkdir /b 0755", "ok"),
    ("mkdir /a/c 0755", "ok"),
    ("stat /a", "stat dir 0755 3 0 0 0 4 102"),
    ("rename /a/c /b/d", "ok"),
    ("stat /a", "stat dir 0755 2 0 0 0 4 104"),
    ("stat /b", "stat dir 0755 3 0 0 0 5 104"),
    ("stat /b/d", "stat dir 0755 2 0 0 0 6 102"),
    ("rename /b/d /a", "ok"),
    ("stat /", "stat dir 0755 4 0 0 0 2 108"),
    ("stat /a", "stat dir 0755 2 0 0 0 6 102"),
    ("stat /b", "stat dir 0755 2 0 0 0 5 108"),
    ("rename /b /a", "ok"),
    ("stat /", "stat dir 0755 3 0 0 0 2 112"),
    ("list /", "names 1 a"),
    ("stat /a", "stat dir 0755 2 0 0 0 5 108"),
];

#[test]
fn renames_of_directories(rt: HostRuntime) {
    assert_eq!(rt;
        first_wrong(rt.alloc(), 33_554_432, &RENAMES_OF_DIRECTORIES).expect(&rt, "memory"),
        None
    );
}

static RENAMES_OF_FILES: [(&str, &str); 12] = [
    ("create /f 0644", "ok"),
    ("create /g 0600", "ok"),
    ("link /g /h", "ok"),
    ("rename /f /g", "ok"),
    ("list /", "names 2 g h"),
    ("stat /g", "stat file 0644 1 0 0 0 4 100"),
    ("stat /h", "stat file 0600 1 0 0 0 5 101"),
    ("rename /g /h", "ok"),
    ("list /", "names 1 h"),
    ("stat /h", "stat file 0644 1 0 0 0 4 100"),
    ("rename /h /a", "ok"),
    ("list /", "names 1 a"),
];

#[test]
fn renames_of_files(rt: HostRuntime) {
    assert_eq!(rt;
        first_wrong(rt.alloc(), 33_554_432, &RENAMES_OF_FILES).expect(&rt, "memory"),
        None
    );
}
