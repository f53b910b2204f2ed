//! Scripts on a volume and on the plain tree.

ghost use Rattle.jfs_plain.specs.Limits.{FitsRequest};
ghost use Rattle.jfs_script.specs.Script.{AllFit};

use crate::calls::{call_on, script_of};
use crate::same::{first_difference, same_reply, tree_on};
use crate::volume::{LIMIT, MADE, TestVolume, findings_of, maps_of, new_volume};
use jfs_bits::Moment;
use jfs_files::Maps;
use jfs_imap::Pick;
use jfs_plain::{Call, Line, PlainTree, Refusal, Reply, Request};
use std::alloc::{AllocError, Global};
use std::test::*;

/// What the plain tree answers.
fn plain(tree: &mut PlainTree, call: &Call, fresh: u32, now: Moment) -> Reply {
    if !tree.is_free(fresh) {
        return Reply::Refused(Refusal::OutOfMemory);
    }
    tree.step(call, fresh, now)
}

/// The lowest free inode.
fn fresh_inode(alloc: Global, volume: &mut TestVolume) -> Option<u32> {
    match maps_of(alloc, volume) {
        Some(maps) => number_of(&maps),
        None => None,
    }
}

fn number_of(maps: &Maps) -> Option<u32> {
    match maps.inodes.pick() {
        Pick::Number(n) => Some(n),
        _ => None,
    }
}

/// What is wrong after a line: nothing, or what.
#[derive(Clone, Copy, PartialEq, Eq)]
enum Wrong {
    Nothing,
    NotDone,
    Reply,
    Node(u32),
    Found(usize),
}

/// Whether a call's reply is the plain tree's; `None` where it isn't done.
fn replies_the_same(
    alloc: Global,
    volume: &mut TestVolume,
    tree: &mut PlainTree,
    request: &Request,
    now: Moment,
) -> Option<bool>
    requires { FitsRequest request.now }
{
    let fresh = fresh_inode(alloc, volume)?;
    let reply = call_on(alloc, volume, request, now)?;
    Some(same_reply(&reply, &plain(tree, &request.call, fresh, now)))
}

/// The first inode number at which the volume's tree differs from the plain one; `None` outside where it has none.
fn difference(alloc: Global, volume: &mut TestVolume, tree: &PlainTree) -> Option<Option<u32>> {
    let image = tree_on(alloc, volume)?;
    Some(first_difference(alloc, &image, tree))
}

fn after_line(
    alloc: Global,
    volume: &mut TestVolume,
    tree: &mut PlainTree,
    request: &Request,
    now: Moment,
) -> Wrong
    requires { FitsRequest request.now }
{
    match replies_the_same(alloc, volume, tree, request, now) {
        Some(true) => {}
        Some(false) => return Wrong::Reply,
        None => return Wrong::NotDone,
    }
    match findings_of(alloc, volume) {
        Some(0) => {}
        Some(found) => return Wrong::Found(found),
        None => return Wrong::NotDone,
    }
    match difference(alloc, volume, tree) {
        Some(None) => Wrong::Nothing,
        Some(Some(n)) => Wrong::Node(n),
        None => Wrong::NotDone,
    }
}

/// The first of these lines after which something is wrong, and what; how many they are and `Nothing`, where all goes well.
fn run_lines(
    alloc: Global,
    volume: &mut TestVolume,
    tree: &mut PlainTree,
    lines: &[Line],
) -> (usize, Wrong)
    requires { AllFit lines.now }
{
    for (i, line) in lines.iter().enumerate() {
        let now = Moment {
            sec: line.number.saturating_add(2000),
            nano: 9,
        };
        let wrong = after_line(alloc, volume, tree, &line.request, now);
        if wrong != Wrong::Nothing {
            return (i, wrong);
        }
    }
    (lines.len(), Wrong::Nothing)
}

/// The same of a script, on a new volume.
fn run(alloc: Global, text: &[u8]) -> Option<(usize, Wrong)> {
    let lines = script_of(alloc, text)?;
    let mut volume = new_volume(alloc)?;
    let mut tree = PlainTree::new(alloc, LIMIT, MADE).ok()?;
    Some(run_lines(alloc, &mut volume, &mut tree, &lines))
}

/// Whether each of so many lines is answered as on the plain tree, and leaves its tree.
fn goes_well(alloc: Global, text: &[u8], lines: usize) -> bool {
    run(alloc, text) == Some((lines, Wrong::Nothing))
}

/// A script, and how many lines it has.
type Row = (&'static [u8], usize);

static EACH_KIND: Row = (
    b"chmod / 0711\ncreate /a 0644\nmkdir /d 0750\ncreate /d/a 0600\nsymlink /d/l ../a\nlink /a /d/b\nchmod /d/b 0640\nunlink /a\nunlink /d/b\nunlink /d/l\nunlink /d/a\nrmdir /d\n",
    12,
);

static REFUSALS: Row = (
    b"create / 0644\ncreate /a/b 0644\ncreate /a 0644\ncreate /a 0644\nmkdir /a 0644\ncreate /a/b 0644\nmkdir /d 0755\nlink /d /e\nlink /a /d\nlink /a /x/y\nlink /x /y\nunlink /\nunlink /d\nunlink /x\nrmdir /\nrmdir /a\nrmdir /x\ncreate /d/f 0600\nrmdir /d\nsymlink /a x\nchmod /x 0700\nchmod /a/x 0700\nunlink /a/x\nunlink /d/f\nrmdir /d\n",
    25,
);

// Sizes of a file that has no bytes, and what is told of it.
static SIZES: Row = (
    b"create /f 0644\ntruncate /f 10000\nread /f 8000 4096\nstat /f\ntruncate /f 60001\ntruncate /f 60000\nread /f 59999 9\ntruncate /f 3\ntruncate / 3\nsymlink /l f\ntruncate /l 3\ntruncate /x 3\nreadlink /l\nread /l 0 1\nlist /\nstat /\nsync\nunlink /f\n",
    18,
);

// Calls of all kinds: bytes before and behind an end, in holes and over a block's end; renames to free names and over other objects, of files and of directories, and those that are refused.
static BYTES: Row = (
    b"create /f 0644\nfill /f 0 9000 41\nwrite /f 8990 42434445464748494a4b4c4d4e4f50\nread /f 8980 60\ntruncate /f 5000\nwrite /f 20000 61\nread /f 4990 40\nmkdir /d 0755\nrename /f /d/g\nstat /d/g\nfill /d/g 4096 8192 43\nmkdir /e 0711\nrename /e /d/e\nrename /d /d/e/x\ncreate /h 0600\nfill /h 100 5000 55\nrename /h /d/g\nlist /d\nlink /d/g /k\nrename /k /d/g\nrename /d/g /d/zz\nrename /k /m\nrename /d/e /d\nmkdir /n 0700\nrename /d/e /n\nrename /n /d/e\nrename /x /y\nrename / /y\nrename /m /\nrename /m /d\nrename /d /m\ntruncate /m 12288\nfill /m 8192 65536 00\nfill /m 0 51000 77\ntruncate /m 0\nunlink /m\nunlink /d/zz\nrmdir /d/e\nrmdir /d\nlist /\n",
    40,
);

// Where nothing stands: in one directory and between two, a file, a link and a directory.
static TO_FREE_NAMES: Row = (
    b"create /a 0644\nmkdir /d 0755\nmkdir /e 0755\nsymlink /l x\nrename /a /b\nrename /b /d/c\nrename /d/c /d/cc\nrename /l /d/l\nrename /d/l /m\nrename /e /f\nrename /f /d/f\nmkdir /d/f/g 0755\nrename /d/f/g /d/g\nrename /d/g /g\nrename /d /g/d\nrename /g/d/cc /cc\n",
    16,
);

// In place of another object: one that has other names and one that goes, an empty directory, and one object's two names.
static OVER_NAMES: Row = (
    b"create /a 0644\ncreate /b 0644\nlink /b /c\nrename /a /b\nrename /b /c\nrename /c /c\nmkdir /d 0755\nmkdir /e 0755\nmkdir /e/f 0755\nlink /c /d/c\nrename /c /d/c\nsymlink /d/l y\nrename /d/c /d/l\nrename /d /e/f\nrename /e/f/l /l\nrename /c /l\nrename /e/f /f\nmkdir /g 0755\nrename /f /g\nrename /g /g\n",
    20,
);

static REFUSED_RENAMES: Row = (
    b"create /a 0644\nmkdir /d 0755\nmkdir /e 0755\ncreate /e/f 0644\nrename / /x\nrename /a /\nrename /x /y\nrename /a/x /y\nrename /a /x/y\nrename /a /a/y\nrename /d /d/x\nrename /e /e/f\nrename /e /e/f/x\nrename /a /d\nrename /d /a\nrename /d /e\nrename /e /e\n",
    17,
);

#[test]
fn calls_of_each_kind(rt: HostRuntime) {
    assert!(rt; goes_well(rt.alloc(), EACH_KIND.0, EACH_KIND.1));
}

#[test]
fn refusals(rt: HostRuntime) {
    assert!(rt; goes_well(rt.alloc(), REFUSALS.0, REFUSALS.1));
}

#[test]
fn sizes_and_replies(rt: HostRuntime) {
    assert!(rt; goes_well(rt.alloc(), SIZES.0, SIZES.1));
}

#[test]
fn bytes_sizes_and_renames(rt: HostRuntime) {
    assert!(rt; goes_well(rt.alloc(), BYTES.0, BYTES.1));
}

#[test]
fn renames_to_free_names(rt: HostRuntime) {
    assert!(rt; goes_well(rt.alloc(), TO_FREE_NAMES.0, TO_FREE_NAMES.1));
}

#[test]
fn renames_over_names(rt: HostRuntime) {
    assert!(rt; goes_well(rt.alloc(), OVER_NAMES.0, OVER_NAMES.1));
}

#[test]
fn refused_renames(rt: HostRuntime) {
    assert!(rt; goes_well(rt.alloc(), REFUSED_RENAMES.0, REFUSED_RENAMES.1));
}

/// Pushes a line: a call, a name of so many letters in directory d, and what follows it.
fn push_line(
    text: &mut Vec<u8>,
    call: &[u8],
    letter: u8,
    len: usize,
    rest: &[u8],
) -> Result<(), AllocError> {
    text.extend_from_slice(call)?;
    text.extend_from_slice(b" /d/")?;
    for _ in 0..len {
        text.push(letter)?;
    }
    text.extend_from_slice(rest)
}

/// Names of many lengths, which take 1 to 20 slots of a page: as many as there are inodes for, made in one order and taken away in another.
fn long_names(alloc: Global) -> Result<Vec<u8>, AllocError> {
    let lengths = [255, 1, 200, 13, 250, 120, 2];
    let mut text = Vec::new(alloc);
    text.extend_from_slice(b"mkdir /d 0755\n")?;
    for i in 0..26usize {
        let k = i * 11 % 26;
        push_line(
            &mut text,
            b"create",
            b'a' + k as u8,
            lengths[k % 7],
            b" 0644\n",
        )?;
    }
    for i in 0..26usize {
        let k = i * 7 % 26;
        push_line(&mut text, b"unlink", b'a' + k as u8, lengths[k % 7], b"\n")?;
    }
    text.extend_from_slice(b"rmdir /d\n")?;
    Ok(text)
}

#[test]
fn names_of_many_lengths(rt: HostRuntime) {
    let text = long_names(rt.alloc()).expect(&rt, "memory");
    assert!(rt; goes_well(rt.alloc(), &text, 54));
}

/// Pushes the front of a line, and a name of so many letters.
fn push_name(text: &mut Vec<u8>, before: &[u8], letter: u8, len: usize) -> Result<(), AllocError> {
    text.extend_from_slice(before)?;
    for _ in 0..len {
        text.push(letter)?;
    }
    Ok(())
}

/// Names of many lengths, which take 1 to 20 slots of a page: made in one directory, and then each goes to another one or gets a longer name in its own, in another order.
fn long_renames(alloc: Global) -> Result<Vec<u8>, AllocError> {
    let lengths = [254, 1, 200, 13, 250, 120, 2];
    let mut text = Vec::new(alloc);
    text.extend_from_slice(b"mkdir /d 0755\nmkdir /e 0755\n")?;
    for i in 0..13usize {
        let k = i * 5 % 13;
        push_name(&mut text, b"create /d/", b'a' + k as u8, lengths[k % 7])?;
        text.extend_from_slice(b" 0644\n")?;
    }
    for i in 0..13usize {
        let k = i * 7 % 13;
        push_name(&mut text, b"rename /d/", b'a' + k as u8, lengths[k % 7])?;
        let to: &[u8] = if k % 3 == 0 { b" /d/" } else { b" /e/" };
        push_name(&mut text, to, b'z' - k as u8, lengths[k % 7] + 1)?;
        text.push(b'\n')?;
    }
    Ok(text)
}

#[test]
fn renames_of_many_lengths(rt: HostRuntime) {
    let text = long_renames(rt.alloc()).expect(&rt, "memory");
    assert!(rt; goes_well(rt.alloc(), &text, 28));
}
