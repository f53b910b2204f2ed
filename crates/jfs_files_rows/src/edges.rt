//! Renames over a file with blocks, and those that the room of the volume or a link count refuses.

ghost use Rattle.std.specs.Prelude.{IfSome};
ghost use Rattle.jfs_plain.specs.Limits.{FitsRequest};
ghost use Rattle.jfs_script.specs.Script.{AllFit};

use crate::calls::{call_on, script_of};
use crate::volume::{TestVolume, fill_to, findings_of, new_volume, own, put_words};
use jfs_bits::Moment;
use jfs_name::read_path;
use jfs_plain::{Call, Line, Refusal, Reply, Request};
use std::alloc::Global;
use std::test::*;

const NOW: Moment = Moment { sec: 3000, nano: 9 };

/// Whether each of these lines is done.
fn are_done(alloc: Global, volume: &mut TestVolume, lines: &[Line]) -> bool
    requires { AllFit lines.now }
{
    for line in lines.iter() {
        let reply = call_on(alloc, volume, &line.request, NOW);
        if !matches!(&reply, Some(Reply::Done)) {
            return false;
        }
    }
    true
}

/// A volume with two files, inodes 4 and 5, and two directories.
fn two_files(alloc: Global) -> Option<TestVolume> {
    let text = b"create /a 0644\ncreate /b 0644\nmkdir /c 0755\nmkdir /d 0755\n";
    let lines = script_of(alloc, text)?;
    let mut volume = new_volume(alloc)?;
    if are_done(alloc, &mut volume, &lines) {
        Some(volume)
    } else {
        None
    }
}

fn rename(alloc: Global, from: &[u8], to: &[u8]) -> Option<Request>
    ensures { IfSome result FitsRequest }
{
    let from = read_path(alloc, from).ok()?;
    let to = read_path(alloc, to).ok()?;
    Some(Request {
        call: Call::Rename { from, to },
        lazy: false,
    })
}

/// Why a call was refused; `None` outside where it was answered in another way.
fn refusal_of(reply: &Reply) -> Option<Option<Refusal>> {
    match reply {
        Reply::Done => Some(None),
        Reply::Refused(why) => Some(Some(*why)),
        _ => None,
    }
}

/// Renames an object where no file is larger than a limit, and answers why it was refused; `None` where it can't be done.
fn renamed(
    alloc: Global,
    volume: &mut TestVolume,
    from: &[u8],
    to: &[u8],
    limit: u64,
) -> Option<Option<Refusal>> {
    volume.limit = limit;
    let request = rename(alloc, from, to)?;
    match call_on(alloc, volume, &request, NOW) {
        Some(reply) => refusal_of(&reply),
        None => None,
    }
}

/// A rename in a row: from, to, the limit, and why it is refused.
type Row = (&'static [u8], &'static [u8], u64, Option<Refusal>);

/// The first of these renames that is answered in another way.
fn first_wrong(alloc: Global, volume: &mut TestVolume, rows: &[Row]) -> Option<usize> {
    for (i, (from, to, limit, wanted)) in rows.iter().enumerate() {
        if renamed(alloc, volume, from, to, *limit) != Some(*wanted) {
            return Some(i);
        }
    }
    None
}

/// Inode 5 gets 20,000 bytes: five blocks of data from block 300 on, and attributes of 9,000 bytes in three blocks from block 200 on.
static WITH_BLOCKS: [(usize, u32); 9] = [
    (2584, 20_000),
    (2592, 5),
    (2664, 0x20),
    (2668, 9000),
    (2672, 3),
    (2676, 200),
    (2800, 0x0003_0083),
    (2824, 5),
    (2828, 300),
];

static OVER_BLOCKS: [Row; 3] = [
    (b"/a", b"/b", 19_999, Some(Refusal::FileTooBig)),
    (b"/b", b"/c/b", 0, None),
    (b"/a", b"/c/b", 20_000, None),
];

// A file of 20,000 bytes goes with five blocks of data and three of attributes, where the limit allows it.
#[test]
fn over_a_file_with_blocks(rt: HostRuntime) {
    let alloc = rt.alloc();
    let mut volume = two_files(alloc).expect(&rt, "a volume");
    assert!(rt; put_words(&mut volume, &WITH_BLOCKS));
    own(&mut volume, 300, 5);
    own(&mut volume, 200, 3);
    assert!(rt; first_wrong(alloc, &mut volume, &OVER_BLOCKS) == None);
    assert!(rt; findings_of(alloc, &mut volume) == Some(0));
}

const FULL: Option<Refusal> = Some(Refusal::NoSpace { free: 71 });

static WITHOUT_ROOM: [Row; 4] = [
    (b"/a", b"/x", 0, FULL),
    (b"/a", b"/b", 0, FULL),
    (b"/a", b"/a", 0, None),
    (b"/a", b"/c", 0, Some(Refusal::IsDir)),
];

static WITH_ROOM: [Row; 2] = [(b"/a", b"/x", 0, None), (b"/x", b"/b", 0, None)];

// 72 blocks without an owner are enough, and 71 aren't; nothing is asked of them where both names are one object's.
#[test]
fn without_room(rt: HostRuntime) {
    let alloc = rt.alloc();
    let mut volume = two_files(alloc).expect(&rt, "a volume");
    fill_to(&mut volume, 71);
    assert!(rt; first_wrong(alloc, &mut volume, &WITHOUT_ROOM) == None);
    fill_to(&mut volume, 72);
    assert!(rt; first_wrong(alloc, &mut volume, &WITH_ROOM) == None);
}

static INTO_FULL: [Row; 2] = [
    (b"/c", b"/d/c", 0, Some(Refusal::TooManyLinks)),
    (b"/a", b"/d/a", 0, None),
];

// A directory with 65,535 links, inode 7, takes files, and no directory.
#[test]
fn into_a_full_directory(rt: HostRuntime) {
    let alloc = rt.alloc();
    let mut volume = two_files(alloc).expect(&rt, "a volume");
    assert!(rt; put_words(&mut volume, &[(3624, 65_535)]));
    assert!(rt; first_wrong(alloc, &mut volume, &INTO_FULL) == None);
}
