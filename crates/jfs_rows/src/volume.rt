//! A small sound superblock, and runs of the top call on it.

ghost use Rattle.std.specs.Prelude.{◌≡◌, length, IfOk};
ghost use Rattle.jfs_command.specs.Words.{texts, command_of, scripts_asked};
ghost use Rattle.jfs_super.specs.Super.{FitsSuper};

use jfs_bits::{Moment, Pxd, SuperFlags};
use jfs_command::{Ended, Paths, PathsError, Status, jfs_top, paths_of};
use jfs_disk::{Disk, Fail, Kind, MemDisk, Page, Part};
use jfs_io::{Gate, MemSource, OpenGate, Sink, SureSink};
use jfs_super::{Super, VolumeState, write_super};
use std::alloc::{AllocError, Global};
use std::sync::Wait;
use std::thread::Threads;
use uuid::Uuid;

/// What the sound superblock prints.
pub const LINES: &str = "magic JFS1\nversion 2\nblocks 3008\nagsize 8192\nflags 10000900\nstate 0\n\
log 3072 1024\nwork 3008 64\nuuid 00112233-4455-6677-8899-aabbccddeeff\nlabel data\n";

/// The superblock of a new volume on 4,096 pages with the label `data`.
pub fn sound() -> Super
    ensures { FitsSuper result }
{
    let none = Pxd { len: 0, addr: 0 };
    Super {
        magic: u32::from_le_bytes(*b"JFS1"),
        version: 2,
        size: 24064,
        bsize: 4096,
        l2bsize: 12,
        l2bfactor: 3,
        pbsize: 512,
        l2pbsize: 9,
        agsize: 8192,
        flag: SuperFlags(0x1000_0900),
        state: VolumeState::CLEAN,
        compress: 0,
        ait2: Pxd { len: 4, addr: 21 },
        aim2: Pxd { len: 2, addr: 25 },
        logdev: 0,
        logserial: 0,
        logpxd: Pxd {
            len: 1024,
            addr: 3072,
        },
        fsckpxd: Pxd {
            len: 64,
            addr: 3008,
        },
        time: Moment { sec: 0, nano: 0 },
        fsckloglen: 0,
        fscklog: 0,
        fpack: [0; 11],
        xsize: 0,
        xfsckpxd: none,
        xlogpxd: none,
        uuid: Uuid::from_bytes([
            0x00, 0x11, 0x22, 0x33, 0x44, 0x55, 0x66, 0x77, 0x88, 0x99, 0xaa, 0xbb, 0xcc, 0xdd,
            0xee, 0xff,
        ]),
        label: *b"data\0\0\0\0\0\0\0\0\0\0\0\0",
        loguuid: Uuid::from_bytes([0; 16]),
    }
}

/// Page 8 with the sound superblock.
pub fn sound_page() -> Page {
    let mut page = Page::zeros();
    write_super(&sound(), &mut page);
    page
}

/// A disk of so many pages whose page 8 is this one; `None` where there is no memory for it.
pub fn disk_with(alloc: Global, pages: u32, page: &Page) -> Option<MemDisk> {
    let mut disk = MemDisk::new(alloc, pages);
    if disk.pages() > 8 {
        disk.write(8, page).ok()?;
    }
    Some(disk)
}

/// A disk of 4,096 pages with the sound superblock.
pub fn sound_disk(alloc: Global) -> Option<MemDisk> {
    disk_with(alloc, 4096, &sound_page())
}

/// The top call at a moment. Nothing is said of what it does, so that no test is proved beside the clauses of all commands.
fn top<R: Threads + Wait + Sync, D: Disk + Send, K: Sink, G: Gate + Sync>(
    rt: &R,
    alloc: Global,
    words: &[Vec<u8>],
    disk: D,
    scripts: &mut Vec<MemSource>,
    out: &mut K,
    gate: &G,
) -> Ended<D>
    requires { length scripts.old.items ≡ length (scripts_asked (command_of (texts words.now))) }
{
    let now = Moment { sec: 1000, nano: 0 };
    jfs_top(rt, alloc, words, now, disk, scripts, out, gate)
}

/// A script of a run: its text, and which of the calls on its source fail, from the first to the last of them.
#[derive(Clone, Copy, Debug)]
pub struct Script<'a> {
    pub text: &'a str,
    pub fails: Option<(u64, u64)>,
}

impl Script<'_> {
    /// A script whose source doesn't fail.
    pub fn of(text: &str) -> Script<'_> {
        Script { text, fails: None }
    }

    fn source(self, alloc: Global) -> Result<MemSource, AllocError> {
        let source = MemSource::new(Vec::from_slice(alloc, self.text.as_bytes())?);
        Ok(match self.fails {
            Some((first, last)) => source.with_fails(first, last),
            None => source,
        })
    }
}

/// The places of the words that name scripts, none where they leave the grammar.
fn places_of(alloc: Global, words: &[Vec<u8>]) -> Result<Vec<u32>, AllocError>
    ensures { IfOk result (λ places. places.items ≡ scripts_asked (command_of (texts words.now))) }
{
    match paths_of(alloc, words) {
        Ok(Paths { scripts, .. }) => Ok(scripts),
        Err(PathsError::Usage(_)) => Ok(Vec::new(alloc)),
        Err(PathsError::Memory) => Err(AllocError),
    }
}

/// The same script at each of these places.
fn sources(alloc: Global, places: &[u32], script: Script<'_>) -> Result<Vec<MemSource>, AllocError>
    ensures { IfOk result (λ sources. length sources.items ≡ length places.now) }
{
    let mut sources = Vec::new(alloc);
    for place in places {
        let _ = place;
        sources.push(script.source(alloc)?)?;
    }
    Ok(sources)
}

/// A source of each of these texts, one a place; behind the last one none is left.
fn sources_of(alloc: Global, places: &[u32], texts: &[&str]) -> Result<Vec<MemSource>, AllocError>
    ensures { IfOk result (λ sources. length sources.items ≡ length places.now) }
{
    let mut sources = Vec::new(alloc);
    let mut rest = texts.iter();
    for place in places {
        let _ = place;
        let text = rest.next().copied().unwrap_or("");
        sources.push(Script::of(text).source(alloc)?)?;
    }
    Ok(sources)
}

/// Runs the top call with these words, of which each script's has a text; `None` where there is no memory for them.
pub fn run_all<R: Threads + Wait + Sync, K: Sink>(
    rt: &R,
    alloc: Global,
    words: &[&str],
    scripts: &[&str],
    disk: MemDisk,
    out: &mut K,
) -> Option<Ended<MemDisk>> {
    run_at(rt, alloc, words, scripts, disk, out, &OpenGate)
}

/// The same on any disk, with a gate.
pub fn run_at<R: Threads + Wait + Sync, D: Disk + Send + Drop, K: Sink, G: Gate + Sync>(
    rt: &R,
    alloc: Global,
    words: &[&str],
    scripts: &[&str],
    disk: D,
    out: &mut K,
    gate: &G,
) -> Option<Ended<D>> {
    let words = words_of(alloc, words).ok()?;
    let places = places_of(alloc, &words).ok()?;
    let mut scripts = sources_of(alloc, &places, scripts).ok()?;
    Some(top(rt, alloc, &words, disk, &mut scripts, out, gate))
}

/// Runs the top call with these words; `None` where there is no memory for them.
pub fn run<R: Threads + Wait + Sync, K: Sink>(
    rt: &R,
    alloc: Global,
    words: &[&str],
    script: Script<'_>,
    disk: MemDisk,
    out: &mut K,
) -> Option<Ended<MemDisk>> {
    let words = words_of(alloc, words).ok()?;
    let places = places_of(alloc, &words).ok()?;
    let mut scripts = sources(alloc, &places, script).ok()?;
    Some(top(rt, alloc, &words, disk, &mut scripts, out, &OpenGate))
}

fn words_of(alloc: Global, words: &[&str]) -> Result<Vec<Vec<u8>>, AllocError> {
    let mut all = Vec::new(alloc);
    for word in words {
        all.push(Vec::from_slice(alloc, word.as_bytes())?)?;
    }
    Ok(all)
}

/// What a run came to: its status, the disk, and whether it told of entries.
#[derive(Drop)]
pub struct Outcome {
    pub status: Status,
    pub disk: MemDisk,
    pub is_quiet: bool,
}

fn came_of(ended: Ended<MemDisk>) -> Outcome {
    let is_quiet = ended.history.is_empty() && ended.told.is_empty();
    Outcome {
        status: ended.status,
        disk: ended.disk,
        is_quiet,
    }
}

/// Runs the top call on a disk, if there is one, with a sink.
pub fn came<R: Threads + Wait + Sync, K: Sink>(
    rt: &R,
    alloc: Global,
    words: &[&str],
    disk: Option<MemDisk>,
    out: &mut K,
) -> Option<Outcome> {
    let ended = run(rt, alloc, words, Script::of(""), disk?, out)?;
    Some(came_of(ended))
}

/// The status of a run with a sink, or nothing.
pub fn status_of<R: Threads + Wait + Sync, K: Sink>(
    rt: &R,
    alloc: Global,
    words: &[&str],
    disk: Option<MemDisk>,
    out: &mut K,
) -> Option<Status> {
    let came = came(rt, alloc, words, disk, out)?;
    Some(came.status)
}

/// What a run came to that told of no entry and printed this text; `None` where it did else.
fn quiet_run<R: Threads + Wait + Sync>(
    rt: &R,
    alloc: Global,
    words: &[&str],
    disk: Option<MemDisk>,
    text: &str,
) -> Option<Outcome> {
    let mut out = SureSink::new(alloc);
    let came = came(rt, alloc, words, disk, &mut out)?;
    if came.is_quiet && out.bytes() == text.as_bytes() {
        Some(came)
    } else {
        None
    }
}

/// The disk after a run that ended with this status and this text; `None` where it didn't.
pub fn after<R: Threads + Wait + Sync>(
    rt: &R,
    alloc: Global,
    words: &[&str],
    disk: Option<MemDisk>,
    status: Status,
    text: &str,
) -> Option<MemDisk> {
    let came = quiet_run(rt, alloc, words, disk, text)?;
    if came.status == status {
        Some(came.disk)
    } else {
        None
    }
}

/// The same with the status's number alone.
pub fn after_number<R: Threads + Wait + Sync>(
    rt: &R,
    alloc: Global,
    words: &[&str],
    disk: Option<MemDisk>,
    number: u8,
    text: &str,
) -> Option<MemDisk> {
    let came = quiet_run(rt, alloc, words, disk, text)?;
    if came.status.number() == number {
        Some(came.disk)
    } else {
        None
    }
}

/// Whether it refuses words at this place.
pub fn is_wrong_word<R: Threads + Wait + Sync>(
    rt: &R,
    alloc: Global,
    words: &[&str],
    place: u32,
    disk: Option<MemDisk>,
) -> Option<bool> {
    let text = format!(in alloc; "jfsd: usage: word {place}\n").ok()?;
    let status = Status::Usage { word: place };
    Some(after(rt, alloc, words, disk, status, text.as_str()).is_some())
}

/// The same disk, which fails so.
pub fn failing(alloc: Global, disk: Option<MemDisk>, fail: Fail) -> Option<MemDisk> {
    failing_all(alloc, disk, &[fail])
}

/// The same disk, which fails in these ways.
pub fn failing_all(alloc: Global, disk: Option<MemDisk>, fails: &[Fail]) -> Option<MemDisk> {
    let fails = Vec::from_slice(alloc, fails).ok()?;
    Some(disk?.with_fails(fails))
}

/// Calls of this kind on the whole disk fail from this one to that one.
pub fn fails_at(kind: Kind, first: u64, last: u64) -> Fail {
    Fail {
        part: Part::Whole,
        kind,
        first,
        last,
    }
}

#[test]
fn prints_the_superblock(rt: HostRuntime) {
    let alloc = rt.alloc();
    let words = ["super", "I"];
    let disk = after(&rt, alloc, &words, sound_disk(alloc), Status::Done, LINES);
    assert!(rt; disk.is_some());
    assert_eq!(rt; Status::Done.number(), 0);
}
