//! A new volume on which scripts are run. Its file system part has 3,008 blocks, and its log begins at page 3,072 and has 1,024 pages.

ghost use Rattle.std.specs.Prelude.{◌≤◌, length, IfSome};
ghost use Rattle.jfs_run.specs.Tasks.{plan_of, IsPlan};
ghost use Rattle.jfs_script.specs.History.{IsRisingFrom};
ghost use Rattle.jfs_script.specs.Script.{AllFit};
ghost use Rattle.jfs_super.specs.Rules.{IsAccepted};
ghost use Rattle.jfs_super.specs.Super.{FitsSuper};

use jfs_bits::Moment;
use jfs_check::check;
use jfs_disk::{Disk, Fail, MemDisk, Page, PageList};
use jfs_format::format;
use jfs_io::{Gate, OpenGate, SureSource};
use jfs_plain::Line;
use jfs_redo::redo;
use jfs_run::{Ran, run_lines};
use jfs_script::read_script;
use jfs_super::{Super, VolumeState, read_super};
use std::alloc::Global;
use std::sync::Wait;
use std::thread::Threads;
use uuid::Uuid;

/// The number of pages of the disk.
pub const PAGES: u32 = 4096;

/// The number of blocks of the file system part.
pub const BLOCKS: u32 = 3008;

/// The time of the formatting, and that of the runs.
pub const MADE: Moment = Moment { sec: 1000, nano: 7 };

pub const NOW: Moment = Moment { sec: 2000, nano: 9 };

/// The lines of a script.
pub fn lines_of(alloc: Global, text: &[u8]) -> Option<Vec<Line>>
    ensures { IfSome result (λ lines. AllFit lines.items) }
{
    let mut source = SureSource::new(Vec::from_slice(alloc, text).ok()?);
    read_script(alloc, &mut source).ok()
}

/// A disk with a new volume, on which these calls fail from now on.
pub fn formatted(alloc: Global, fails: &[Fail]) -> Option<MemDisk> {
    let mut disk = MemDisk::new(alloc, PAGES);
    if format(&mut disk, Uuid::from_bytes([7; 16]), b"rows", MADE).is_err() {
        return None;
    }
    failing(alloc, disk, fails)
}

/// The same disk, on which these calls fail from now on, and no others.
pub fn failing(alloc: Global, disk: MemDisk, fails: &[Fail]) -> Option<MemDisk> {
    Some(disk.with_fails(Vec::from_slice(alloc, fails).ok()?))
}

/// The superblock of a disk.
pub fn superblock<D: Disk>(disk: &mut D) -> Option<Super>
    ensures accepted { IfSome result (λ s. IsAccepted s (D.page_count disk.new)) }
    ensures fits { IfSome result FitsSuper }
{
    let pages = disk.pages();
    let mut page = Page::zeros();
    if pages < 9 || disk.read(8, &mut page).is_err() {
        return None;
    }
    read_super(&page, pages).ok()
}

/// Scripts are run on the volume of a disk in state 0, which is then left or unmounted.
pub fn ran_at_once<D: Disk + Send + Drop, G: Gate + Sync, R: Threads + Wait + Sync>(
    rt: &R,
    alloc: Global,
    disk: D,
    scripts: &[Vec<Line>],
    is_left: bool,
    gate: &G,
) -> Option<Ran<D>>
    requires { IsPlan (plan_of scripts.now) }
    ensures { IfSome result (λ r. IsRisingFrom 1 r.told.items) }
{
    let mut disk = disk;
    let pages = disk.pages();
    let mut page = Page::zeros();
    if pages < 9 || disk.read(8, &mut page).is_err() {
        return None;
    }
    let s = read_super(&page, pages).ok()?;
    if s.state != VolumeState::CLEAN {
        return None;
    }
    Some(run_lines(rt, alloc, disk, &s, scripts, NOW, is_left, gate))
}

/// The same of one script.
pub fn ran<D: Disk + Send + Drop, R: Threads + Wait + Sync>(
    rt: &R,
    alloc: Global,
    disk: D,
    lines: &[Line],
    is_left: bool,
) -> Option<Ran<D>>
    requires { AllFit lines.now }
    ensures { IfSome result (λ r. IsRisingFrom 1 r.told.items) }
{
    if lines.len() > 4096 {
        return None;
    }
    let scripts = one_script(alloc, lines)?;
    ran_at_once(rt, alloc, disk, &scripts, is_left, &OpenGate)
}

/// One script, of these lines.
fn one_script(alloc: Global, lines: &[Line]) -> Option<Vec<Vec<Line>>>
    requires fits { AllFit lines.now }
    requires few { length lines.now ≤ 4096 }
    ensures { IfSome result (λ scripts. IsPlan (plan_of scripts.items)) }
{
    let mut script = Vec::new(alloc);
    for line in lines {
        let request = line.request.copy(alloc).ok()?;
        let number = line.number;
        script.push(Line { number, request }).ok()?;
    }
    let mut scripts = Vec::new(alloc);
    scripts.push(script).ok()?;
    Some(scripts)
}

/// A disk that a run left, and how many of the script's lines have to be found on it: those up to the last one that was told.
#[derive(Drop)]
pub struct Ended {
    pub disk: MemDisk,
    pub told: usize,
}

/// What a run leaves of a new volume, where these calls of its disk fail. Where some do, it unmounts the volume at its end, unless one of them has stopped it.
pub fn left<R: Threads + Wait + Sync>(
    rt: &R,
    alloc: Global,
    lines: &[Line],
    fails: &[Fail],
) -> Option<Ended>
    requires { AllFit lines.now }
{
    let ran = ran(rt, alloc, formatted(alloc, fails)?, lines, fails.is_empty())?;
    let told = ran.told.as_slice().last().copied().unwrap_or(0);
    Some(Ended {
        disk: ran.disk,
        told: told as usize,
    })
}

/// Whether the volume says that it was unmounted.
pub fn is_unmounted<D: Disk>(disk: &mut D) -> bool {
    match superblock(disk) {
        Some(s) => s.state == VolumeState::CLEAN,
        None => false,
    }
}

/// Redoes the volume of a disk that wasn't unmounted; whether it was done, or there was nothing to do.
pub fn is_redone<D: Disk>(alloc: Global, disk: &mut D) -> bool {
    match superblock(disk) {
        Some(s) if s.state == VolumeState::MOUNTED => redo(alloc, disk, &s).is_ok(),
        Some(_) => true,
        None => false,
    }
}

/// Redoes the volume of a disk that wasn't unmounted, and tells how many transactions its log had.
pub fn transactions_redone<D: Disk>(alloc: Global, disk: &mut D) -> Option<u32> {
    let s = superblock(disk)?;
    if s.state != VolumeState::MOUNTED {
        return None;
    }
    Some(redo(alloc, disk, &s).ok()?.transactions)
}

/// Whether a check finds nothing.
pub fn is_sound<D: Disk>(alloc: Global, disk: &mut D) -> bool {
    let Some(s) = superblock(disk) else {
        return false;
    };
    match check(alloc, disk, &s) {
        Ok(checked) => checked.findings.is_empty(),
        Err(_) => false,
    }
}

/// All pages of a disk.
pub fn pages_of<D: Disk>(alloc: Global, disk: &mut D) -> Option<PageList> {
    let mut pages = PageList::new(alloc);
    for n in 0..disk.pages() {
        let mut page = Page::zeros();
        if n >= disk.pages() {
            return None;
        }
        disk.read(n, &mut page).ok()?;
        pages.push(page).ok()?;
    }
    Some(pages)
}
