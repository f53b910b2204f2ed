//! A run on the volume of a disk.

ghost use Rattle.std.specs.Prelude.{◌≡◌, ◌≤◌, ◌<◌, ◌+◌, [], vec_capacity, IfOk};
ghost use Rattle.jfs_disk.specs.Crash.{last_of, seen_of};
ghost use Rattle.jfs_disk.specs.Image.{page_of};
ghost use Rattle.jfs_disk.specs.Moment.{IsResting};
ghost use Rattle.jfs_super.specs.Rules.{IsAccepted};
ghost use Rattle.jfs_super.specs.Super.{super_of, FitsSuper};
ghost use Rattle.jfs_super.specs.declared.fields.TheConstants.VolumeState.{CLEAN};
ghost use Rattle.jfs_script.specs.History.{IsRisingFrom};
ghost use Rattle.jfs_server.specs.shared.specs.Start.{IsJustMounted};
ghost use Rattle.jfs_server.specs.shared.specs.kept_history.specs.Keepable.{IsKeepableImage};
ghost use Rattle.jfs_server.specs.shared.specs.kept_history.specs.mounted_maps.specs.Keepable.{IsKeepable};
ghost use Rattle.jfs_server.specs.shared.specs.legal.specs.served.specs.mounted.specs.declared.mounted.MountError.{MountError};
ghost use Rattle.jfs_server.specs.shared.specs.legal.specs.served.specs.volume_calls.specs.Together.{log_parts};
ghost use Rattle.jfs_mount.specs.meaning.specs.Image.{IsConsistentImage};
ghost use Rattle.jfs_run.specs.Left.{LeavesRun, IsLeftNeverMounted};
ghost use Rattle.jfs_run.specs.Legal.{IsLegalRun, LeavesImage, IfUnmounted};
ghost use Rattle.jfs_run.specs.Run.{RunIs, seen};
ghost use Rattle.jfs_run.specs.Serving.{HaveRoom};
ghost use Rattle.jfs_run.specs.Tasks.{plan_of, lines_in, IsPlan};
ghost use Rattle.jfs_run.specs.Ending.{RunSince, is_home, is_full, are_through, end_after, end_of, TakesBy};

use crate::count::lines_in;
use crate::ending::end;
use crate::serving::{Called, serve};
use crate::telling::tell;
use jfs_bits::Moment;
use jfs_disk::{Disk, DiskError, Page};
use jfs_io::Gate;
use jfs_mount::BadMount;
use jfs_plain::{Entry, Line};
use jfs_server::unmount::{MountError, Mounted, mount};
use jfs_server::{Ending, MountedFrom};
use jfs_super::Super;
use std::alloc::{AllocError, Global};
use std::marker::Brand;
use std::sync::Wait;
use std::thread::Threads;

/// The page of the superblock.
const SUPERBLOCK: u32 = 8;

/// How a run on a volume ended.
#[derive(Clone, Copy, PartialEq, Eq, Debug)]
pub enum RunEnd {
    /// Each line has its entry, and no call on the disk failed.
    Done,
    /// A rule of a mount is broken, the first one. Nothing was written.
    BadImage(BadMount),
    /// A call on the disk failed: before the mount was done, and then there is no entry; or later, and then each line has its entry.
    Disk,
    /// Memory ran out, the log's pages have no more numbers, or the log can't have a call's records even when it is empty.
    Memory,
}

/// What a run did: the disk in one piece, how it ended, the calls in their order, and the numbers of the entries that were told durable, rising.
#[derive(Drop)]
pub struct Ran<D> {
    pub disk: D,
    pub end: RunEnd,
    pub history: Vec<Entry>,
    pub told: Vec<u64>,
}

/// What a run takes before the mount, so that later it can end for want of it only at a call: the superblock's page, room for the numbers that are told, and for each client room for a mark of each of its entries.
#[derive(Drop)]
struct Taken {
    superblock: Page,
    told: Vec<u64>,
    marks: Vec<Vec<bool>>,
}

/// Mounts the volume of a disk in state 0, whose superblock is the one given, does the calls of the clients' scripts, all clients at once and each call at the same moment, the first script's by client 1 and so on, and
/// ends the volume: all its pages go home and it is unmounted, also where memory ran out, unless it is to be left or has halted.
pub fn run_lines<D: Disk + Send, G: Gate + Sync, R: Threads + Wait + Sync>(
    rt: &R,
    alloc: Global,
    disk: D,
    s: &Super,
    scripts: &[Vec<Line>],
    now: Moment,
    is_left: bool,
    gate: &G,
) -> Ran<D>
    requires accepted { IsAccepted s.now (D.page_count disk) }
    requires fits { FitsSuper s.now }
    requires clean { s.now.state ≡ CLEAN }
    requires spelled { D.tells → super_of (page_of (D.image disk) 8) ≡ s.now }
    requires plan { IsPlan (plan_of scripts.now) }
    ensures ran { RunIs D.tells D.tells_crashes s.now (plan_of scripts.now) is_left (seen D.Disk disk) (seen D.Disk result.disk) (record { history = result.history.items; told = result.told.items }) result.end }
    // Of a disk that tells its contents and is a consistent image, the replies are those of a plain file tree.
    ensures legal { D.tells → IsConsistentImage s.now (page_of (D.image disk)) → IsLegalRun s.now (page_of (D.image disk)) now result.history.items }
    // What such a run leaves where it is done, and the volume wasn't to be left: an image of the tree behind the last reply.
    ensures leaves { D.tells → IfUnmounted result.end is_left (LeavesImage s.now (D.image disk) now result.history.items (D.image result.disk)) }
    // It is keepable again, so that the next run is kept as this one is.
    ensures again { D.tells → D.tells_crashes → IsKeepableImage s.now (D.image disk) → IfUnmounted result.end is_left (IsKeepable s.now (page_of (D.image result.disk))) }
    // What a crash leaves of the disk, however the run ended. Redo makes of it what the first entries leave, all told ones among them; or it is the image of a volume that was unmounted. A run that was stopped may have called nothing instead, and then it has the image's tree, or is redone to that, if nothing was pending before.
    ensures left { D.tells → D.tells_crashes → IsKeepableImage s.now (D.image disk) → LeavesRun (IsLeftNeverMounted s.now (D.image disk) (D.image result.disk) (IsResting (last_of (D.past disk))) (last_of (D.past result.disk))) s.now (D.image disk) now is_left (record { history = result.history.items; told = result.told.items }) (last_of (D.past result.disk)) result.end }
    // so that the text of a history may be written
    ensures rising { IsRisingFrom 1 result.told.items }
    ensures pages { D.page_count result.disk ≡ D.page_count disk }
    ensures later { D.fault_count disk ≤ D.fault_count result.disk }
{
    run_from::<Brand, D, G, R>(rt, alloc, disk, s, scripts, now, is_left, gate)
}

/// The same, of a disk with the image `I.image` and the superblock `I.block`.
fn run_from<I: MountedFrom, D: Disk + Send, G: Gate + Sync, R: Threads + Wait + Sync>(
    rt: &R,
    alloc: Global,
    disk: D,
    s: &Super,
    scripts: &[Vec<Line>],
    now: Moment,
    is_left: bool,
    gate: &G,
) -> Ran<D>
    requires image { (I.image ≡ D.image disk) × (I.block ≡ s.now) }
    requires accepted { IsAccepted s.now (D.page_count disk) }
    requires fits { FitsSuper s.now }
    requires clean { s.now.state ≡ CLEAN }
    requires spelled { D.tells → super_of (page_of (D.image disk) 8) ≡ s.now }
    requires plan { IsPlan (plan_of scripts.now) }
    ensures ran { RunIs D.tells D.tells_crashes s.now (plan_of scripts.now) is_left (seen D.Disk disk) (seen D.Disk result.disk) (record { history = result.history.items; told = result.told.items }) result.end }
    // Of a disk that tells its contents and is a consistent image, the replies are those of a plain file tree.
    ensures legal { D.tells → IsConsistentImage s.now (page_of (D.image disk)) → IsLegalRun s.now (page_of (D.image disk)) now result.history.items }
    // What such a run leaves where it is done, and the volume wasn't to be left: an image of the tree behind the last reply.
    ensures leaves { D.tells → IfUnmounted result.end is_left (LeavesImage s.now (D.image disk) now result.history.items (D.image result.disk)) }
    // It is keepable again, so that the next run is kept as this one is.
    ensures again { D.tells → D.tells_crashes → IsKeepableImage s.now (D.image disk) → IfUnmounted result.end is_left (IsKeepable s.now (page_of (D.image result.disk))) }
    // What a crash leaves of the disk, however the run ended. Redo makes of it what the first entries leave, all told ones among them; or it is the image of a volume that was unmounted. A run that was stopped may have called nothing instead, and then it has the image's tree, or is redone to that, if nothing was pending before.
    ensures left { D.tells → D.tells_crashes → IsKeepableImage s.now (D.image disk) → LeavesRun (IsLeftNeverMounted s.now (D.image disk) (D.image result.disk) (IsResting (last_of (D.past disk))) (last_of (D.past result.disk))) s.now (D.image disk) now is_left (record { history = result.history.items; told = result.told.items }) (last_of (D.past result.disk)) result.end }
    // so that the text of a history may be written
    ensures rising { IsRisingFrom 1 result.told.items }
    ensures pages { D.page_count result.disk ≡ D.page_count disk }
    ensures later { D.fault_count disk ≤ D.fault_count result.disk }
{
    let mut disk = disk;
    let before = disk.faults();
    let taken = match take(alloc, &mut disk, scripts) {
        Ok(taken) => taken,
        Err(end) => return without_entries(alloc, disk, end),
    };
    match mount(alloc, disk, s) {
        Ok(m) => run_mounted::<I, D, G, R>(
            rt, alloc, m, taken, scripts, now, is_left, gate, before,
        ),
        Err(not) => without_entries(alloc, not.disk, end_of(not.why)),
    }
}

/// What a run of these scripts takes.
fn take<D: Disk>(alloc: Global, disk: &mut D, scripts: &[Vec<Line>]) -> Result<Taken, RunEnd>
    requires there { 8 < D.page_count disk.old }
    requires few { lines_in (plan_of scripts.now) ≤ 65536 }
    ensures taken { IfOk result (λ taken. (D.tells → taken.superblock.0 ≡ page_of (D.image disk.old) 8) × (taken.told.items ≡ []) × (lines_in (plan_of scripts.now) ≤ vec_capacity taken.told) × HaveRoom scripts.now taken.marks.items) }
    ensures cause { TakesBy (D.fault_count disk.old) (D.fault_count disk.new) result }
    ensures pages { D.page_count disk.new ≡ D.page_count disk.old }
    ensures image { D.tells → D.image disk.new ≡ D.image disk.old }
    ensures past { D.tells_crashes → D.past disk.new ≡ D.past disk.old }
    // A read gives what is pending.
    ensures seen { D.tells_crashes → D.image disk.old ≡ seen_of (last_of (D.past disk.old)) }
{
    let Ok((told, marks)) = room(alloc, scripts) else {
        return Err(RunEnd::Memory);
    };
    let mut superblock = Page::zeros();
    match disk.read(SUPERBLOCK, &mut superblock) {
        Ok(()) => Ok(Taken {
            superblock,
            told,
            marks,
        }),
        Err(DiskError::Failed) => Err(RunEnd::Disk),
        Err(DiskError::Memory) => Err(RunEnd::Memory),
    }
}

/// Room for the numbers and the marks of all lines.
fn room(alloc: Global, scripts: &[Vec<Line>]) -> Result<(Vec<u64>, Vec<Vec<bool>>), AllocError>
    requires few { lines_in (plan_of scripts.now) ≤ 65536 }
    ensures { IfOk result (λ taken. (taken.0.items ≡ []) × (lines_in (plan_of scripts.now) ≤ vec_capacity taken.0) × HaveRoom scripts.now taken.1.items) }
{
    let told = Vec::with_capacity(alloc, lines_in(scripts))?;
    let marks = room_for_marks(alloc, scripts)?;
    Ok((told, marks))
}

/// For each script room for a mark of each of its lines.
fn room_for_marks(alloc: Global, scripts: &[Vec<Line>]) -> Result<Vec<Vec<bool>>, AllocError>
    ensures { IfOk result (λ marks. HaveRoom scripts.now marks.items) }
{
    let mut marks = Vec::with_capacity(alloc, scripts.len())?;
    for script in scripts {
        let waits = Vec::with_capacity(alloc, script.len())?;
        marks.push_reserved(waits);
    }
    Ok(marks)
}

/// A run that called nothing.
fn without_entries<D: Disk>(alloc: Global, disk: D, end: RunEnd) -> Ran<D>
    ensures disk { result.disk ≡ disk }
    ensures end { result.end ≡ end }
    ensures history { result.history.items ≡ [] }
    ensures told { result.told.items ≡ [] }
{
    Ran {
        disk,
        end,
        history: Vec::new(alloc),
        told: Vec::new(alloc),
    }
}

/// How a run ended of which no volume was mounted.
fn end_of(why: MountError) -> RunEnd
    ensures { result ≡ end_of why }
{
    match why {
        MountError::BadImage(bad) => RunEnd::BadImage(bad),
        MountError::Disk(_) => RunEnd::Disk,
        MountError::Memory => RunEnd::Memory,
    }
}

/// The calls of the clients' scripts on a mounted volume, and its end. `before` is how often calls on the disk had failed before the run.
fn run_mounted<I: MountedFrom, D: Disk + Send, G: Gate + Sync, R: Threads + Wait + Sync>(
    rt: &R,
    alloc: Global,
    m: Mounted<D>,
    taken: Taken,
    scripts: &[Vec<Line>],
    now: Moment,
    is_left: bool,
    gate: &G,
    before: u64,
) -> Ran<D>
    requires plan { IsPlan (plan_of scripts.now) }
    requires mounted { IsJustMounted D.tells D.tells_crashes I.block I.image m.volume (log_parts D.Disk m.log) }
    requires there { 8 < m.volume.count }
    requires room { m.volume.count + D.page_count m.log.part ≤ m.volume.room }
    requires before { m.volume.faults + D.fault_count m.log.part ≡ before }
    requires none { taken.told.items ≡ [] }
    requires capacity { (lines_in (plan_of scripts.now) ≤ vec_capacity taken.told) × HaveRoom scripts.now taken.marks.items }
    ensures ran { RunSince D.tells D.tells_crashes taken.superblock.0 (plan_of scripts.now) is_left before (seen D.Disk result.disk) (record { history = result.history.items; told = result.told.items }) result.end }
    ensures legal { D.tells → IsConsistentImage I.block (page_of I.image) → IsLegalRun I.block (page_of I.image) now result.history.items }
    ensures leaves { D.tells → super_of taken.superblock.0 ≡ record I.block { state = CLEAN } → IfUnmounted result.end is_left (LeavesImage I.block I.image now result.history.items (D.image result.disk)) }
    ensures again { D.tells → D.tells_crashes → IsKeepableImage I.block I.image → super_of taken.superblock.0 ≡ record I.block { state = CLEAN } → IfUnmounted result.end is_left (IsKeepable I.block (page_of (D.image result.disk))) }
    ensures left { D.tells → D.tells_crashes → IsKeepableImage I.block I.image → super_of taken.superblock.0 ≡ record I.block { state = CLEAN } → LeavesRun ⊥ I.block I.image now is_left (record { history = result.history.items; told = result.told.items }) (last_of (D.past result.disk)) result.end }
    ensures rising { IsRisingFrom 1 result.told.items }
    ensures pages { D.page_count result.disk ≡ m.volume.count + D.page_count m.log.part }
    ensures later { before ≤ D.fault_count result.disk }
{
    let Taken {
        superblock,
        mut told,
        mut marks,
    } = taken;
    let Called {
        mounted,
        history,
        is_whole,
        is_broken_off,
        failed: _,
        ending,
    } = serve::<I, D, G, R>(rt, alloc, m, &mut marks, scripts, now, is_left, gate);
    tell(
        history.as_slice(),
        marks.as_slice(),
        mounted.log.durable(),
        &mut told,
    );
    let disk = end(mounted, &superblock, is_home(ending));
    let is_through = are_through(is_whole, is_broken_off);
    let end = end_after(is_through, is_full(ending), before, disk.faults());
    Ran {
        disk,
        end,
        history,
        told,
    }
}

/// Whether all pages are home.
fn is_home(ending: Ending) -> bool
    ensures { result ≡ is_home ending }
{
    match ending {
        Ending::Home => true,
        Ending::Left | Ending::Full => false,
    }
}

/// Whether the log's pages have no more numbers.
fn is_full(ending: Ending) -> bool
    ensures { result ≡ is_full ending }
{
    match ending {
        Ending::Full => true,
        Ending::Home | Ending::Left => false,
    }
}

/// Whether each line has its entry, and the history goes on.
fn are_through(is_whole: bool, is_broken_off: bool) -> bool
    ensures { result ≡ are_through is_whole is_broken_off }
{
    is_whole && !is_broken_off
}

/// How a run ended whose volume was mounted. A count at its last value counts as one that rose; a log whose pages have no more numbers counts as want of memory.
fn end_after(is_through: bool, is_full: bool, before: u64, now: u64) -> RunEnd
    ensures { result ≡ end_after is_through is_full before now }
{
    if !is_through {
        RunEnd::Memory
    } else if now != before || now == u64::MAX {
        RunEnd::Disk
    } else if is_full {
        RunEnd::Memory
    } else {
        RunEnd::Done
    }
}
