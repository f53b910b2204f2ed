//! Calls that put bytes into a file.

ghost use Rattle.std.specs.Prelude.{◌≡◌, length, replicate};
ghost use Rattle.jfs_disk.specs.Image.{page_of};
ghost use Rattle.jfs_plain.specs.Limits.{FitsPath, FitsBytes, FitsRange};
ghost use Rattle.jfs_plain.specs.Step.{write};
ghost use Rattle.jfs_write.specs.Call.{IsDeep};
ghost use Rattle.jfs_files.specs.Outcome.{CarriesOutcome, KeepsMaps, MapsAfter, IfMounted, AnswersOr, WantsBytes};
ghost use Rattle.jfs_files.specs.Written.{FitsData, FreesNothing, ChangesIfDone};
ghost use Rattle.jfs_files.specs.Bytes.{outcome_of, MeetsBytes, StartsWrite, StartsFill};

use crate::outcome::FileOutcome;
use jfs_bits::{Blob, Moment};
use jfs_map_files::Maps;
use jfs_name::Path;
use jfs_ranges::PageView;
use jfs_write::{Stop, Written, fill, write};
use std::alloc::Global;

/// What a write is answered.
pub(crate) fn write_outcome<V: PageView>(
    alloc: Global,
    view: &mut V,
    maps: &mut Maps,
    path: &Path,
    offset: u64,
    bytes: &Blob,
    now: Moment,
) -> FileOutcome
    requires path { FitsPath path.now }
    requires bytes { FitsBytes bytes.now }
    requires size { length maps.old.blocks.states ≡ V.PageView.block_count view.old }
    ensures image { V.PageView.tells → V.PageView.image view.new ≡ V.PageView.image view.old }
    ensures count_of_blocks { V.PageView.block_count view.new ≡ V.PageView.block_count view.old }
    ensures device { V.PageView.device view.new ≡ V.PageView.device view.old }
    ensures fault { CarriesOutcome (V.PageView.faults view.old) (V.PageView.faults view.new) result }
    ensures kept { KeepsMaps maps.old maps.new result }
    ensures maps { V.PageView.tells → MapsAfter maps.old maps.new result }
    ensures data { FitsData (V.PageView.block_count view.old) result }
    ensures frees { V.PageView.tells → FreesNothing result }
    ensures follows { V.PageView.tells → IfMounted (V.PageView.block_count view.old) (page_of (V.PageView.image view.old)) maps.old (λ v room.
        AnswersOr (IsDeep (V.PageView.block_count view.old) (page_of (V.PageView.image view.old)) maps.old.inodes path.now) (V.PageView.block_count view.old) maps.old.blocks v WantsBytes (λ t. write room t path.now offset bytes.now now) result) }
    ensures starts { V.PageView.tells → IfMounted (V.PageView.block_count view.old) (page_of (V.PageView.image view.old)) maps.old (λ v room. StartsWrite (V.PageView.block_count view.old) v path.now offset bytes.now result) }
    ensures changes { ChangesIfDone result }
    ensures meets { V.PageView.tells → MeetsBytes (V.PageView.block_count view.old) (page_of (V.PageView.image view.old)) maps.old path.now offset bytes.now (length bytes.now) now result }
{
    let limit = maps.file_limit;
    let names = path.as_slice();
    let content = bytes.as_slice();
    let came = write(
        alloc,
        view,
        &mut maps.blocks,
        &maps.inodes,
        names,
        offset,
        content,
        limit,
        now,
    );
    outcome_of(came)
}

/// What a fill is answered.
pub(crate) fn fill_outcome<V: PageView>(
    alloc: Global,
    view: &mut V,
    maps: &mut Maps,
    path: &Path,
    offset: u64,
    count: u32,
    byte: u8,
    now: Moment,
) -> FileOutcome
    requires path { FitsPath path.now }
    requires range { FitsRange 65536 offset count }
    requires size { length maps.old.blocks.states ≡ V.PageView.block_count view.old }
    ensures image { V.PageView.tells → V.PageView.image view.new ≡ V.PageView.image view.old }
    ensures count_of_blocks { V.PageView.block_count view.new ≡ V.PageView.block_count view.old }
    ensures device { V.PageView.device view.new ≡ V.PageView.device view.old }
    ensures fault { CarriesOutcome (V.PageView.faults view.old) (V.PageView.faults view.new) result }
    ensures kept { KeepsMaps maps.old maps.new result }
    ensures maps { V.PageView.tells → MapsAfter maps.old maps.new result }
    ensures data { FitsData (V.PageView.block_count view.old) result }
    ensures frees { V.PageView.tells → FreesNothing result }
    ensures follows { V.PageView.tells → IfMounted (V.PageView.block_count view.old) (page_of (V.PageView.image view.old)) maps.old (λ v room.
        AnswersOr (IsDeep (V.PageView.block_count view.old) (page_of (V.PageView.image view.old)) maps.old.inodes path.now) (V.PageView.block_count view.old) maps.old.blocks v WantsBytes (λ t. write room t path.now offset (replicate count byte) now) result) }
    ensures starts { V.PageView.tells → IfMounted (V.PageView.block_count view.old) (page_of (V.PageView.image view.old)) maps.old (λ v room. StartsFill (V.PageView.block_count view.old) v path.now offset count byte result) }
    ensures changes { ChangesIfDone result }
    ensures meets { V.PageView.tells → MeetsBytes (V.PageView.block_count view.old) (page_of (V.PageView.image view.old)) maps.old path.now offset (replicate count byte) count now result }
{
    let limit = maps.file_limit;
    let names = path.as_slice();
    let came = fill(
        alloc,
        view,
        &mut maps.blocks,
        &maps.inodes,
        names,
        offset,
        count,
        byte,
        limit,
        now,
    );
    outcome_of(came)
}

/// What is done, or why it isn't.
fn outcome_of(answer: Result<Written, Stop>) -> FileOutcome
    ensures { result ≡ outcome_of answer }
{
    match answer {
        Ok(out) => FileOutcome::Changed {
            tx: out.tx,
            blocks: out.blocks,
        },
        Err(Stop::NeedsLog) => FileOutcome::NeedsLog,
        Err(Stop::Refused(why)) => FileOutcome::refused(why),
    }
}
