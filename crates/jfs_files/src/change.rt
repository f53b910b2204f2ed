//! Calls that change the tree and take no block.

ghost use Rattle.std.specs.Prelude.{◌≡◌, true, length};
ghost use Rattle.jfs_disk.specs.Image.{page_of};
ghost use Rattle.jfs_plain.specs.Limits.{FitsCall};
ghost use Rattle.jfs_plain.specs.Step.{outcome};
ghost use Rattle.jfs_files.specs.Outcome.{CarriesOutcome, MapsAfter, IfMounted, AnswersAs, Wants};
ghost use Rattle.jfs_files.specs.Written.{WritesNone, FreesUsed, ChangesIfDone};
ghost use Rattle.jfs_files.specs.Meets.{Meets, takes_none};

use crate::outcome::FileOutcome;
use jfs_bits::Moment;
use jfs_chmod::change_mode;
use jfs_map_files::Maps;
use jfs_plain::Call;
use jfs_ranges::PageView;
use jfs_rename::unlink::{remove_directory, unlink};
use std::alloc::Global;

/// What `unlink`, `rmdir` and `chmod` are answered.
pub(crate) fn change_outcome<V: PageView>(
    alloc: Global,
    view: &mut V,
    maps: &Maps,
    call: &Call,
    now: Moment,
) -> FileOutcome
    requires fits { FitsCall call.now }
    requires none { takes_none call.now ≡ true }
    requires size { length maps.now.blocks.states ≡ V.PageView.block_count view.old }
    ensures image { V.PageView.tells → V.PageView.image view.new ≡ V.PageView.image view.old }
    ensures count_of_blocks { V.PageView.block_count view.new ≡ V.PageView.block_count view.old }
    ensures device { V.PageView.device view.new ≡ V.PageView.device view.old }
    ensures fault { CarriesOutcome (V.PageView.faults view.old) (V.PageView.faults view.new) result }
    ensures maps { V.PageView.tells → MapsAfter maps.now maps.now result }
    ensures none { WritesNone result }
    ensures follows { V.PageView.tells → IfMounted (V.PageView.block_count view.old) (page_of (V.PageView.image view.old)) maps.now (λ v room.
        AnswersAs (V.PageView.block_count view.old) maps.now.blocks v (Wants maps.now call.now) (λ t. outcome room t call.now now) result) }
    ensures once { V.PageView.tells → IfMounted (V.PageView.block_count view.old) (page_of (V.PageView.image view.old)) maps.now (λ v room. FreesUsed v.used result) }
    ensures changes { ChangesIfDone result }
    ensures meets { V.PageView.tells → Meets (V.PageView.block_count view.old) (page_of (V.PageView.image view.old)) maps.now call.now now result }
{
    let limit = maps.file_limit;
    let inodes = &maps.inodes;
    match call {
        Call::Unlink { path } => match unlink(alloc, view, inodes, path.as_slice(), limit, now) {
            Ok(tx) => FileOutcome::changed(alloc, tx),
            Err(e) => FileOutcome::refused(e),
        },
        Call::Rmdir { path } => {
            match remove_directory(alloc, view, inodes, path.as_slice(), now) {
                Ok(tx) => FileOutcome::changed(alloc, tx),
                Err(e) => FileOutcome::refused(e),
            }
        }
        Call::Chmod { path, mode } => {
            match change_mode(alloc, view, inodes, path.as_slice(), *mode, now) {
                Ok(tx) => FileOutcome::changed(alloc, tx),
                Err(e) => FileOutcome::refused(e),
            }
        }
        _ => unreachable!(),
    }
}
