//! The call that gives an object another name.

ghost use Rattle.std.specs.Prelude.{◌≡◌, length};
ghost use Rattle.jfs_disk.specs.Image.{page_of};
ghost use Rattle.jfs_plain.specs.Limits.{FitsPath};
ghost use Rattle.jfs_plain.specs.Step.{rename};
ghost use Rattle.jfs_create.specs.link.specs.Link.{want_of_name};
ghost use Rattle.jfs_files.specs.Outcome.{CarriesOutcome, KeepsMaps, MapsAfter, IfMounted, AnswersAs};
ghost use Rattle.jfs_files.specs.Written.{WritesNone, FreesOrTaken};
ghost use Rattle.jfs_files.specs.Renames.{outcome_by, MeetsRename};

use crate::outcome::FileOutcome;
use jfs_bits::Moment;
use jfs_map_files::Maps;
use jfs_name::Path;
use jfs_plain::{Refusal, Reply};
use jfs_ranges::PageView;
use jfs_rename::{Renamed, rename};
use std::alloc::Global;

/// What a rename is answered.
pub(crate) fn rename_outcome<V: PageView>(
    alloc: Global,
    view: &mut V,
    maps: &mut Maps,
    from: &Path,
    to: &Path,
    now: Moment,
) -> FileOutcome
    requires from { FitsPath from.now }
    requires to { FitsPath to.now }
    requires size { length maps.old.blocks.states ≡ V.PageView.block_count view.old }
    ensures image { V.PageView.tells → V.PageView.image view.new ≡ V.PageView.image view.old }
    ensures count_of_blocks { V.PageView.block_count view.new ≡ V.PageView.block_count view.old }
    ensures device { V.PageView.device view.new ≡ V.PageView.device view.old }
    ensures fault { CarriesOutcome (V.PageView.faults view.old) (V.PageView.faults view.new) result }
    ensures kept { KeepsMaps maps.old maps.new result }
    ensures maps { V.PageView.tells → MapsAfter maps.old maps.new result }
    ensures none { WritesNone result }
    ensures follows { V.PageView.tells → IfMounted (V.PageView.block_count view.old) (page_of (V.PageView.image view.old)) maps.old (λ v room.
        AnswersAs (V.PageView.block_count view.old) maps.old.blocks v (λ want. want ≡ want_of_name) (λ t. rename room t from.now to.now now) result) }
    ensures own { V.PageView.tells → IfMounted (V.PageView.block_count view.old) (page_of (V.PageView.image view.old)) maps.old (λ v room. FreesOrTaken v.used result) }
    ensures meets { V.PageView.tells → MeetsRename (V.PageView.block_count view.old) (page_of (V.PageView.image view.old)) maps.old from.now to.now now result }
{
    let limit = maps.file_limit;
    let names = from.as_slice();
    let others = to.as_slice();
    let came = rename(
        alloc,
        view,
        &mut maps.blocks,
        &maps.inodes,
        names,
        others,
        limit,
        now,
    );
    outcome_by(alloc, came)
}

/// What is done, or why it isn't.
fn outcome_by(alloc: Global, answer: Result<Renamed, Refusal>) -> FileOutcome
    ensures { result ≡ outcome_by answer }
{
    match answer {
        Ok(Renamed::Done(tx)) => FileOutcome::changed(alloc, tx),
        Ok(Renamed::Same) => FileOutcome::Same(Reply::Done),
        Ok(Renamed::NeedsLog) => FileOutcome::NeedsLog,
        Err(why) => FileOutcome::refused(why),
    }
}
