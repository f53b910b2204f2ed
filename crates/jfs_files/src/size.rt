//! The call that gives a file another size.

ghost use Rattle.std.specs.Prelude.{◌≡◌, length};
ghost use Rattle.jfs_disk.specs.Image.{page_of};
ghost use Rattle.jfs_plain.specs.Limits.{FitsPath};
ghost use Rattle.jfs_plain.specs.Step.{truncate};
ghost use Rattle.jfs_files.specs.Outcome.{CarriesOutcome, MapsAfter, IfMounted, AnswersAs, nothing};
ghost use Rattle.jfs_files.specs.Written.{FitsData, WritesOnce, StartsSize, FreesUsed, ChangesIfDone};
ghost use Rattle.jfs_files.specs.Meets.{MeetsSize};

use crate::outcome::FileOutcome;
use jfs_bits::Moment;
use jfs_map_files::Maps;
use jfs_name::Path;
use jfs_ranges::PageView;
use jfs_truncate::truncate;
use std::alloc::Global;

/// What a truncate is answered.
pub(crate) fn size_outcome<V: PageView>(
    alloc: Global,
    view: &mut V,
    maps: &Maps,
    path: &Path,
    end: u64,
    now: Moment,
) -> FileOutcome
    requires path { FitsPath path.now }
    requires size { length maps.now.blocks.states ≡ V.PageView.block_count view.old }
    ensures image { V.PageView.tells → V.PageView.image view.new ≡ V.PageView.image view.old }
    ensures count_of_blocks { V.PageView.block_count view.new ≡ V.PageView.block_count view.old }
    ensures device { V.PageView.device view.new ≡ V.PageView.device view.old }
    ensures fault { CarriesOutcome (V.PageView.faults view.old) (V.PageView.faults view.new) result }
    ensures maps { V.PageView.tells → MapsAfter maps.now maps.now result }
    ensures data { FitsData (V.PageView.block_count view.old) result }
    ensures single { V.PageView.tells → WritesOnce result }
    ensures follows { V.PageView.tells → IfMounted (V.PageView.block_count view.old) (page_of (V.PageView.image view.old)) maps.now (λ v room.
        AnswersAs (V.PageView.block_count view.old) maps.now.blocks v (λ want. want ≡ nothing) (λ t. truncate room t path.now end now) result) }
    ensures starts { V.PageView.tells → IfMounted (V.PageView.block_count view.old) (page_of (V.PageView.image view.old)) maps.now (λ v room. StartsSize (V.PageView.block_count view.old) v path.now end result) }
    ensures once { V.PageView.tells → IfMounted (V.PageView.block_count view.old) (page_of (V.PageView.image view.old)) maps.now (λ v room. FreesUsed v.used result) }
    ensures changes { ChangesIfDone result }
    ensures meets { V.PageView.tells → MeetsSize (V.PageView.block_count view.old) (page_of (V.PageView.image view.old)) maps.now path.now end now result }
{
    let limit = maps.file_limit;
    let names = path.as_slice();
    match truncate(alloc, view, &maps.inodes, names, end, limit, now) {
        Ok(out) => FileOutcome::Changed {
            tx: out.tx,
            blocks: out.blocks,
        },
        Err(e) => FileOutcome::refused(e),
    }
}
