//! A file call.

ghost use Rattle.std.specs.Prelude.{◌≡◌, true, false, length};
ghost use Rattle.jfs_disk.specs.Image.{page_of};
ghost use Rattle.jfs_plain.specs.Limits.{FitsRequest};
ghost use Rattle.jfs_plain.specs.Step.{outcome};
ghost use Rattle.jfs_files.specs.Outcome.{CarriesOutcome, KeepsMaps, MapsAfter, IfMounted, AnswersOr, Wants};
ghost use Rattle.jfs_files.specs.Written.{FitsData, puts_data, puts_bytes, WritesNone, WritesOnce, Starts, renames, FreesUsed, FreesOrTaken, ChangesBy};
ghost use Rattle.jfs_files.specs.Bytes.{bars};
ghost use Rattle.jfs_files.specs.Meets.{Meets};

use crate::bytes::{fill_outcome, write_outcome};
use crate::change::change_outcome;
use crate::naming::name_outcome;
use crate::outcome::FileOutcome;
use crate::renaming::rename_outcome;
use crate::reply::look_reply;
use crate::size::size_outcome;
use jfs_bits::Moment;
use jfs_map_files::Maps;
use jfs_plain::{Call, Reply, Request};
use jfs_ranges::PageView;
use std::alloc::Global;

/// What a call does to a mounted volume, whose pages the view shows, at this moment. The pages stay as they are: blocks that are to be written, and a transaction that is to be appended
/// then, are in the answer.
pub fn file_call<V: PageView>(
    alloc: Global,
    view: &mut V,
    maps: &mut Maps,
    request: &Request,
    now: Moment,
) -> FileOutcome
    requires fits { FitsRequest request.now }
    requires size { length maps.old.blocks.states ≡ V.PageView.block_count view.old }
    ensures image { V.PageView.tells → V.PageView.image view.new ≡ V.PageView.image view.old }
    ensures count_of_blocks { V.PageView.block_count view.new ≡ V.PageView.block_count view.old }
    ensures device { V.PageView.device view.new ≡ V.PageView.device view.old }
    ensures fault { CarriesOutcome (V.PageView.faults view.old) (V.PageView.faults view.new) result }
    // Of every view the maps change by a transaction alone, and then by blocks that were free.
    ensures kept { KeepsMaps maps.old maps.new result }
    // Exactly the blocks that the transaction takes are reserved beside those before, and nothing else of the maps changes.
    ensures maps { V.PageView.tells → MapsAfter maps.old maps.new result }
    // Blocks of files that are written before the transaction lie within the file system part, each with a whole page; calls on names and modes write none.
    ensures data { FitsData (V.PageView.block_count view.old) result }
    ensures none { puts_data request.now.call ≡ false → WritesNone result }
    // A truncate writes each of them once.
    ensures single { V.PageView.tells → puts_bytes request.now.call ≡ false → WritesOnce result }
    // On a consistent volume data and transaction take the plain step of its tree; a write or a fill is refused beside where the file's tree is too deep.
    ensures follows { V.PageView.tells → IfMounted (V.PageView.block_count view.old) (page_of (V.PageView.image view.old)) maps.old (λ v room.
        AnswersOr (bars (V.PageView.block_count view.old) (page_of (V.PageView.image view.old)) maps.old request.now.call) (V.PageView.block_count view.old) maps.old.blocks v (Wants maps.old request.now.call) (λ t. outcome room t request.now.call now) result) }
    // What is written before the transaction changes no object, and no byte but those that the call writes over.
    ensures starts { V.PageView.tells → IfMounted (V.PageView.block_count view.old) (page_of (V.PageView.image view.old)) maps.old (λ v room. Starts (V.PageView.block_count view.old) v request.now.call result) }
    // The transaction frees blocks in use alone, each once; but for a rename, which may free blocks that it took itself.
    ensures once { V.PageView.tells → renames request.now.call ≡ false → IfMounted (V.PageView.block_count view.old) (page_of (V.PageView.image view.old)) maps.old (λ v room. FreesUsed v.used result) }
    ensures own { V.PageView.tells → IfMounted (V.PageView.block_count view.old) (page_of (V.PageView.image view.old)) maps.old (λ v room. FreesOrTaken v.used result) }
    // Of the calls that may change the tree, a rename alone is done without a change; the others are answered by a reply alone.
    ensures changes { ChangesBy request.now.call result }
    // On any volume it is what the pages on the call's ways give, and the first of them that breaks a rule is named.
    ensures meets { V.PageView.tells → Meets (V.PageView.block_count view.old) (page_of (V.PageView.image view.old)) maps.old request.now.call now result }
{
    let call = &request.call;
    match call {
        Call::Mkdir { .. } | Call::Create { .. } | Call::Symlink { .. } | Call::Link { .. } => {
            name_outcome(alloc, view, maps, call, now)
        }
        Call::Rename { from, to } => rename_outcome(alloc, view, maps, from, to, now),
        Call::Unlink { .. } | Call::Rmdir { .. } | Call::Chmod { .. } => {
            change_outcome(alloc, view, maps, call, now)
        }
        Call::Write {
            path,
            offset,
            bytes,
        } => write_outcome(alloc, view, maps, path, *offset, bytes, now),
        Call::Fill {
            path,
            offset,
            count,
            byte,
        } => fill_outcome(alloc, view, maps, path, *offset, *count, *byte, now),
        Call::Truncate { path, size } => size_outcome(alloc, view, maps, path, *size, now),
        Call::Stat { .. } | Call::List { .. } | Call::Readlink { .. } | Call::Read { .. } => {
            FileOutcome::Same(look_reply(alloc, view, &maps.inodes, call))
        }
        Call::Sync => FileOutcome::Same(Reply::Done),
    }
}
