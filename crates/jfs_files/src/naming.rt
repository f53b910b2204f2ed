//! Calls that give a name, to a new object or to one that is there.

ghost use Rattle.std.specs.Prelude.{◌≡◌, true, length};
ghost use Rattle.jfs_disk.specs.Image.{page_of};
ghost use Rattle.jfs_plain.specs.Limits.{FitsCall, FitsPath};
ghost use Rattle.jfs_plain.specs.Step.{outcome, link};
ghost use Rattle.jfs_create.specs.New.{FitsNew};
ghost use Rattle.jfs_create.specs.Makes.{plain_of};
ghost use Rattle.jfs_create.specs.link.specs.Link.{want_of_name};
ghost use Rattle.jfs_files.specs.Outcome.{CarriesOutcome, KeepsMaps, MapsAfter, IfMounted, AnswersAs, Wants, WantsInode};
ghost use Rattle.jfs_files.specs.Written.{WritesNone, FreesNothing, ChangesIfDone};
ghost use Rattle.jfs_files.specs.Meets.{Meets, MeetsNew, MeetsLink, gives_name};

use crate::outcome::FileOutcome;
use jfs_bits::Moment;
use jfs_create::link::{Linked, link};
use jfs_create::{NewObject, Stop, make_object};
use jfs_map_files::Maps;
use jfs_name::Path;
use jfs_plain::Call;
use jfs_ranges::PageView;
use std::alloc::Global;

/// What `mkdir`, `create`, `symlink` and `link` are answered.
pub(crate) fn name_outcome<V: PageView>(
    alloc: Global,
    view: &mut V,
    maps: &mut Maps,
    call: &Call,
    now: Moment,
) -> FileOutcome
    requires fits { FitsCall call.now }
    requires name { gives_name call.now ≡ true }
    requires size { length maps.old.blocks.states ≡ V.PageView.block_count view.old }
    ensures image { V.PageView.tells → V.PageView.image view.new ≡ V.PageView.image view.old }
    ensures count_of_blocks { V.PageView.block_count view.new ≡ V.PageView.block_count view.old }
    ensures device { V.PageView.device view.new ≡ V.PageView.device view.old }
    ensures fault { CarriesOutcome (V.PageView.faults view.old) (V.PageView.faults view.new) result }
    ensures kept { KeepsMaps maps.old maps.new result }
    ensures maps { V.PageView.tells → MapsAfter maps.old maps.new result }
    ensures none { WritesNone result }
    ensures frees { V.PageView.tells → FreesNothing result }
    ensures follows { V.PageView.tells → IfMounted (V.PageView.block_count view.old) (page_of (V.PageView.image view.old)) maps.old (λ v room.
        AnswersAs (V.PageView.block_count view.old) maps.old.blocks v (Wants maps.old call.now) (λ t. outcome room t call.now now) result) }
    ensures changes { ChangesIfDone result }
    ensures meets { V.PageView.tells → Meets (V.PageView.block_count view.old) (page_of (V.PageView.image view.old)) maps.old call.now now result }
{
    match call {
        Call::Mkdir { path, mode } => {
            let object = NewObject::Directory { mode: *mode };
            new_outcome(alloc, view, maps, path, object, now)
        }
        Call::Create { path, mode } => {
            let object = NewObject::File { mode: *mode };
            new_outcome(alloc, view, maps, path, object, now)
        }
        Call::Symlink { path, target } => {
            let object = NewObject::Link {
                target: target.as_slice(),
            };
            new_outcome(alloc, view, maps, path, object, now)
        }
        Call::Link { from, to } => link_outcome(alloc, view, maps, from, to, now),
        _ => unreachable!(),
    }
}

/// What a call that makes an object is answered.
fn new_outcome<V: PageView>(
    alloc: Global,
    view: &mut V,
    maps: &mut Maps,
    path: &Path,
    object: NewObject<'_>,
    now: Moment,
) -> FileOutcome
    requires path { FitsPath path.now }
    requires object { FitsNew object }
    requires size { length maps.old.blocks.states ≡ V.PageView.block_count view.old }
    ensures image { V.PageView.tells → V.PageView.image view.new ≡ V.PageView.image view.old }
    ensures count_of_blocks { V.PageView.block_count view.new ≡ V.PageView.block_count view.old }
    ensures device { V.PageView.device view.new ≡ V.PageView.device view.old }
    ensures fault { CarriesOutcome (V.PageView.faults view.old) (V.PageView.faults view.new) result }
    ensures kept { KeepsMaps maps.old maps.new result }
    ensures maps { V.PageView.tells → MapsAfter maps.old maps.new result }
    ensures none { WritesNone result }
    ensures frees { V.PageView.tells → FreesNothing result }
    ensures follows { V.PageView.tells → IfMounted (V.PageView.block_count view.old) (page_of (V.PageView.image view.old)) maps.old (λ v room.
        AnswersAs (V.PageView.block_count view.old) maps.old.blocks v (WantsInode maps.old) (λ t. plain_of object.entry room t path.now now) result) }
    ensures changes { ChangesIfDone result }
    ensures meets { V.PageView.tells → MeetsNew (V.PageView.block_count view.old) (page_of (V.PageView.image view.old)) maps.old path.now now result object.entry }
{
    let blocks = &mut maps.blocks;
    match make_object(
        alloc,
        view,
        blocks,
        &maps.inodes,
        path.as_slice(),
        object,
        now,
    ) {
        Ok(tx) => FileOutcome::changed(alloc, tx),
        Err(Stop::NeedsLog) => FileOutcome::NeedsLog,
        Err(Stop::Refused(e)) => FileOutcome::refused(e),
    }
}

/// What a link is answered.
fn link_outcome<V: PageView>(
    alloc: Global,
    view: &mut V,
    maps: &mut Maps,
    from: &Path,
    to: &Path,
    now: Moment,
) -> FileOutcome
    requires from { FitsPath from.now }
    requires to { FitsPath to.now }
    requires size { length maps.old.blocks.states ≡ V.PageView.block_count view.old }
    ensures image { V.PageView.tells → V.PageView.image view.new ≡ V.PageView.image view.old }
    ensures count_of_blocks { V.PageView.block_count view.new ≡ V.PageView.block_count view.old }
    ensures device { V.PageView.device view.new ≡ V.PageView.device view.old }
    ensures fault { CarriesOutcome (V.PageView.faults view.old) (V.PageView.faults view.new) result }
    ensures kept { KeepsMaps maps.old maps.new result }
    ensures maps { V.PageView.tells → MapsAfter maps.old maps.new result }
    ensures none { WritesNone result }
    ensures frees { V.PageView.tells → FreesNothing result }
    ensures follows { V.PageView.tells → IfMounted (V.PageView.block_count view.old) (page_of (V.PageView.image view.old)) maps.old (λ v room.
        AnswersAs (V.PageView.block_count view.old) maps.old.blocks v (λ want. want ≡ want_of_name) (λ t. link room t from.now to.now now) result) }
    ensures changes { ChangesIfDone result }
    ensures meets { V.PageView.tells → MeetsLink (V.PageView.block_count view.old) (page_of (V.PageView.image view.old)) maps.old from.now to.now now result }
{
    let linked = link(
        alloc,
        view,
        &mut maps.blocks,
        &maps.inodes,
        from.as_slice(),
        to.as_slice(),
        now,
    );
    match linked {
        Ok(Linked::Done(tx)) => FileOutcome::changed(alloc, tx),
        Ok(Linked::NeedsLog) => FileOutcome::NeedsLog,
        Err(e) => FileOutcome::refused(e),
    }
}
