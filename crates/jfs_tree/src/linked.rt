//! Calls on a whole tree that leave its pages linked.

ghost use Rattle.std.specs.Prelude.{◌≡◌, ◌+◌, ◌<◌, ◌≤◌, ◌++◌, [], ℕ, Bool, List, length, drop, OnOk, IfOk, IfErr, IfNone};
ghost use Rattle.jfs_tree.specs.Edit.{IsPoint};
ghost use Rattle.jfs_tree.specs.Leftmost.{IsLeftmost};
ghost use Rattle.jfs_tree.specs.Path.{broken_on_way, found_on_way, TellsBroken};
ghost use Rattle.jfs_tree.specs.Refusal.{ClashesOnWay, HasAllLevels, TellsAdding};
ghost use Rattle.jfs_tree.specs.Filled.{FillsAlways};
ghost use Rattle.jfs_tree.specs.Apart.{ApartOnWay};
ghost use Rattle.jfs_tree.specs.Form.{AllBelow, IsFront};
ghost use Rattle.jfs_tree.specs.Frames.{FramesAlways, KeepsFrames};
ghost use Rattle.jfs_tree.specs.Fresh.{HasPages};
ghost use Rattle.jfs_tree.specs.Room.{FullFrom, GrowsLevel, LevelsWhereFull, TakesWhereFull, at_page};
ghost use Rattle.jfs_tree.specs.Call.{nodes, pages_of, CarriesFault};
ghost use Rattle.jfs_tree.specs.Root.{AddsAlways, KeepsAlways, NamesBroken, RefusesWhereBad};
ghost use Rattle.jfs_tree.specs.RootLoss.{KeepsOthers, RemovesAlways};
ghost use Rattle.jfs_tree.specs.Taken.{DraftsTaken};

use crate::draft::Draft;
use crate::form::TreeError;
use crate::leftmost::remove_leftmost;
use crate::linking::{link_gaps, link_taken};
use crate::links::PageLinks;
use crate::loss::PageLoss;
use crate::root::add_entry;
use jfs_ranges::PageView;

/// Adds an entry as `add_entry` does; `all` are the free pages in the order in which they are taken. Pages beside those that were taken name them.
pub(crate) fn add_linked<V: PageView, F: PageLinks>(
    top: &F,
    form: &F,
    view: &mut V,
    draft: &mut Draft,
    all: &[u32],
    fresh: &mut Vec<u32>,
    root: &mut [u8],
    x: &F::Entry,
) -> Result<(), TreeError>
    requires root { length root.old ≡ F.PageForm.size top.now }
    requires bound { (F.PageForm.blocks top.now ≡ V.PageView.block_count view.old) × (F.PageForm.blocks form.now ≡ V.PageView.block_count view.old) }
    requires size { F.PageForm.size form.now ≡ 4096 }
    requires top { F.PageForm.is_root top.now }
    requires pages { (F.PageForm.below top.now ≡ form.now) × (F.PageForm.is_root form.now → ⊥) }
    requires good { (F.PageForm.is_good top.now x.now) × (F.PageForm.is_good form.now x.now) }
    requires children { (bytes : List ℕ) → HasPages (V.PageView.block_count view.old) (F.PageForm.node top.now bytes) × HasPages (V.PageView.block_count view.old) (F.PageForm.node form.now bytes) }
    requires all { length all.now ≡ length fresh.old.items }
    requires enough { 8 ≤ length fresh.old.items }
    requires within { AllBelow (V.PageView.block_count view.old) fresh.old.items }
    ensures image { V.PageView.tells → V.PageView.image view.new ≡ V.PageView.image view.old }
    ensures count_of_blocks { V.PageView.block_count view.new ≡ V.PageView.block_count view.old }
    ensures device { V.PageView.device view.new ≡ V.PageView.device view.old }
    ensures fault { CarriesFault (V.PageView.faults view.old) (V.PageView.faults view.new) result }
    ensures adds { V.PageView.tells → OnOk result (AddsAlways F.PageForm.scale x.now
        (nodes (F.PageForm.node form.now) draft.old.pages.items (V.PageView.image view.old))
        (nodes (F.PageForm.node form.now) draft.new.pages.items (V.PageView.image view.old))
        (F.PageForm.node top.now root.old) (F.PageForm.node top.now root.new) fresh.old.items fresh.new.items) }
    ensures refused { V.PageView.tells → IfErr result (λ e. RefusesWhereBad F.PageForm.scale x.now
        (nodes (F.PageForm.node form.now) draft.old.pages.items (V.PageView.image view.old)) (F.PageForm.node top.now root.old) fresh.old.items e) }
    ensures taken { V.PageView.tells → OnOk result (TakesWhereFull F.PageForm.scale x.now
        (nodes (F.PageForm.node form.now) draft.old.pages.items (V.PageView.image view.old))
        (at_page (F.PageForm.is_full form.now) draft.old.pages.items (V.PageView.image view.old))
        (at_page (λ bytes. F.PageForm.has_no_room form.now bytes x.now) draft.old.pages.items (V.PageView.image view.old))
        (F.PageForm.node top.now root.old) ((F.PageForm.is_full top.now root.old) × (F.PageForm.has_no_room top.now root.old x.now))
        (λ key. (F.PageForm.is_full top.now root.old) × (F.PageForm.has_no_place top.now root.old key))
        fresh.old.items fresh.new.items) }
    ensures levels { V.PageView.tells → LevelsWhereFull F.PageForm.scale x.now
        (nodes (F.PageForm.node form.now) draft.old.pages.items (V.PageView.image view.old))
        (nodes (F.PageForm.node form.now) draft.new.pages.items (V.PageView.image view.old))
        (F.PageForm.node top.now root.old) (F.PageForm.node top.now root.new) fresh.old.items
        (GrowsLevel F.PageForm.scale x.now
        (nodes (F.PageForm.node form.now) draft.old.pages.items (V.PageView.image view.old))
        (at_page (F.PageForm.is_full form.now) draft.old.pages.items (V.PageView.image view.old))
        (at_page (λ bytes. F.PageForm.has_no_room form.now bytes x.now) draft.old.pages.items (V.PageView.image view.old))
        (F.PageForm.node top.now root.old) ((F.PageForm.is_full top.now root.old) × (F.PageForm.has_no_room top.now root.old x.now))
        (λ key. (F.PageForm.is_full top.now root.old) × (F.PageForm.has_no_place top.now root.old key))
        (F.PageForm.node top.now root.new) (nodes (F.PageForm.node form.now) draft.new.pages.items (V.PageView.image view.old)))
        (FullFrom F.PageForm.scale x.now
        (nodes (F.PageForm.node form.now) draft.old.pages.items (V.PageView.image view.old))
        (at_page (F.PageForm.is_full form.now) draft.old.pages.items (V.PageView.image view.old))
        (at_page (λ bytes. F.PageForm.has_no_room form.now bytes x.now) draft.old.pages.items (V.PageView.image view.old))
        (F.PageForm.node top.now root.old) ((F.PageForm.is_full top.now root.old) × (F.PageForm.has_no_room top.now root.old x.now))
        (λ key. (F.PageForm.is_full top.now root.old) × (F.PageForm.has_no_place top.now root.old key))) result }
    ensures filled { (appends : Bool) (least : ℕ) → F.PageForm.fills appends least → V.PageView.tells → OnOk result (FillsAlways appends least F.PageForm.scale x.now
        (nodes (F.PageForm.node form.now) draft.old.pages.items (V.PageView.image view.old))
        (nodes (F.PageForm.node form.now) draft.new.pages.items (V.PageView.image view.old))
        (F.PageForm.node top.now root.old) (F.PageForm.node top.now root.new) fresh.old.items) }
    ensures used { OnOk result (length fresh.old.items ≤ length fresh.new.items + 8) }
    ensures keeps { V.PageView.tells → OnOk result (KeepsAlways F.PageForm.scale x.now (nodes (F.PageForm.node form.now) draft.old.pages.items (V.PageView.image view.old)) (F.PageForm.node top.now root.old) (V.PageView.image view.old)
        draft.old.pages.items draft.new.pages.items fresh.old.items fresh.new.items) }
    ensures drafted { OnOk result (DraftsTaken draft.old.pages.items draft.new.pages.items fresh.old.items fresh.new.items) }
    ensures framed { V.PageView.tells → OnOk result (FramesAlways F.PageForm.scale x.now (nodes (F.PageForm.node form.now) draft.old.pages.items (V.PageView.image view.old)) (F.PageForm.node top.now root.old) (F.PageForm.frame form.now) (F.PageForm.new_frame form.now)
        (V.PageView.image view.old) draft.old.pages.items draft.new.pages.items fresh.old.items fresh.new.items) }
    ensures frame { F.PageForm.frame top.now root.new ≡ F.PageForm.frame top.now root.old }
    ensures apart { V.PageView.tells → OnOk result (ApartOnWay F.PageForm.scale (nodes (F.PageForm.node form.now) draft.old.pages.items (V.PageView.image view.old)) x.now (F.PageForm.node top.now root.old)) }
    ensures front { IsFront fresh.new.items fresh.old.items }
    ensures way { V.PageView.tells → TellsAdding
        (broken_on_way F.PageForm.scale (nodes (F.PageForm.node form.now) draft.old.pages.items (V.PageView.image view.old)) (F.PageForm.scale.from x.now) (F.PageForm.node top.now root.old))
        (ClashesOnWay F.PageForm.scale (nodes (F.PageForm.node form.now) draft.old.pages.items (V.PageView.image view.old)) x.now
        (at_page (F.PageForm.is_full form.now) draft.old.pages.items (V.PageView.image view.old))
        (at_page (λ bytes. F.PageForm.has_no_room form.now bytes x.now) draft.old.pages.items (V.PageView.image view.old)) (F.PageForm.node top.now root.old))
        (HasAllLevels F.PageForm.scale (nodes (F.PageForm.node form.now) draft.old.pages.items (V.PageView.image view.old)) x.now
        (at_page (F.PageForm.is_full form.now) draft.old.pages.items (V.PageView.image view.old))
        (at_page (λ bytes. F.PageForm.has_no_room form.now bytes x.now) draft.old.pages.items (V.PageView.image view.old))
        (F.PageForm.node top.now root.old) (λ key. (F.PageForm.is_full top.now root.old) × (F.PageForm.has_no_place top.now root.old key))) result }
{
    let _blocks = view.blocks();
    match add_entry(top, form, view, draft, fresh, root, x) {
        Ok(()) => {}
        Err(e) => return Err(e),
    }
    let taken = &all[..all.len() - fresh.len()];
    match link_taken(top, form, view, draft, root, taken, x) {
        Ok(()) => Ok(()),
        Err(e) => Err(e),
    }
}

/// Takes an entry out as `remove_leftmost` does. Pages beside those that were freed name each other.
pub(crate) fn remove_linked<V: PageView, F: PageLoss + PageLinks>(
    top: &F,
    form: &F,
    view: &mut V,
    draft: &mut Draft,
    freed: &mut Vec<u32>,
    root: &mut [u8],
    x: &F::Entry,
) -> Result<Option<F::Entry>, TreeError>
    requires root { length root.old ≡ F.PageForm.size top.now }
    requires bound { (F.PageForm.blocks top.now ≡ V.PageView.block_count view.old) × (F.PageForm.blocks form.now ≡ V.PageView.block_count view.old) }
    requires size { F.PageForm.size form.now ≡ 4096 }
    requires top { F.PageForm.is_root top.now }
    requires point { IsPoint F.PageForm.scale x.now }
    requires children { (bytes : List ℕ) → HasPages (V.PageView.block_count view.old) (F.PageForm.node top.now bytes) × HasPages (V.PageView.block_count view.old) (F.PageForm.node form.now bytes) }
    requires fresh { (draft.old.pages.items ≡ []) × (freed.old.items ≡ []) }
    ensures image { V.PageView.tells → V.PageView.image view.new ≡ V.PageView.image view.old }
    ensures count_of_blocks { V.PageView.block_count view.new ≡ V.PageView.block_count view.old }
    ensures device { V.PageView.device view.new ≡ V.PageView.device view.old }
    ensures fault { CarriesFault (V.PageView.faults view.old) (V.PageView.faults view.new) result }
    ensures removes { V.PageView.tells → IfOk result (λ found. RemovesAlways F.PageForm.scale x.now
        (pages_of (F.PageForm.node form.now) (V.PageView.image view.old))
        (nodes (F.PageForm.node form.now) draft.new.pages.items (V.PageView.image view.old))
        (F.PageForm.node top.now root.old) (F.PageForm.node top.now root.new) freed.new.items found) }
    ensures left { V.PageView.tells → OnOk result (IsLeftmost F.PageForm.scale (pages_of (F.PageForm.node form.now) (V.PageView.image view.old)) (F.PageForm.node top.now root.old)
        → IsLeftmost F.PageForm.scale (nodes (F.PageForm.node form.now) draft.new.pages.items (V.PageView.image view.old)) (F.PageForm.node top.now root.new)) }
    ensures keeps { V.PageView.tells → OnOk result (KeepsOthers F.PageForm.scale (pages_of (F.PageForm.node form.now) (V.PageView.image view.old)) (F.PageForm.node top.now root.old) (V.PageView.image view.old) draft.new.pages.items) }
    ensures framed { V.PageView.tells → OnOk result (KeepsFrames (F.PageForm.frame form.now) (V.PageView.image view.old) [] draft.new.pages.items) }
    ensures frame { F.PageForm.frame top.now root.new ≡ F.PageForm.frame top.now root.old }
    ensures absent { IfOk result (λ found. IfNone found ((root.new ≡ root.old) × (draft.new.pages.items ≡ []) × (freed.new.items ≡ []))) }
    ensures bad { V.PageView.tells → IfErr result (λ e.
        NamesBroken F.PageForm.scale (pages_of (F.PageForm.node form.now) (V.PageView.image view.old)) (F.PageForm.node top.now root.old) e) }
    ensures way { V.PageView.tells → TellsBroken (broken_on_way F.PageForm.scale (pages_of (F.PageForm.node form.now) (V.PageView.image view.old)) (F.PageForm.scale.from x.now) (F.PageForm.node top.now root.old)) result }
    ensures on_way { V.PageView.tells → IfOk result (λ found.
        found ≡ found_on_way F.PageForm.scale (pages_of (F.PageForm.node form.now) (V.PageView.image view.old)) x.now (F.PageForm.node top.now root.old)) }
{
    let _blocks = view.blocks();
    let found = match remove_leftmost(top, form, view, draft, freed, root, x) {
        Ok(found) => found,
        Err(e) => return Err(e),
    };
    if freed.as_slice().is_empty() {
        return Ok(found);
    }
    match link_gaps(top, form, view, draft, root, freed.len(), x) {
        Ok(()) => Ok(found),
        Err(e) => Err(e),
    }
}
