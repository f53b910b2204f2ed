//! Calls on a whole tree, from its root on.

ghost use Rattle.std.specs.Prelude.{◌≡◌, ◌+◌, ◌<◌, ◌≤◌, ℕ, Bool, List, length, OnOk, IfOk, IfErr, IfSome};
ghost use Rattle.jfs_tree.specs.Edit.{IsPoint};
ghost use Rattle.jfs_tree.specs.Path.{broken_on_way, found_on_way, TellsBroken};
ghost use Rattle.jfs_tree.specs.Refusal.{ClashesOnWay, HasAllLevels, RootGrownClash, TellsAdding};
ghost use Rattle.jfs_tree.specs.Filled.{FillsAlways};
ghost use Rattle.jfs_tree.specs.Apart.{ApartOnWay};
ghost use Rattle.jfs_tree.specs.Form.{AllBelow, IsFront};
ghost use Rattle.jfs_tree.specs.Frames.{FramesAlways, NamesTaken};
ghost use Rattle.jfs_tree.specs.Room.{FullFrom, GrowsLevel, LevelsWhereFull, TakesWhereFull, RootGrownRoom, at_page};
ghost use Rattle.jfs_tree.specs.Call.{nodes, pages_of, CarriesFault, StaysTaken};
ghost use Rattle.jfs_tree.specs.Root.{AddsAlways, FindsAlways, KeepsAlways, NamesBroken, RefusesWhereBad, RootGrownDid};
ghost use Rattle.jfs_tree.specs.Taken.{DraftsTaken};

use crate::draft::Draft;
use crate::find::find_below;
use crate::form::{NO_PAGE, TreeError, Way};
use crate::grow::{Grown, add_below};
use crate::pages::PageForm;
use crate::take_root::{root_takes_child, root_takes_here};
use jfs_ranges::PageView;

/// The entry of a root's tree that shares a place with `x`, which is one place. It reads one page a level, and names the first one that breaks a rule.
pub fn find_entry<V: PageView, F: PageForm>(
    top: &F,
    form: &F,
    view: &mut V,
    root: &[u8],
    x: &F::Entry,
) -> Result<Option<F::Entry>, TreeError>
    requires root { length root.now ≡ F.PageForm.size top.now }
    requires bound { (F.PageForm.blocks top.now ≡ V.PageView.block_count view.old) × (F.PageForm.blocks form.now ≡ V.PageView.block_count view.old) }
    requires size { F.PageForm.size form.now ≡ 4096 }
    requires point { IsPoint F.PageForm.scale x.now }
    ensures image { V.PageView.tells → V.PageView.image view.new ≡ V.PageView.image view.old }
    ensures count_of_blocks { V.PageView.block_count view.new ≡ V.PageView.block_count view.old }
    ensures device { V.PageView.device view.new ≡ V.PageView.device view.old }
    ensures fault { CarriesFault (V.PageView.faults view.old) (V.PageView.faults view.new) result }
    ensures found { V.PageView.tells → IfOk result (λ found.
        FindsAlways F.PageForm.scale x.now (pages_of (F.PageForm.node form.now) (V.PageView.image view.old)) (F.PageForm.node top.now root.now) found) }
    ensures on_way { V.PageView.tells → IfOk result (λ found.
        found ≡ found_on_way F.PageForm.scale (pages_of (F.PageForm.node form.now) (V.PageView.image view.old)) x.now (F.PageForm.node top.now root.now)) }
    ensures bad { V.PageView.tells → IfErr result (λ e.
        NamesBroken F.PageForm.scale (pages_of (F.PageForm.node form.now) (V.PageView.image view.old)) (F.PageForm.node top.now root.now) e) }
    ensures way { V.PageView.tells → TellsBroken (broken_on_way F.PageForm.scale (pages_of (F.PageForm.node form.now) (V.PageView.image view.old)) (F.PageForm.scale.from x.now) (F.PageForm.node top.now root.now)) result }
{
    match top.way(root, x) {
        Err(rule) => Err(TreeError::Bad {
            page: NO_PAGE,
            rule,
        }),
        Ok(Way::Here) => Ok(top.find(root, x)),
        Ok(
            Way::Down {
                place: _,
                page,
                last: _,
            },
        ) => find_below(form, view, 7, page, x),
    }
}

/// Adds an entry to a root's tree. The root is changed in place, and the changed pages go into the draft; new pages are taken from the
/// end of `fresh`. After an `Err` root, draft and `fresh` are to be thrown away. `Bad` names the first page on the entry's way that breaks a rule by itself;
/// where none does, with rule `order` a page at which the entry clashes with what is stored, or with rule `deep` the root of a tree of 8 levels without room.
pub fn add_entry<V: PageView, F: PageForm>(
    top: &F,
    form: &F,
    view: &mut V,
    draft: &mut Draft,
    fresh: &mut Vec<u32>,
    root: &mut [u8],
    x: &F::Entry,
) -> Result<(), TreeError>
    requires root { length root.old ≡ F.PageForm.size top.now }
    requires bound { (F.PageForm.blocks top.now ≡ V.PageView.block_count view.old) × (F.PageForm.blocks form.now ≡ V.PageView.block_count view.old) }
    requires size { F.PageForm.size form.now ≡ 4096 }
    requires top { F.PageForm.is_root top.now }
    requires pages { (F.PageForm.below top.now ≡ form.now) × (F.PageForm.is_root form.now → ⊥) }
    requires good { (F.PageForm.is_good top.now x.now) × (F.PageForm.is_good form.now x.now) }
    requires enough { 8 ≤ length fresh.old.items }
    requires within { AllBelow (V.PageView.block_count view.old) fresh.old.items }
    ensures image { V.PageView.tells → V.PageView.image view.new ≡ V.PageView.image view.old }
    ensures count_of_blocks { V.PageView.block_count view.new ≡ V.PageView.block_count view.old }
    ensures device { V.PageView.device view.new ≡ V.PageView.device view.old }
    ensures fault { CarriesFault (V.PageView.faults view.old) (V.PageView.faults view.new) result }
    ensures adds { V.PageView.tells → OnOk result (AddsAlways F.PageForm.scale x.now
        (nodes (F.PageForm.node form.now) draft.old.pages.items (V.PageView.image view.old))
        (nodes (F.PageForm.node form.now) draft.new.pages.items (V.PageView.image view.old))
        (F.PageForm.node top.now root.old) (F.PageForm.node top.now root.new) fresh.old.items fresh.new.items) }
    ensures refused { V.PageView.tells → IfErr result (λ e. RefusesWhereBad F.PageForm.scale x.now
        (nodes (F.PageForm.node form.now) draft.old.pages.items (V.PageView.image view.old)) (F.PageForm.node top.now root.old) fresh.old.items e) }
    ensures taken { V.PageView.tells → OnOk result (TakesWhereFull F.PageForm.scale x.now
        (nodes (F.PageForm.node form.now) draft.old.pages.items (V.PageView.image view.old))
        (at_page (F.PageForm.is_full form.now) draft.old.pages.items (V.PageView.image view.old))
        (at_page (λ bytes. F.PageForm.has_no_room form.now bytes x.now) draft.old.pages.items (V.PageView.image view.old))
        (F.PageForm.node top.now root.old) ((F.PageForm.is_full top.now root.old) × (F.PageForm.has_no_room top.now root.old x.now))
        (λ key. (F.PageForm.is_full top.now root.old) × (F.PageForm.has_no_place top.now root.old key))
        fresh.old.items fresh.new.items) }
    ensures levels { V.PageView.tells → LevelsWhereFull F.PageForm.scale x.now
        (nodes (F.PageForm.node form.now) draft.old.pages.items (V.PageView.image view.old))
        (nodes (F.PageForm.node form.now) draft.new.pages.items (V.PageView.image view.old))
        (F.PageForm.node top.now root.old) (F.PageForm.node top.now root.new) fresh.old.items
        (GrowsLevel F.PageForm.scale x.now
        (nodes (F.PageForm.node form.now) draft.old.pages.items (V.PageView.image view.old))
        (at_page (F.PageForm.is_full form.now) draft.old.pages.items (V.PageView.image view.old))
        (at_page (λ bytes. F.PageForm.has_no_room form.now bytes x.now) draft.old.pages.items (V.PageView.image view.old))
        (F.PageForm.node top.now root.old) ((F.PageForm.is_full top.now root.old) × (F.PageForm.has_no_room top.now root.old x.now))
        (λ key. (F.PageForm.is_full top.now root.old) × (F.PageForm.has_no_place top.now root.old key))
        (F.PageForm.node top.now root.new) (nodes (F.PageForm.node form.now) draft.new.pages.items (V.PageView.image view.old)))
        (FullFrom F.PageForm.scale x.now
        (nodes (F.PageForm.node form.now) draft.old.pages.items (V.PageView.image view.old))
        (at_page (F.PageForm.is_full form.now) draft.old.pages.items (V.PageView.image view.old))
        (at_page (λ bytes. F.PageForm.has_no_room form.now bytes x.now) draft.old.pages.items (V.PageView.image view.old))
        (F.PageForm.node top.now root.old) ((F.PageForm.is_full top.now root.old) × (F.PageForm.has_no_room top.now root.old x.now))
        (λ key. (F.PageForm.is_full top.now root.old) × (F.PageForm.has_no_place top.now root.old key))) result }
    ensures filled { (appends : Bool) (least : ℕ) → F.PageForm.fills appends least → V.PageView.tells → OnOk result (FillsAlways appends least F.PageForm.scale x.now
        (nodes (F.PageForm.node form.now) draft.old.pages.items (V.PageView.image view.old))
        (nodes (F.PageForm.node form.now) draft.new.pages.items (V.PageView.image view.old))
        (F.PageForm.node top.now root.old) (F.PageForm.node top.now root.new) fresh.old.items) }
    ensures used { OnOk result (length fresh.old.items ≤ length fresh.new.items + 8) }
    ensures keeps { V.PageView.tells → OnOk result (KeepsAlways F.PageForm.scale x.now (nodes (F.PageForm.node form.now) draft.old.pages.items (V.PageView.image view.old)) (F.PageForm.node top.now root.old) (V.PageView.image view.old)
        draft.old.pages.items draft.new.pages.items fresh.old.items fresh.new.items) }
    ensures drafted { OnOk result (DraftsTaken draft.old.pages.items draft.new.pages.items fresh.old.items fresh.new.items) }
    ensures framed { V.PageView.tells → OnOk result (FramesAlways F.PageForm.scale x.now (nodes (F.PageForm.node form.now) draft.old.pages.items (V.PageView.image view.old)) (F.PageForm.node top.now root.old) (F.PageForm.frame form.now) (F.PageForm.new_frame form.now)
        (V.PageView.image view.old) draft.old.pages.items draft.new.pages.items fresh.old.items fresh.new.items) }
    ensures frame { F.PageForm.frame top.now root.new ≡ F.PageForm.frame top.now root.old }
    ensures apart { V.PageView.tells → OnOk result (ApartOnWay F.PageForm.scale (nodes (F.PageForm.node form.now) draft.old.pages.items (V.PageView.image view.old)) x.now (F.PageForm.node top.now root.old)) }
    ensures front { IsFront fresh.new.items fresh.old.items }
    ensures way { V.PageView.tells → TellsAdding
        (broken_on_way F.PageForm.scale (nodes (F.PageForm.node form.now) draft.old.pages.items (V.PageView.image view.old)) (F.PageForm.scale.from x.now) (F.PageForm.node top.now root.old))
        (ClashesOnWay F.PageForm.scale (nodes (F.PageForm.node form.now) draft.old.pages.items (V.PageView.image view.old)) x.now
        (at_page (F.PageForm.is_full form.now) draft.old.pages.items (V.PageView.image view.old))
        (at_page (λ bytes. F.PageForm.has_no_room form.now bytes x.now) draft.old.pages.items (V.PageView.image view.old)) (F.PageForm.node top.now root.old))
        (HasAllLevels F.PageForm.scale (nodes (F.PageForm.node form.now) draft.old.pages.items (V.PageView.image view.old)) x.now
        (at_page (F.PageForm.is_full form.now) draft.old.pages.items (V.PageView.image view.old))
        (at_page (λ bytes. F.PageForm.has_no_room form.now bytes x.now) draft.old.pages.items (V.PageView.image view.old))
        (F.PageForm.node top.now root.old) (λ key. (F.PageForm.is_full top.now root.old) × (F.PageForm.has_no_place top.now root.old key))) result }
{
    let _blocks = view.blocks();
    match top.way(root, x) {
        Err(rule) => Err(TreeError::Bad {
            page: NO_PAGE,
            rule,
        }),
        Ok(Way::Here) => root_takes_here(top, form, draft, fresh, root, x),
        Ok(Way::Down { place, page, last }) => match add_below(
            form, view, draft, fresh, 7, page, last, x,
        ) {
            Ok(grown) => root_takes_grown(top, form, draft, fresh, root, place, grown),
            Err(e) => Err(e),
        },
    }
}

/// Puts the page that may stand behind a child into the root.
fn root_takes_grown<F: PageForm>(
    top: &F,
    form: &F,
    draft: &mut Draft,
    fresh: &mut Vec<u32>,
    root: &mut [u8],
    place: usize,
    grown: Grown<F::Key>,
) -> Result<(), TreeError>
    requires root { length root.old ≡ F.PageForm.size top.now }
    requires bound { F.PageForm.blocks form.now ≡ F.PageForm.blocks top.now }
    requires size { F.PageForm.size form.now ≡ 4096 }
    requires top { F.PageForm.is_root top.now }
    requires pages { F.PageForm.below top.now ≡ form.now }
    requires child { IfSome grown.sibling (λ s. s.page < F.PageForm.blocks top.now) }
    requires key { IfSome grown.sibling (λ s. F.PageForm.is_key s.key) }
    requires enough { 0 < length fresh.old.items }
    requires within { AllBelow (F.PageForm.blocks top.now) fresh.old.items }
    ensures did { RootGrownDid (F.PageForm.node form.now) F.PageForm.scale grown.levels place grown.sibling (F.PageForm.node top.now root.old) (F.PageForm.node top.now root.new) draft.old.pages.items draft.new.pages.items fresh.old.items fresh.new.items result }
    ensures room { RootGrownRoom F.PageForm.scale (λ key. (F.PageForm.is_full top.now root.old) × (F.PageForm.has_no_place top.now root.old key)) place grown.sibling (F.PageForm.node top.now root.old) fresh.old.items fresh.new.items result }
    ensures keeps { OnOk result (StaysTaken draft.old.pages.items draft.new.pages.items fresh.old.items fresh.new.items) }
    ensures drafted { OnOk result (DraftsTaken draft.old.pages.items draft.new.pages.items fresh.old.items fresh.new.items) }
    ensures names { OnOk result (NamesTaken (F.PageForm.frame form.now) (F.PageForm.new_frame form.now) draft.new.pages.items fresh.old.items fresh.new.items) }
    ensures frame { F.PageForm.frame top.now root.new ≡ F.PageForm.frame top.now root.old }
    ensures below { AllBelow (F.PageForm.blocks top.now) fresh.new.items }
    ensures front { IsFront fresh.new.items fresh.old.items }
    ensures clash { IfErr result (λ e. RootGrownClash F.PageForm.scale (F.PageForm.node top.now root.old) grown.levels place (λ key. (F.PageForm.is_full top.now root.old) × (F.PageForm.has_no_place top.now root.old key)) grown.sibling e) }
{
    let Grown { sibling, levels } = grown;
    match sibling {
        None => Ok(()),
        Some(new) => root_takes_child(top, form, draft, fresh, root, place, new, levels),
    }
}
