//! An entry that goes into the part of a tree below a page.

ghost use Rattle.std.specs.Prelude.{◌≡◌, ◌==◌, ◌&&◌, ◌+◌, if◌then◌else◌, ◌<◌, ◌≤◌, ℕ, Bool, List, length, OnOk, IfOk, IfErr, IfSome, ◌^◌};
ghost use Rattle.jfs_tree.specs.Edit.{Grew};
ghost use Rattle.jfs_tree.specs.Filled.{ChildFilled, StaysFilled};
ghost use Rattle.jfs_tree.specs.Apart.{ApartBelow};
ghost use Rattle.jfs_tree.specs.Form.{AllBelow, IsFront, children_of};
ghost use Rattle.jfs_tree.specs.Frames.{GrowsFramed, TakesFramed};
ghost use Rattle.jfs_tree.specs.Path.{broken_below};
ghost use Rattle.jfs_tree.specs.Removal.{HasChildAt};
ghost use Rattle.jfs_tree.specs.Refusal.{GrownCut, GrownClash, TellsGrowing};
ghost use Rattle.jfs_tree.specs.Room.{GrowsWhereFull, TakesMore, at_page};
ghost use Rattle.jfs_tree.specs.Call.{nodes, GrownDid, GrownBelow, KeepsBytes, StaysOff, CarriesFault, RefutesWhereBad};
ghost use Rattle.jfs_tree.specs.Taken.{DraftsTaken};

use crate::draft::Draft;
use crate::form::{Sibling, TreeError, Way};
use crate::lead::way_below;
use crate::pages::PageForm;
use crate::take::{take_child, take_here};
use jfs_bits::Rule;
use jfs_disk::Page;
use jfs_ranges::PageView;

/// What the part below a page became: perhaps one more page stands behind it, and it has so many levels.
#[derive(Drop)]
pub struct Grown<K> {
    pub sibling: Option<Sibling<K>>,
    pub levels: u32,
}

/// Adds an entry below a page, at most so many levels deep; the page may be the last one of its level. The changed pages go into the draft. `Bad` names the
/// first page on the entry's way that breaks a rule by itself; where none does, a page at which the entry clashes with what is stored.
pub fn add_below<V: PageView, F: PageForm>(
    form: &F,
    view: &mut V,
    draft: &mut Draft,
    fresh: &mut Vec<u32>,
    most: u32,
    page: u32,
    last: bool,
    x: &F::Entry,
) -> Result<Grown<F::Key>, TreeError>
    requires page { page < V.PageView.block_count view.old }
    requires bound { F.PageForm.blocks form.now ≡ V.PageView.block_count view.old }
    requires size { F.PageForm.size form.now ≡ 4096 }
    requires below { F.PageForm.is_root form.now → ⊥ }
    requires good { F.PageForm.is_good form.now x.now }
    requires enough { most ≤ length fresh.old.items }
    requires within { AllBelow (V.PageView.block_count view.old) fresh.old.items }
    ensures image { V.PageView.tells → V.PageView.image view.new ≡ V.PageView.image view.old }
    ensures count_of_blocks { V.PageView.block_count view.new ≡ V.PageView.block_count view.old }
    ensures device { V.PageView.device view.new ≡ V.PageView.device view.old }
    ensures fault { CarriesFault (V.PageView.faults view.old) (V.PageView.faults view.new) result }
    ensures grew { V.PageView.tells → IfOk result (λ grown. Grew F.PageForm.scale x.now
        (nodes (F.PageForm.node form.now) draft.old.pages.items (V.PageView.image view.old))
        (nodes (F.PageForm.node form.now) draft.new.pages.items (V.PageView.image view.old))
        grown.levels page (children_of grown.sibling) fresh.old.items fresh.new.items) }
    ensures bad { V.PageView.tells → IfErr result (λ e. RefutesWhereBad F.PageForm.scale x.now
        (nodes (F.PageForm.node form.now) draft.old.pages.items (V.PageView.image view.old)) most page fresh.old.items e) }
    ensures used { IfOk result (λ grown. (length fresh.old.items ≤ length fresh.new.items + grown.levels) × (grown.levels ≤ most)) }
    ensures room { V.PageView.tells → IfOk result (λ grown. GrowsWhereFull F.PageForm.scale x.now
        (nodes (F.PageForm.node form.now) draft.old.pages.items (V.PageView.image view.old))
        (at_page (F.PageForm.is_full form.now) draft.old.pages.items (V.PageView.image view.old))
        (at_page (λ bytes. F.PageForm.has_no_room form.now bytes x.now) draft.old.pages.items (V.PageView.image view.old))
        grown.levels page grown.sibling fresh.old.items fresh.new.items) }
    ensures filled { (appends : Bool) (least : ℕ) → F.PageForm.fills appends least → V.PageView.tells → IfOk result (λ grown. StaysFilled appends least F.PageForm.scale x.now
        (nodes (F.PageForm.node form.now) draft.old.pages.items (V.PageView.image view.old))
        (nodes (F.PageForm.node form.now) draft.new.pages.items (V.PageView.image view.old))
        grown.levels page last (children_of grown.sibling) fresh.old.items) }
    ensures keeps { V.PageView.tells → IfOk result (λ grown. KeepsBytes F.PageForm.scale (nodes (F.PageForm.node form.now) draft.old.pages.items (V.PageView.image view.old)) (V.PageView.image view.old)
        draft.old.pages.items draft.new.pages.items grown.levels page fresh.old.items fresh.new.items) }
    ensures drafted { OnOk result (DraftsTaken draft.old.pages.items draft.new.pages.items fresh.old.items fresh.new.items) }
    ensures framed { V.PageView.tells → IfOk result (λ grown. GrowsFramed F.PageForm.scale (nodes (F.PageForm.node form.now) draft.old.pages.items (V.PageView.image view.old)) (F.PageForm.frame form.now) (F.PageForm.new_frame form.now)
        (V.PageView.image view.old) draft.old.pages.items draft.new.pages.items grown.levels page fresh.old.items fresh.new.items) }
    ensures apart { V.PageView.tells → OnOk result (ApartBelow F.PageForm.scale (nodes (F.PageForm.node form.now) draft.old.pages.items (V.PageView.image view.old)) x.now most page) }
    ensures below { GrownBelow fresh.old.items fresh.new.items result }
    ensures front { IsFront fresh.new.items fresh.old.items }
    ensures key { IfOk result (λ grown. IfSome grown.sibling (λ s. F.PageForm.is_key s.key)) }
    ensures way { V.PageView.tells → TellsGrowing F.PageForm.scale (nodes (F.PageForm.node form.now) draft.old.pages.items (V.PageView.image view.old)) x.now
        (at_page (F.PageForm.is_full form.now) draft.old.pages.items (V.PageView.image view.old))
        (at_page (λ bytes. F.PageForm.has_no_room form.now bytes x.now) draft.old.pages.items (V.PageView.image view.old)) most page
        (broken_below F.PageForm.scale (nodes (F.PageForm.node form.now) draft.old.pages.items (V.PageView.image view.old)) (F.PageForm.scale.from x.now) most page) result }
{
    if most == 0 {
        return Err(TreeError::Bad {
            page,
            rule: Rule::Deep,
        });
    }
    let bytes = match draft.read(view, page) {
        Ok(bytes) => bytes,
        Err(e) => return Err(TreeError::View(e)),
    };
    match way_below(form, bytes.bytes(), x) {
        Err(rule) => Err(TreeError::Bad { page, rule }),
        Ok(Way::Here) => {
            match take_here(form, draft, fresh, page, last, bytes, x) {
                Ok(sibling) => Ok(Grown { sibling, levels: 1 }),
                Err(e) => Err(e),
            }
        }
        Ok(
            Way::Down {
                place,
                page: child,
                last: at_end,
            },
        ) => {
            match add_below(
                form,
                view,
                draft,
                fresh,
                most - 1,
                child,
                both(last, at_end),
                x,
            ) {
                Ok(grown) => take_grown(form, draft, fresh, page, last, bytes, place, grown),
                Err(e) => Err(e),
            }
        }
    }
}

/// Puts the page that may stand behind a child into the child's page.
fn take_grown<F: PageForm>(
    form: &F,
    draft: &mut Draft,
    fresh: &mut Vec<u32>,
    page: u32,
    last: bool,
    bytes: Page,
    place: usize,
    grown: Grown<F::Key>,
) -> Result<Grown<F::Key>, TreeError>
    requires size { F.PageForm.size form.now ≡ 4096 }
    requires below { F.PageForm.is_root form.now → ⊥ }
    requires within { IfSome grown.sibling (λ s. s.page < F.PageForm.blocks form.now) }
    requires there { HasChildAt place (F.PageForm.node form.now bytes.0) }
    requires key { IfSome grown.sibling (λ s. F.PageForm.is_key s.key) }
    requires enough { 0 < length fresh.old.items }
    requires fits { grown.levels + 1 < 2 ^ 32 }
    ensures did { GrownDid (F.PageForm.node form.now) F.PageForm.scale bytes.0 page place grown.sibling draft.old.pages.items draft.new.pages.items fresh.old.items fresh.new.items result }
    ensures levels { IfOk result (λ g. g.levels ≡ grown.levels + 1) }
    ensures used { IfOk result (λ more. length fresh.old.items ≤ length fresh.new.items + 1) }
    ensures room { IfOk result (λ g. TakesMore (F.PageForm.is_full form.now bytes.0) grown.sibling g.sibling fresh.old.items fresh.new.items) }
    ensures filled { (appends : Bool) (least : ℕ) → F.PageForm.fills appends least → IfOk result (λ g. ChildFilled appends least (F.PageForm.node form.now) F.PageForm.scale bytes.0 page place last grown.sibling draft.old.pages.items draft.new.pages.items fresh.old.items g.sibling) }
    ensures keeps { OnOk result (StaysOff page draft.old.pages.items draft.new.pages.items fresh.old.items fresh.new.items) }
    ensures drafted { OnOk result (DraftsTaken draft.old.pages.items draft.new.pages.items fresh.old.items fresh.new.items) }
    ensures framed { OnOk result (TakesFramed (F.PageForm.frame form.now) (F.PageForm.new_frame form.now) bytes.0 page draft.old.pages.items draft.new.pages.items fresh.old.items fresh.new.items) }
    ensures below { GrownBelow fresh.old.items fresh.new.items result }
    ensures front { IsFront fresh.new.items fresh.old.items }
    ensures key { IfOk result (λ grown. IfSome grown.sibling (λ s. F.PageForm.is_key s.key)) }
    ensures cut { IfOk result (λ g. GrownCut (F.PageForm.node form.now bytes.0) place grown.sibling g.sibling) }
    ensures clash { IfErr result (λ e. GrownClash F.PageForm.scale (F.PageForm.node form.now bytes.0) page place grown.sibling e) }
{
    let Grown { sibling, levels } = grown;
    let levels = levels + 1;
    match sibling {
        None => Ok(Grown {
            sibling: None,
            levels,
        }),
        Some(new) => match take_child(form, draft, fresh, page, last, bytes, place, new) {
            Ok(sibling) => Ok(Grown { sibling, levels }),
            Err(e) => Err(e),
        },
    }
}

fn both(a: bool, b: bool) -> bool
    ensures { result ≡ (a && b) }
{
    a && b
}
