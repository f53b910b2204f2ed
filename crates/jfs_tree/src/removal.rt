//! An entry that is taken out of the part of a tree below a page.

ghost use Rattle.std.specs.Prelude.{◌≡◌, ◌+◌, ◌<◌, ◌≤◌, ◌^◌, ℕ, [], Some, IfOk, IfErr, OnOk, IfSome, IfNone, length};
ghost use Rattle.jfs_tree.specs.Edit.{IsPoint};
ghost use Rattle.jfs_tree.specs.Path.{broken_below, found_below, TellsBroken};
ghost use Rattle.jfs_tree.specs.Call.{pages_of, nodes, Finds, BreaksWhereBad, CarriesFault, KeepsBytes, StaysOff};
ghost use Rattle.jfs_tree.specs.Form.{IsLeaf};
ghost use Rattle.jfs_tree.specs.Frames.{KeepsFrames, KeepsFramesAt};
ghost use Rattle.jfs_tree.specs.Draft.{shown};
ghost use Rattle.jfs_tree.specs.Leftmost.{LeavesOrGoes};
ghost use Rattle.jfs_tree.specs.Walk.{Node};
ghost use Rattle.jfs_disk.specs.Image.{Image};
ghost use Rattle.jfs_tree.specs.Shrink.{Shrank};
ghost use Rattle.jfs_tree.specs.Removal.{HasChildAt, Settles, LostHere, LostBelow, entry_of, kept_in};

use crate::draft::Draft;
use crate::form::{TreeError, Way};
use crate::lead::way_below;
use crate::loss::PageLoss;
use crate::take::put_one;
use jfs_bits::Rule;
use jfs_disk::Page;
use jfs_ranges::PageView;

/// What the part below a page lost: the entry, and the page itself where that was its last one. The part has so many levels.
#[derive(Drop)]
pub struct Shrunk<E> {
    pub entry: E,
    pub kept: bool,
    pub levels: u32,
}

/// Takes the entry that shares a place with `x`, which is one place, out of the part below a page, at most so many levels deep. Pages that are
/// empty then are free. The changed pages go into the draft, which has none yet. Where there is no such entry, nothing changes.
pub fn remove_below<V: PageView, F: PageLoss>(
    form: &F,
    view: &mut V,
    draft: &mut Draft,
    freed: &mut Vec<u32>,
    most: u32,
    page: u32,
    x: &F::Entry,
) -> Result<Option<Shrunk<F::Entry>>, TreeError>
    requires page { page < V.PageView.block_count view.old }
    requires bound { F.PageForm.blocks form.now ≡ V.PageView.block_count view.old }
    requires size { F.PageForm.size form.now ≡ 4096 }
    requires point { IsPoint F.PageForm.scale x.now }
    requires fresh { draft.old.pages.items ≡ [] }
    ensures image { V.PageView.tells → V.PageView.image view.new ≡ V.PageView.image view.old }
    ensures count_of_blocks { V.PageView.block_count view.new ≡ V.PageView.block_count view.old }
    ensures device { V.PageView.device view.new ≡ V.PageView.device view.old }
    ensures fault { CarriesFault (V.PageView.faults view.old) (V.PageView.faults view.new) result }
    ensures shrank { V.PageView.tells → IfOk result (λ found. IfSome found (λ shrunk. Shrank F.PageForm.scale shrunk.entry
        (pages_of (F.PageForm.node form.now) (V.PageView.image view.old))
        (nodes (F.PageForm.node form.now) draft.new.pages.items (V.PageView.image view.old))
        shrunk.levels page shrunk.kept freed.old.items freed.new.items)) }
    ensures found { V.PageView.tells → IfOk result (λ found. Finds F.PageForm.scale x.now
        (pages_of (F.PageForm.node form.now) (V.PageView.image view.old)) page (entry_of found)) }
    ensures absent { IfOk result (λ found. IfNone found ((draft.new.pages.items ≡ []) × (freed.new.items ≡ freed.old.items))) }
    ensures bad { V.PageView.tells → IfErr result (λ e. BreaksWhereBad
        (pages_of (F.PageForm.node form.now) (V.PageView.image view.old)) most page e) }
    ensures way { V.PageView.tells → TellsBroken (broken_below F.PageForm.scale (pages_of (F.PageForm.node form.now) (V.PageView.image view.old)) (F.PageForm.scale.from x.now) most page) result }
    ensures keeps { V.PageView.tells → IfOk result (λ found. IfSome found (λ shrunk. KeepsBytes F.PageForm.scale (pages_of (F.PageForm.node form.now) (V.PageView.image view.old)) (V.PageView.image view.old)
        [] draft.new.pages.items shrunk.levels page [] [])) }
    ensures framed { V.PageView.tells → OnOk result (KeepsFrames (F.PageForm.frame form.now) (V.PageView.image view.old) [] draft.new.pages.items) }
    ensures levels { IfOk result (λ found. IfSome found (λ shrunk. shrunk.levels ≤ most)) }
    ensures inner { V.PageView.tells → IfOk result (λ found. IfSome found (λ shrunk. LeavesOrGoes (pages_of (F.PageForm.node form.now) (V.PageView.image view.old))
        (nodes (F.PageForm.node form.now) draft.new.pages.items (V.PageView.image view.old)) shrunk.kept freed.new.items)) }
    ensures on_way { V.PageView.tells → IfOk result (λ found.
        entry_of found ≡ found_below F.PageForm.scale (pages_of (F.PageForm.node form.now) (V.PageView.image view.old)) x.now most page) }
{
    if most == 0 {
        return Err(TreeError::Bad {
            page,
            rule: Rule::Deep,
        });
    }
    let bytes = match draft.read(view, page) {
        Ok(bytes) => bytes,
        Err(e) => return Err(TreeError::View(e)),
    };
    match way_below(form, bytes.bytes(), x) {
        Err(rule) => Err(TreeError::Bad { page, rule }),
        Ok(Way::Here) => remove_here(form, draft, freed, page, bytes, x),
        Ok(
            Way::Down {
                place,
                page: child,
                last: _,
            },
        ) => {
            match remove_below(form, view, draft, freed, most - 1, child, x) {
                Ok(Some(shrunk)) => remove_place(form, draft, freed, page, bytes, place, shrunk),
                Ok(None) => Ok(None),
                Err(e) => Err(e),
            }
        }
    }
}

/// Takes an entry out of page `page`, a leaf with these bytes. A leaf goes with its last entry.
fn remove_here<F: PageLoss>(
    form: &F,
    draft: &mut Draft,
    freed: &mut Vec<u32>,
    page: u32,
    mut bytes: Page,
    x: &F::Entry,
) -> Result<Option<Shrunk<F::Entry>>, TreeError>
    requires size { F.PageForm.size form.now ≡ 4096 }
    requires leaf { IsLeaf (F.PageForm.node form.now bytes.0) }
    ensures did { IfOk result (LostHere (F.PageForm.node form.now) F.PageForm.scale x.now bytes.0 page draft.old.pages.items draft.new.pages.items freed.old.items freed.new.items) }
    ensures levels { IfOk result (λ found. IfSome found (λ shrunk. shrunk.levels ≡ 1)) }
    ensures inner { IfOk result (λ found. IfSome found (λ shrunk. (image : Image) → bytes.0 ≡ shown draft.old.pages.items image page
        → LeavesOrGoes (nodes (F.PageForm.node form.now) draft.old.pages.items image) (nodes (F.PageForm.node form.now) draft.new.pages.items image) shrunk.kept freed.new.items)) }
    ensures keeps { OnOk result (StaysOff page draft.old.pages.items draft.new.pages.items [] []) }
    ensures framed { OnOk result (KeepsFramesAt (F.PageForm.frame form.now) bytes.0 page draft.old.pages.items draft.new.pages.items) }
    ensures cause { IfErr result (λ e. e ≡ TreeError.Memory) }
{
    let alone = form.is_single(bytes.bytes());
    let Some(entry) = form.remove(&mut bytes.0, x) else {
        return Ok(None);
    };
    settle(draft, freed, page, bytes, !alone)?;
    Ok(Some(Shrunk {
        entry,
        kept: !alone,
        levels: 1,
    }))
}

/// Takes the child at a place, which may have gone with its last entry, out of page `page`, an inner page with these bytes. A page goes with
/// its last child.
fn remove_place<F: PageLoss>(
    form: &F,
    draft: &mut Draft,
    freed: &mut Vec<u32>,
    page: u32,
    mut bytes: Page,
    place: usize,
    shrunk: Shrunk<F::Entry>,
) -> Result<Option<Shrunk<F::Entry>>, TreeError>
    requires size { F.PageForm.size form.now ≡ 4096 }
    requires there { HasChildAt place (F.PageForm.node form.now bytes.0) }
    requires fits { shrunk.levels + 1 < 2 ^ 32 }
    ensures did { IfOk result (λ found. IfSome found (λ more. (x : F.Entry) → LostBelow (F.PageForm.node form.now) F.PageForm.scale x bytes.0 page place shrunk draft.old.pages.items draft.new.pages.items freed.old.items freed.new.items more)) }
    ensures inner { IfOk result (λ found. IfSome found (λ more. (image : Image) (before : ℕ → Node F.Key F.Entry) → LeavesOrGoes before (nodes (F.PageForm.node form.now) draft.old.pages.items image) shrunk.kept freed.old.items
        → LeavesOrGoes before (nodes (F.PageForm.node form.now) draft.new.pages.items image) more.kept freed.new.items)) }
    ensures same { IfOk result (λ found. found ≡ Some (record { entry = shrunk.entry; kept = kept_in found; levels = shrunk.levels + 1 })) }
    ensures keeps { OnOk result (StaysOff page draft.old.pages.items draft.new.pages.items [] []) }
    ensures framed { OnOk result (KeepsFramesAt (F.PageForm.frame form.now) bytes.0 page draft.old.pages.items draft.new.pages.items) }
    ensures cause { IfErr result (λ e. e ≡ TreeError.Memory) }
{
    let Shrunk {
        entry,
        kept,
        levels,
    } = shrunk;
    let levels = levels + 1;
    if kept {
        return Ok(Some(Shrunk {
            entry,
            kept,
            levels,
        }));
    }
    let alone = form.is_single(bytes.bytes());
    if !alone {
        form.remove_child(&mut bytes.0, place);
    }
    settle(draft, freed, page, bytes, !alone)?;
    Ok(Some(Shrunk {
        entry,
        kept: !alone,
        levels,
    }))
}

/// A page is kept, with these bytes, or it is free.
fn settle(
    draft: &mut Draft,
    freed: &mut Vec<u32>,
    page: u32,
    bytes: Page,
    kept: bool,
) -> Result<(), TreeError>
    ensures settles { OnOk result (Settles kept page bytes.0 draft.old.pages.items draft.new.pages.items freed.old.items freed.new.items) }
    ensures keeps { OnOk result (StaysOff page draft.old.pages.items draft.new.pages.items [] []) }
    ensures cause { IfErr result (λ e. e ≡ TreeError.Memory) }
{
    if kept {
        return put_one(draft, page, bytes);
    }
    match freed.push(page) {
        Ok(()) => Ok(()),
        Err(_) => Err(TreeError::Memory),
    }
}
