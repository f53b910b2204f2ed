//! The first keys on the leftmost way of a tree, from its root down the first children, which are the least ones.

ghost use Rattle.std.specs.Prelude.{◌≡◌, ◌<◌, [], IfOk, IfErr, IfNone, OnOk, length};
ghost use Rattle.jfs_ranges.specs.View.{CarriesCount};
ghost use Rattle.jfs_tree.specs.Call.{nodes, pages_of, CarriesFault, IsRead};
ghost use Rattle.jfs_tree.specs.Edit.{IsPoint};
ghost use Rattle.jfs_tree.specs.Frames.{KeepsFrames};
ghost use Rattle.jfs_tree.specs.Leftmost.{IsLeftmost, LowersBelow, LowersTree};
ghost use Rattle.jfs_tree.specs.Path.{broken_on_way, found_on_way, TellsBroken};
ghost use Rattle.jfs_tree.specs.Root.{NamesBroken};
ghost use Rattle.jfs_tree.specs.RootLoss.{KeepsOthers, RemovesAlways};

use crate::draft::Draft;
use crate::form::TreeError;
use crate::loss::PageLoss;
use crate::remove_root::remove_entry;
use crate::take::put_one;
use jfs_ranges::PageView;

/// Takes an entry out as `remove_entry` does. Where pages went, the leftmost way may lead through others than before, so its first keys are made the least
/// ones. After an `Err` root, draft and `freed` are to be thrown away.
pub(crate) fn remove_leftmost<V: PageView, F: PageLoss>(
    top: &F,
    form: &F,
    view: &mut V,
    draft: &mut Draft,
    freed: &mut Vec<u32>,
    root: &mut [u8],
    x: &F::Entry,
) -> Result<Option<F::Entry>, TreeError>
    requires root { length root.old ≡ F.PageForm.size top.now }
    requires bound { (F.PageForm.blocks top.now ≡ V.PageView.block_count view.old) × (F.PageForm.blocks form.now ≡ V.PageView.block_count view.old) }
    requires size { F.PageForm.size form.now ≡ 4096 }
    requires top { F.PageForm.is_root top.now }
    requires point { IsPoint F.PageForm.scale x.now }
    requires fresh { (draft.old.pages.items ≡ []) × (freed.old.items ≡ []) }
    ensures image { V.PageView.tells → V.PageView.image view.new ≡ V.PageView.image view.old }
    ensures count_of_blocks { V.PageView.block_count view.new ≡ V.PageView.block_count view.old }
    ensures device { V.PageView.device view.new ≡ V.PageView.device view.old }
    ensures fault { CarriesFault (V.PageView.faults view.old) (V.PageView.faults view.new) result }
    ensures removes { V.PageView.tells → IfOk result (λ found. RemovesAlways F.PageForm.scale x.now
        (pages_of (F.PageForm.node form.now) (V.PageView.image view.old))
        (nodes (F.PageForm.node form.now) draft.new.pages.items (V.PageView.image view.old))
        (F.PageForm.node top.now root.old) (F.PageForm.node top.now root.new) freed.new.items found) }
    ensures left { V.PageView.tells → OnOk result (IsLeftmost F.PageForm.scale (pages_of (F.PageForm.node form.now) (V.PageView.image view.old)) (F.PageForm.node top.now root.old)
        → IsLeftmost F.PageForm.scale (nodes (F.PageForm.node form.now) draft.new.pages.items (V.PageView.image view.old)) (F.PageForm.node top.now root.new)) }
    ensures keeps { V.PageView.tells → OnOk result (KeepsOthers F.PageForm.scale (pages_of (F.PageForm.node form.now) (V.PageView.image view.old)) (F.PageForm.node top.now root.old) (V.PageView.image view.old) draft.new.pages.items) }
    ensures framed { V.PageView.tells → OnOk result (KeepsFrames (F.PageForm.frame form.now) (V.PageView.image view.old) [] draft.new.pages.items) }
    ensures frame { F.PageForm.frame top.now root.new ≡ F.PageForm.frame top.now root.old }
    ensures absent { IfOk result (λ found. IfNone found ((root.new ≡ root.old) × (draft.new.pages.items ≡ []) × (freed.new.items ≡ []))) }
    ensures bad { V.PageView.tells → IfErr result (λ e.
        NamesBroken F.PageForm.scale (pages_of (F.PageForm.node form.now) (V.PageView.image view.old)) (F.PageForm.node top.now root.old) e) }
    ensures way { V.PageView.tells → TellsBroken (broken_on_way F.PageForm.scale (pages_of (F.PageForm.node form.now) (V.PageView.image view.old)) (F.PageForm.scale.from x.now) (F.PageForm.node top.now root.old)) result }
    ensures on_way { V.PageView.tells → IfOk result (λ found.
        found ≡ found_on_way F.PageForm.scale (pages_of (F.PageForm.node form.now) (V.PageView.image view.old)) x.now (F.PageForm.node top.now root.old)) }
{
    let found = match remove_entry(top, form, view, draft, freed, root, x) {
        Ok(found) => found,
        Err(e) => return Err(e),
    };
    if freed.as_slice().is_empty() {
        return Ok(found);
    }
    match lower_tree(top, form, view, draft, root) {
        Ok(()) => Ok(found),
        Err(e) => Err(e),
    }
}

/// Makes the first key of each inner page on the leftmost way of a root's tree the least one. The root is changed in place, the pages go into the draft.
fn lower_tree<V: PageView, F: PageLoss>(
    top: &F,
    form: &F,
    view: &mut V,
    draft: &mut Draft,
    root: &mut [u8],
) -> Result<(), TreeError>
    requires root { length root.old ≡ F.PageForm.size top.now }
    requires bound { (F.PageForm.blocks top.now ≡ V.PageView.block_count view.old) × (F.PageForm.blocks form.now ≡ V.PageView.block_count view.old) }
    requires size { F.PageForm.size form.now ≡ 4096 }
    ensures image { V.PageView.tells → V.PageView.image view.new ≡ V.PageView.image view.old }
    ensures count_of_blocks { V.PageView.block_count view.new ≡ V.PageView.block_count view.old }
    ensures device { V.PageView.device view.new ≡ V.PageView.device view.old }
    ensures fault { CarriesFault (V.PageView.faults view.old) (V.PageView.faults view.new) result }
    ensures lowers { V.PageView.tells → OnOk result (LowersTree (F.PageForm.node form.now) (F.PageForm.frame form.now) F.PageForm.scale (V.PageView.image view.old)
        draft.old.pages.items draft.new.pages.items (F.PageForm.node top.now root.old) (F.PageForm.node top.now root.new)) }
    ensures frame { F.PageForm.frame top.now root.new ≡ F.PageForm.frame top.now root.old }
    ensures cause { IfErr result IsRead }
{
    match top.lower_first(root) {
        Some(page) => lower_below(form, view, draft, 7, page),
        None => Ok(()),
    }
}

/// Makes them the least ones from a page on, so many levels down.
fn lower_below<V: PageView, F: PageLoss>(
    form: &F,
    view: &mut V,
    draft: &mut Draft,
    most: u32,
    page: u32,
) -> Result<(), TreeError>
    requires page { page < V.PageView.block_count view.old }
    requires bound { F.PageForm.blocks form.now ≡ V.PageView.block_count view.old }
    requires size { F.PageForm.size form.now ≡ 4096 }
    ensures image { V.PageView.tells → V.PageView.image view.new ≡ V.PageView.image view.old }
    ensures count_of_blocks { V.PageView.block_count view.new ≡ V.PageView.block_count view.old }
    ensures device { V.PageView.device view.new ≡ V.PageView.device view.old }
    ensures fault { CarriesFault (V.PageView.faults view.old) (V.PageView.faults view.new) result }
    ensures lowers { V.PageView.tells → OnOk result (LowersBelow (F.PageForm.node form.now) (F.PageForm.frame form.now) F.PageForm.scale (V.PageView.image view.old)
        draft.old.pages.items draft.new.pages.items most page) }
    ensures cause { IfErr result IsRead }
{
    if most == 0 {
        return Ok(());
    }
    let mut bytes = match draft.read(view, page) {
        Ok(bytes) => bytes,
        Err(e) => return Err(TreeError::View(e)),
    };
    let Some(child) = form.lower_first(&mut bytes.0) else {
        return Ok(());
    };
    put_one(draft, page, bytes)?;
    lower_below(form, view, draft, most - 1, child)
}
