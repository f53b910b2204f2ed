//! An entry that is taken out of a whole tree, from its root on.

ghost use Rattle.std.specs.Prelude.{◌≡◌, [], IfOk, IfErr, IfNone, OnOk, length};
ghost use Rattle.jfs_tree.specs.Edit.{IsPoint};
ghost use Rattle.jfs_tree.specs.Leftmost.{RootOrGoes};
ghost use Rattle.jfs_tree.specs.Path.{broken_on_way, found_on_way, TellsBroken};
ghost use Rattle.jfs_tree.specs.Call.{nodes, pages_of, CarriesFault};
ghost use Rattle.jfs_tree.specs.Root.{NamesBroken};
ghost use Rattle.jfs_tree.specs.Frames.{KeepsFrames};
ghost use Rattle.jfs_tree.specs.Removal.{HasChildAt};
ghost use Rattle.jfs_tree.specs.RootLoss.{KeepsOthers, RemovesAlways, RootLost};

use crate::draft::Draft;
use crate::form::{NO_PAGE, TreeError, Way};
use crate::loss::PageLoss;
use crate::removal::{Shrunk, remove_below};
use jfs_ranges::PageView;

/// Takes the entry that shares a place with `x`, which is one place, out of a root's tree, and answers it. The root is changed in place, the
/// changed pages go into the draft, and those that are empty then into `freed`; both have none yet. A root whose last child goes is a leaf
/// without entries. Where there is no such entry, nothing changes. After an `Err` the root is as before; draft and `freed` are to be thrown away.
pub fn remove_entry<V: PageView, F: PageLoss>(
    top: &F,
    form: &F,
    view: &mut V,
    draft: &mut Draft,
    freed: &mut Vec<u32>,
    root: &mut [u8],
    x: &F::Entry,
) -> Result<Option<F::Entry>, TreeError>
    requires root { length root.old ≡ F.PageForm.size top.now }
    requires bound { (F.PageForm.blocks top.now ≡ V.PageView.block_count view.old) × (F.PageForm.blocks form.now ≡ V.PageView.block_count view.old) }
    requires size { F.PageForm.size form.now ≡ 4096 }
    requires top { F.PageForm.is_root top.now }
    requires point { IsPoint F.PageForm.scale x.now }
    requires fresh { (draft.old.pages.items ≡ []) × (freed.old.items ≡ []) }
    ensures image { V.PageView.tells → V.PageView.image view.new ≡ V.PageView.image view.old }
    ensures count_of_blocks { V.PageView.block_count view.new ≡ V.PageView.block_count view.old }
    ensures device { V.PageView.device view.new ≡ V.PageView.device view.old }
    ensures fault { CarriesFault (V.PageView.faults view.old) (V.PageView.faults view.new) result }
    ensures removes { V.PageView.tells → IfOk result (λ found. RemovesAlways F.PageForm.scale x.now
        (pages_of (F.PageForm.node form.now) (V.PageView.image view.old))
        (nodes (F.PageForm.node form.now) draft.new.pages.items (V.PageView.image view.old))
        (F.PageForm.node top.now root.old) (F.PageForm.node top.now root.new) freed.new.items found) }
    ensures keeps { V.PageView.tells → OnOk result (KeepsOthers F.PageForm.scale (pages_of (F.PageForm.node form.now) (V.PageView.image view.old)) (F.PageForm.node top.now root.old) (V.PageView.image view.old) draft.new.pages.items) }
    ensures framed { V.PageView.tells → OnOk result (KeepsFrames (F.PageForm.frame form.now) (V.PageView.image view.old) [] draft.new.pages.items) }
    ensures frame { F.PageForm.frame top.now root.new ≡ F.PageForm.frame top.now root.old }
    ensures inner { V.PageView.tells → OnOk result (RootOrGoes (pages_of (F.PageForm.node form.now) (V.PageView.image view.old)) (nodes (F.PageForm.node form.now) draft.new.pages.items (V.PageView.image view.old))
        (F.PageForm.node top.now root.old) (F.PageForm.node top.now root.new) freed.new.items) }
    ensures absent { IfOk result (λ found. IfNone found ((root.new ≡ root.old) × (draft.new.pages.items ≡ []) × (freed.new.items ≡ []))) }
    ensures kept { IfErr result (λ e. root.new ≡ root.old) }
    ensures bad { V.PageView.tells → IfErr result (λ e.
        NamesBroken F.PageForm.scale (pages_of (F.PageForm.node form.now) (V.PageView.image view.old)) (F.PageForm.node top.now root.old) e) }
    ensures way { V.PageView.tells → TellsBroken (broken_on_way F.PageForm.scale (pages_of (F.PageForm.node form.now) (V.PageView.image view.old)) (F.PageForm.scale.from x.now) (F.PageForm.node top.now root.old)) result }
    ensures on_way { V.PageView.tells → IfOk result (λ found.
        found ≡ found_on_way F.PageForm.scale (pages_of (F.PageForm.node form.now) (V.PageView.image view.old)) x.now (F.PageForm.node top.now root.old)) }
{
    match top.way(root, x) {
        Err(rule) => Err(TreeError::Bad {
            page: NO_PAGE,
            rule,
        }),
        Ok(Way::Here) => Ok(top.remove(root, x)),
        Ok(
            Way::Down {
                place,
                page,
                last: _,
            },
        ) => match remove_below(form, view, draft, freed, 7, page, x) {
            Ok(Some(shrunk)) => Ok(Some(root_loses(top, root, place, shrunk))),
            Ok(None) => Ok(None),
            Err(e) => Err(e),
        },
    }
}

/// What becomes of a root whose child at a place lost an entry, which it answers: where the child went with its last one, so does its place.
fn root_loses<F: PageLoss>(
    top: &F,
    root: &mut [u8],
    place: usize,
    shrunk: Shrunk<F::Entry>,
) -> F::Entry
    requires root { length root.old ≡ F.PageForm.size top.now }
    requires top { F.PageForm.is_root top.now }
    requires there { HasChildAt place (F.PageForm.node top.now root.old) }
    ensures entry { result ≡ shrunk.entry }
    ensures did { RootLost place shrunk.kept (F.PageForm.node top.now root.old) (F.PageForm.node top.now root.new) }
    ensures frame { F.PageForm.frame top.now root.new ≡ F.PageForm.frame top.now root.old }
{
    let Shrunk {
        entry,
        kept,
        levels: _,
    } = shrunk;
    if kept {
        return entry;
    }
    if top.is_single(root) {
        top.empty(root);
    } else {
        top.remove_child(root, place);
    }
    entry
}
