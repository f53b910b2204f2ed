//! The part of a walk below a page.

ghost use Rattle.std.specs.Prelude.{◌≡◌, ◌<◌, ◌≤◌, ◌+◌, ◌*◌, suc, Some, IfOk, length};
ghost use Rattle.jfs_tree.specs.Walk.{Node};
ghost use Rattle.jfs_tree.specs.Spells.{no_page, with_root, levels_of};
ghost use Rattle.jfs_tree.specs.Call.{pages_of, CarriesFault};
ghost use Rattle.jfs_tree.specs.Walking.{Meets, ended, children_in, page_shown, others_shown, first_shown};

use crate::form::TreeError;
use crate::walk_leaf::{Opened, open_page, walk_key, walk_leaf};
use crate::walk_read::{PageRead, Shape};
use crate::walk_visit::Visitor;
use jfs_bits::Rule;
use jfs_ranges::PageView;

/// Page `page`, the first one of its level, and all below it, at most so many levels. Answers how many levels there are below the page: all leaves stand
/// at the level of the first one.
pub(crate) fn walk_first<V: PageView, F: PageRead, W: Visitor<F::Entry>>(
    form: &F,
    view: &mut V,
    visitor: &mut W,
    most: u32,
    page: u32,
    low: &mut F::Bound,
) -> Result<u32, TreeError>
    requires page { page < V.PageView.block_count view.old }
    requires most { V.PageView.block_count view.old ≤ no_page }
    requires bound { F.PageForm.blocks form.now ≡ V.PageView.block_count view.old }
    requires size { F.PageForm.size form.now ≡ 4096 }
    requires least { F.place low.old ≡ F.PageForm.scale.least }
    ensures image { V.PageView.tells → V.PageView.image view.new ≡ V.PageView.image view.old }
    ensures count_of_blocks { V.PageView.block_count view.new ≡ V.PageView.block_count view.old }
    ensures device { V.PageView.device view.new ≡ V.PageView.device view.old }
    ensures fault { CarriesFault (V.PageView.faults view.old) (V.PageView.faults view.new) result }
    ensures within { IfOk result (λ below. below < most) }
    ensures levels { V.PageView.tells → IfOk result (λ below. (root : Node F.Key F.Entry) →
        levels_of (with_root root (pages_of (F.PageForm.node form.now) (V.PageView.image view.old))) most page ≡ Some (suc below)) }
    ensures met { V.PageView.tells → (root : Node F.Key F.Entry) → Meets F.PageForm.scale W.sees_page W.sees_entry (F.place low.old) visitor.old
        (first_shown F.PageForm.scale (with_root root (pages_of (F.PageForm.node form.now) (V.PageView.image view.old))) most page)
        (ended (F.place low.new) result) visitor.new }
{
    if most == 0 {
        return Err(TreeError::Bad {
            page,
            rule: Rule::Deep,
        });
    }
    let Opened { bytes, shape } = match open_page(form, view, visitor, page) {
        Ok(opened) => opened,
        Err(e) => return Err(e),
    };
    match shape {
        Shape::Leaf(count) => match walk_leaf(form, visitor, page, bytes.bytes(), count, low) {
            Ok(()) => Ok(0),
            Err(e) => Err(e),
        },
        Shape::Inner(count) => {
            let first = form.child(bytes.bytes(), 0);
            let below = match walk_first(form, view, visitor, most - 1, first.page, low) {
                Ok(below) => below,
                Err(e) => return Err(e),
            };
            match walk_others(form, form, view, visitor, below, bytes.bytes(), count, low) {
                Ok(()) => Ok(below + 1),
                Err(e) => Err(e),
            }
        }
    }
}

/// Page `page`, whose key is the place, with so many levels below it, and all that stands there.
#[cycle(walk)]
fn walk_page<V: PageView, F: PageRead, W: Visitor<F::Entry>>(
    form: &F,
    view: &mut V,
    visitor: &mut W,
    below: u32,
    page: u32,
    low: &mut F::Bound,
) -> Result<(), TreeError>
    requires page { page < V.PageView.block_count view.old }
    requires most { V.PageView.block_count view.old ≤ no_page }
    requires bound { F.PageForm.blocks form.now ≡ V.PageView.block_count view.old }
    requires size { F.PageForm.size form.now ≡ 4096 }
    ensures image { V.PageView.tells → V.PageView.image view.new ≡ V.PageView.image view.old }
    ensures count_of_blocks { V.PageView.block_count view.new ≡ V.PageView.block_count view.old }
    ensures device { V.PageView.device view.new ≡ V.PageView.device view.old }
    ensures fault { CarriesFault (V.PageView.faults view.old) (V.PageView.faults view.new) result }
    ensures met { V.PageView.tells → (root : Node F.Key F.Entry) → Meets F.PageForm.scale W.sees_page W.sees_entry (F.place low.old) visitor.old
        (page_shown F.PageForm.scale (with_root root (pages_of (F.PageForm.node form.now) (V.PageView.image view.old))) below page (F.place low.old))
        (ended (F.place low.new) result) visitor.new }
{
    let Opened { bytes, shape } = match open_page(form, view, visitor, page) {
        Ok(opened) => opened,
        Err(e) => return Err(e),
    };
    let deep = TreeError::Bad {
        page,
        rule: Rule::Deep,
    };
    match shape {
        Shape::Leaf(count) => {
            if below > 0 {
                return Err(deep);
            }
            walk_leaf(form, visitor, page, bytes.bytes(), count, low)
        }
        Shape::Inner(count) => {
            if below == 0 {
                return Err(deep);
            }
            let first = form.child(bytes.bytes(), 0);
            match walk_page(form, view, visitor, below - 1, first.page, low) {
                Ok(()) => walk_others(
                    form,
                    form,
                    view,
                    visitor,
                    below - 1,
                    bytes.bytes(),
                    count,
                    low,
                ),
                Err(e) => Err(e),
            }
        }
    }
}

/// The children of an inner page or root behind the first one, and all below them, with so many levels below each.
#[cycle(walk)]
pub(crate) fn walk_others<V: PageView, F: PageRead, W: Visitor<F::Entry>>(
    above: &F,
    form: &F,
    view: &mut V,
    visitor: &mut W,
    below: u32,
    bytes: &[u8],
    count: usize,
    low: &mut F::Bound,
) -> Result<(), TreeError>
    requires bytes { length bytes.now ≡ F.PageForm.size above.now }
    requires count { count ≡ length (children_in (F.PageForm.node above.now bytes.now)) }
    requires most { V.PageView.block_count view.old ≤ no_page }
    requires bound { (F.PageForm.blocks above.now ≡ V.PageView.block_count view.old) × (F.PageForm.blocks form.now ≡ V.PageView.block_count view.old) }
    requires size { F.PageForm.size form.now ≡ 4096 }
    ensures image { V.PageView.tells → V.PageView.image view.new ≡ V.PageView.image view.old }
    ensures count_of_blocks { V.PageView.block_count view.new ≡ V.PageView.block_count view.old }
    ensures device { V.PageView.device view.new ≡ V.PageView.device view.old }
    ensures fault { CarriesFault (V.PageView.faults view.old) (V.PageView.faults view.new) result }
    ensures met { V.PageView.tells → (root : Node F.Key F.Entry) → Meets F.PageForm.scale W.sees_page W.sees_entry (F.place low.old) visitor.old
        (others_shown F.PageForm.scale (with_root root (pages_of (F.PageForm.node form.now) (V.PageView.image view.old))) below (children_in (F.PageForm.node above.now bytes.now)))
        (ended (F.place low.new) result) visitor.new }
{
    for i in 1..count {
        let child = above.child(bytes, i);
        match walk_key(above, &child, low) {
            Ok(()) => {}
            Err(e) => return Err(e),
        }
        match walk_page(form, view, visitor, below, child.page, low) {
            Ok(()) => {}
            Err(e) => return Err(e),
        }
    }
    Ok(())
}
