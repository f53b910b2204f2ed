//! Trees shown to a visitor.

ghost use Rattle.std.specs.Prelude.{◌≡◌, length, List, true, Ok, IfOk};
ghost use Rattle.jfs_ranges.specs.View.{CarriesCount};
ghost use Rattle.jfs_tree.specs.Spells.{tree_of};
ghost use Rattle.jfs_tree.specs.Call.{pages_of};
ghost use Rattle.jfs_findings.specs.objects.specs.Objects.{listed};
ghost use Rattle.jfs_owners.specs.Held.{Sees, SeesFront, HandsOn};

use jfs_ranges::{PageView, ViewError};
use jfs_tree::{PageRead, TreeError, Visitor, walk_tree};
use std::alloc::AllocError;

/// A visitor that keeps nothing: for a walk that looks at a tree for its rules alone.
#[derive(Drop)]
pub struct Judge {}

impl<E> Visitor<E> for Judge {
    ghost sees_page = { λ old n new. Unit {0} };

    ghost sees_entry = { λ old n x new. Unit {0} };

    fn page(&mut self, _n: u32) {}

    fn entry(&mut self, _n: u32, _x: &E) -> Result<(), AllocError> {
        Ok(())
    }
}

/// A tree that breaks a rule isn't shown; any other error is the view's.
fn not_shown(e: TreeError) -> Result<bool, ViewError>
    ensures { HandsOn e result }
{
    match e {
        TreeError::View(e) => Err(e),
        TreeError::Bad { .. } => Ok(false),
        TreeError::Memory => Err(ViewError::Memory),
    }
}

/// Shows a root's tree to a visitor, each page once: the whole of one that breaks no rule, and of any other what stands in front of the first broken rule.
pub(crate) fn show_sound<V: PageView, F: PageRead, W: Visitor<F::Entry>>(
    top: &F,
    form: &F,
    view: &mut V,
    root: &[u8],
    visitor: &mut W,
) -> Result<(), ViewError>
    requires root { length root.now ≡ F.PageForm.size top.now }
    requires bound { (F.PageForm.blocks top.now ≡ V.PageView.block_count view.old) × (F.PageForm.blocks form.now ≡ V.PageView.block_count view.old) }
    requires size { F.PageForm.size form.now ≡ 4096 }
    ensures image { V.PageView.tells → V.PageView.image view.new ≡ V.PageView.image view.old }
    ensures count_of_blocks { V.PageView.block_count view.new ≡ V.PageView.block_count view.old }
    ensures device { V.PageView.device view.new ≡ V.PageView.device view.old }
    ensures fault { CarriesCount (V.PageView.faults view.old) (V.PageView.faults view.new) result }
    ensures sees { V.PageView.tells → IfOk result (λ it. (es : List F.Entry) →
        listed F.PageForm.scale (tree_of F.PageForm.scale (pages_of (F.PageForm.node form.now) (V.PageView.image view.old)) (F.PageForm.node top.now root.now)) ≡ Ok es →
        Sees F.PageForm.scale W.sees_page W.sees_entry
        (tree_of F.PageForm.scale (pages_of (F.PageForm.node form.now) (V.PageView.image view.old)) (F.PageForm.node top.now root.now)) visitor.old visitor.new true) }
    ensures front { V.PageView.tells → IfOk result (λ it. SeesFront F.PageForm.scale W.sees_page W.sees_entry
        (tree_of F.PageForm.scale (pages_of (F.PageForm.node form.now) (V.PageView.image view.old)) (F.PageForm.node top.now root.now)) visitor.old visitor.new) }
{
    match walk_tree(top, form, view, root, visitor) {
        Ok(()) => Ok(()),
        Err(TreeError::View(e)) => Err(e),
        Err(TreeError::Memory) => Err(ViewError::Memory),
        Err(TreeError::Bad { .. }) => Ok(()),
    }
}

/// Shows a root's tree to a visitor, if it breaks no rule, and answers whether it was shown. Each page is read twice at most.
pub(crate) fn show_tree<V: PageView, F: PageRead, W: Visitor<F::Entry>>(
    top: &F,
    form: &F,
    view: &mut V,
    root: &[u8],
    visitor: &mut W,
) -> Result<bool, ViewError>
    requires root { length root.now ≡ F.PageForm.size top.now }
    requires bound { (F.PageForm.blocks top.now ≡ V.PageView.block_count view.old) × (F.PageForm.blocks form.now ≡ V.PageView.block_count view.old) }
    requires size { F.PageForm.size form.now ≡ 4096 }
    ensures image { V.PageView.tells → V.PageView.image view.new ≡ V.PageView.image view.old }
    ensures count_of_blocks { V.PageView.block_count view.new ≡ V.PageView.block_count view.old }
    ensures device { V.PageView.device view.new ≡ V.PageView.device view.old }
    ensures fault { CarriesCount (V.PageView.faults view.old) (V.PageView.faults view.new) result }
    ensures sees { V.PageView.tells → IfOk result (Sees F.PageForm.scale W.sees_page W.sees_entry
        (tree_of F.PageForm.scale (pages_of (F.PageForm.node form.now) (V.PageView.image view.old)) (F.PageForm.node top.now root.now)) visitor.old visitor.new) }
{
    let mut judge = Judge {};
    match walk_tree(top, form, view, root, &mut judge) {
        Ok(()) => {}
        Err(e) => return not_shown(e),
    }
    show_sound(top, form, view, root, visitor)?;
    Ok(true)
}
