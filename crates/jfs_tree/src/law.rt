//! Laws of all trees.

ghost use Rattle.jfs_tree.specs.Laws.{IsFramed, IsFoundOnWay};

use crate::pages::PageForm;

/// What a root spells, and which pages it has, depends on the pages of its footprint alone.
pub fn trees_are_framed<F: PageForm>(top: &F, form: &F)
    ensures { IsFramed F.PageForm.scale (F.PageForm.node top.now) (F.PageForm.node form.now) }
{}

/// What stands on the way to a place is what the tree's list has there, wherever a root spells a list.
pub fn way_finds<F: PageForm>(form: &F)
    ensures { IsFoundOnWay F.PageForm.scale }
{
    let _form = form;
}
