//! A page of an extent tree, or its root: what it holds, and the pages below it.

ghost use Rattle.std.specs.Prelude.{◌≡◌, ◌<◌, ◌++◌, length, OnOk, IfOk};
ghost use Rattle.jfs_disk.specs.Image.{page_of};
ghost use Rattle.jfs_ranges.specs.View.{CarriesCount};
ghost use Rattle.jfs_tree.specs.Form.{AllBelow};
ghost use Rattle.jfs_tree.specs.Levels.{entry_count, pages_below};
ghost use Rattle.jfs_tree.specs.Walking.{children_in, rows_in};
ghost use Rattle.jfs_xtpage.specs.Page.{bytes_of};
ghost use Rattle.jfs_xtree.specs.Node.{xt_node};
ghost use Rattle.jfs_xtree.specs.Spells.{page_nodes};
ghost use Rattle.jfs_owners.specs.Counts.{Adds};
ghost use Rattle.jfs_object_check.specs.Lines.{rows_have, page_holds};

use jfs_owners::Owners;
use jfs_ranges::{PageView, ViewError};
use jfs_tree::{PageRead, Shape};
use jfs_xtpage::XtForm;
use jfs_xtree::XtPages;
use std::alloc::AllocError;

/// How many entries page `n` has, none where it breaks a rule. It is counted, with the blocks of its extents, and the pages below it go behind those of a list.
pub(crate) fn count_page<V: PageView>(
    view: &mut V,
    n: u32,
    owners: &mut Owners,
    below: &mut Vec<u32>,
) -> Result<usize, ViewError>
    requires page { n < V.PageView.block_count view.old }
    ensures image { V.PageView.tells → V.PageView.image view.new ≡ V.PageView.image view.old }
    ensures count_of_blocks { V.PageView.block_count view.new ≡ V.PageView.block_count view.old }
    ensures device { V.PageView.device view.new ≡ V.PageView.device view.old }
    ensures fault { CarriesCount (V.PageView.faults view.old) (V.PageView.faults view.new) result }
    ensures count { V.PageView.tells → IfOk result (λ count. count ≡ entry_count (page_nodes (V.PageView.block_count view.old) (page_of (V.PageView.image view.old)) n)) }
    ensures below { V.PageView.tells → OnOk result (below.new.items ≡ below.old.items ++ pages_below (page_nodes (V.PageView.block_count view.old) (page_of (V.PageView.image view.old)) n)) }
    ensures within { AllBelow (V.PageView.block_count view.old) below.old.items → OnOk result (AllBelow (V.PageView.block_count view.old) below.new.items) }
    ensures held { V.PageView.tells → OnOk result (Adds (page_holds (page_nodes (V.PageView.block_count view.old) (page_of (V.PageView.image view.old))) n) owners.old owners.new) }
{
    let form = XtPages {
        form: XtForm::Full,
        blocks: view.blocks(),
    };
    owners.add_page(n);
    match view.page(n) {
        Ok(page) => match count_node(&form, page.bytes(), owners, below) {
            Ok(count) => Ok(count),
            Err(_) => Err(ViewError::Memory),
        },
        Err(e) => Err(e),
    }
}

/// How many entries a page or root has, none where it breaks a rule. The blocks of its extents are counted, and the pages below it go behind those of a list.
pub(crate) fn count_node(
    form: &XtPages,
    bytes: &[u8],
    owners: &mut Owners,
    below: &mut Vec<u32>,
) -> Result<usize, AllocError>
    requires { length bytes.now ≡ bytes_of form.now.form }
    ensures count { IfOk result (λ count. count ≡ entry_count (xt_node form.now.form form.now.blocks bytes.now)) }
    ensures below { OnOk result (below.new.items ≡ below.old.items ++ pages_below (xt_node form.now.form form.now.blocks bytes.now)) }
    ensures within { AllBelow form.now.blocks below.old.items → OnOk result (AllBelow form.now.blocks below.new.items) }
    ensures held { OnOk result (Adds (rows_have (xt_node form.now.form form.now.blocks bytes.now)) owners.old owners.new) }
{
    match form.shape(bytes) {
        Err(_) => Ok(0),
        Ok(Shape::Leaf(count)) => {
            add_rows(form, bytes, count, owners);
            Ok(count)
        }
        Ok(Shape::Inner(count)) => {
            push_children(form, bytes, count, below)?;
            Ok(count)
        }
    }
}

/// The blocks of a leaf's extents, which are so many.
fn add_rows(form: &XtPages, bytes: &[u8], count: usize, owners: &mut Owners)
    requires size { length bytes.now ≡ bytes_of form.now.form }
    requires count { count ≡ length (rows_in (xt_node form.now.form form.now.blocks bytes.now)) }
    ensures { Adds (rows_have (xt_node form.now.form form.now.blocks bytes.now)) owners.old owners.new }
{
    let mut x = form.any_entry();
    for i in 0..count {
        form.read_entry(bytes, i, &mut x);
        owners.add(x.at);
    }
}

/// The pages of an inner page's children, which are so many.
fn push_children(
    form: &XtPages,
    bytes: &[u8],
    count: usize,
    below: &mut Vec<u32>,
) -> Result<(), AllocError>
    requires size { length bytes.now ≡ bytes_of form.now.form }
    requires count { count ≡ length (children_in (xt_node form.now.form form.now.blocks bytes.now)) }
    ensures below { OnOk result (below.new.items ≡ below.old.items ++ pages_below (xt_node form.now.form form.now.blocks bytes.now)) }
    ensures within { AllBelow form.now.blocks below.old.items → OnOk result (AllBelow form.now.blocks below.new.items) }
{
    for i in 0..count {
        let child = form.child(bytes, i);
        match below.push(child.page) {
            Ok(()) => {}
            Err(_) => return Err(AllocError),
        }
    }
    Ok(())
}
