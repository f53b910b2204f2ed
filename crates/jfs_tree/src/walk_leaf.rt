//! The part of a walk that looks at one page.

ghost use Rattle.std.specs.Prelude.{◌≡◌, ◌<◌, ℕ, length, map, IfOk};
ghost use Rattle.jfs_disk.specs.Image.{page_of};
ghost use Rattle.jfs_disk.specs.declared.disk.Fault.{Fault};
ghost use Rattle.jfs_tree.specs.Walk.{Row};
ghost use Rattle.jfs_tree.specs.Call.{CarriesFault};
ghost use Rattle.jfs_tree.specs.Walking.{Meets, Counts, Opens, PassesKey, ended, rows_in, leaf_shown};

use crate::draft::copy_of;
use crate::form::{Sibling, TreeError};
use crate::walk_read::{PageRead, Shape};
use crate::walk_visit::Visitor;
use jfs_bits::Rule;
use jfs_disk::Page;
use jfs_ranges::PageView;

/// A copy of a page that breaks no rule of its own, and what it is.
#[derive(Drop)]
pub(crate) struct Opened {
    pub(crate) bytes: Page,
    pub(crate) shape: Shape,
}

/// Reads page `page`, which stands below a root and so isn't empty.
pub(crate) fn open_page<V: PageView, F: PageRead, W: Visitor<F::Entry>>(
    form: &F,
    view: &mut V,
    visitor: &mut W,
    page: u32,
) -> Result<Opened, TreeError>
    requires page { page < V.PageView.block_count view.old }
    requires size { F.PageForm.size form.now ≡ 4096 }
    ensures image { V.PageView.tells → V.PageView.image view.new ≡ V.PageView.image view.old }
    ensures count_of_blocks { V.PageView.block_count view.new ≡ V.PageView.block_count view.old }
    ensures device { V.PageView.device view.new ≡ V.PageView.device view.old }
    ensures fault { CarriesFault (V.PageView.faults view.old) (V.PageView.faults view.new) result }
    ensures bytes { V.PageView.tells → IfOk result (λ opened. opened.bytes.0 ≡ page_of (V.PageView.image view.old) page) }
    ensures counts { IfOk result (λ opened. Counts (F.PageForm.node form.now opened.bytes.0) opened.shape) }
    ensures opens { V.PageView.tells → Opens W.sees_page page (F.PageForm.node form.now (page_of (V.PageView.image view.old) page)) visitor.old result visitor.new }
{
    let bytes = match view.page(page) {
        Ok(bytes) => copy_of(bytes),
        Err(e) => return Err(TreeError::View(e)),
    };
    visitor.page(page);
    match form.shape(bytes.bytes()) {
        Err(rule) => Err(TreeError::Bad { page, rule }),
        Ok(Shape::Leaf(0)) | Ok(Shape::Inner(0)) => Err(TreeError::Bad {
            page,
            rule: Rule::Deep,
        }),
        Ok(shape) => Ok(Opened { bytes, shape }),
    }
}

/// Page `page`, a leaf with so many entries, whose key is the place: the first one fits it.
pub(crate) fn walk_leaf<F: PageRead, W: Visitor<F::Entry>>(
    form: &F,
    visitor: &mut W,
    page: u32,
    bytes: &[u8],
    count: usize,
    low: &mut F::Bound,
) -> Result<(), TreeError>
    requires size { length bytes.now ≡ F.PageForm.size form.now }
    requires count { count ≡ length (rows_in (F.PageForm.node form.now bytes.now)) }
    requires some { 0 < count }
    ensures met { Meets F.PageForm.scale W.sees_page W.sees_entry (F.place low.old) visitor.old (leaf_shown F.PageForm.scale page (F.place low.old) (rows_in (F.PageForm.node form.now bytes.now))) (ended (F.place low.new) result) visitor.new }
    ensures fault { (n : Fault) → CarriesFault n n result }
{
    let mut x = form.any_entry();
    form.read_entry(bytes, 0, &mut x);
    if !form.fits(low, &x) {
        return Err(TreeError::Bad {
            page,
            rule: Rule::Order,
        });
    }
    walk_rows(form, visitor, page, bytes, count, low)
}

/// The entries of page `page`, a leaf with so many, from a place on.
pub(crate) fn walk_rows<F: PageRead, W: Visitor<F::Entry>>(
    form: &F,
    visitor: &mut W,
    page: u32,
    bytes: &[u8],
    count: usize,
    low: &mut F::Bound,
) -> Result<(), TreeError>
    requires size { length bytes.now ≡ F.PageForm.size form.now }
    requires count { count ≡ length (rows_in (F.PageForm.node form.now bytes.now)) }
    ensures met { Meets F.PageForm.scale W.sees_page W.sees_entry (F.place low.old) visitor.old (map (Row page) (rows_in (F.PageForm.node form.now bytes.now))) (ended (F.place low.new) result) visitor.new }
    ensures fault { (n : Fault) → CarriesFault n n result }
{
    let mut x = form.any_entry();
    for i in 0..count {
        form.read_entry(bytes, i, &mut x);
        if !form.takes_entry(low, &x) {
            return Err(TreeError::Bad {
                page,
                rule: Rule::Order,
            });
        }
        match visitor.entry(page, &x) {
            Ok(()) => {}
            Err(_) => return Err(TreeError::Memory),
        }
        form.pass(&x, low);
    }
    Ok(())
}

/// The key of a child that isn't the first of its page.
pub(crate) fn walk_key<F: PageRead>(
    form: &F,
    child: &Sibling<F::Key>,
    low: &mut F::Bound,
) -> Result<(), TreeError>
    ensures passes { PassesKey F.PageForm.scale (F.place low.old) child.now (F.place low.new) result }
    ensures fault { (n : Fault) → CarriesFault n n result }
{
    if !form.takes_key(low, &child.key) {
        return Err(TreeError::Bad {
            page: child.page,
            rule: Rule::Order,
        });
    }
    *low = form.at_key(&child.key);
    Ok(())
}
