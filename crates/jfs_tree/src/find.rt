//! An entry that is looked for below a page.

ghost use Rattle.std.specs.Prelude.{◌≡◌, ◌<◌, IfOk, IfErr};
ghost use Rattle.jfs_tree.specs.Edit.{IsPoint};
ghost use Rattle.jfs_tree.specs.Path.{broken_below, found_below, TellsBroken};
ghost use Rattle.jfs_tree.specs.Call.{pages_of, Finds, BreaksWhereBad, CarriesFault};

use crate::form::{TreeError, Way};
use crate::lead::way_below;
use crate::pages::PageForm;
use jfs_bits::Rule;
use jfs_ranges::PageView;

/// The entry below a page that shares a place with `x`, which is one place. It reads one page a level, at most so many levels deep, and names the
/// first one that breaks a rule.
pub fn find_below<V: PageView, F: PageForm>(
    form: &F,
    view: &mut V,
    most: u32,
    page: u32,
    x: &F::Entry,
) -> Result<Option<F::Entry>, TreeError>
    requires page { page < V.PageView.block_count view.old }
    requires bound { F.PageForm.blocks form.now ≡ V.PageView.block_count view.old }
    requires size { F.PageForm.size form.now ≡ 4096 }
    requires point { IsPoint F.PageForm.scale x.now }
    ensures image { V.PageView.tells → V.PageView.image view.new ≡ V.PageView.image view.old }
    ensures count_of_blocks { V.PageView.block_count view.new ≡ V.PageView.block_count view.old }
    ensures device { V.PageView.device view.new ≡ V.PageView.device view.old }
    ensures fault { CarriesFault (V.PageView.faults view.old) (V.PageView.faults view.new) result }
    ensures found { V.PageView.tells → IfOk result (λ found.
        Finds F.PageForm.scale x.now (pages_of (F.PageForm.node form.now) (V.PageView.image view.old)) page found) }
    ensures on_way { V.PageView.tells → IfOk result (λ found.
        found ≡ found_below F.PageForm.scale (pages_of (F.PageForm.node form.now) (V.PageView.image view.old)) x.now most page) }
    ensures bad { V.PageView.tells → IfErr result (λ e.
        BreaksWhereBad (pages_of (F.PageForm.node form.now) (V.PageView.image view.old)) most page e) }
    ensures way { V.PageView.tells → TellsBroken (broken_below F.PageForm.scale (pages_of (F.PageForm.node form.now) (V.PageView.image view.old)) (F.PageForm.scale.from x.now) most page) result }
{
    if most == 0 {
        return Err(TreeError::Bad {
            page,
            rule: Rule::Deep,
        });
    }
    let bytes = match view.page(page) {
        Ok(bytes) => bytes,
        Err(e) => return Err(TreeError::View(e)),
    };
    match way_below(form, bytes.bytes(), x) {
        Err(rule) => Err(TreeError::Bad { page, rule }),
        Ok(Way::Here) => Ok(form.find(bytes.bytes(), x)),
        Ok(
            Way::Down {
                place: _,
                page: child,
                last: _,
            },
        ) => find_below(form, view, most - 1, child, x),
    }
}
