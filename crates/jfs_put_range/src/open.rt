//! A page below a root that is read with its entries.

ghost use Rattle.std.specs.Prelude.{◌≡◌, ◌<◌, ◌^◌, IfOk, IfErr};
ghost use Rattle.jfs_tree.specs.Call.{CarriesFault};
ghost use Rattle.jfs_tree.specs.Draft.{shown};
ghost use Rattle.jfs_xtpage.specs.declared.head.XtForm.TheVariants.{Full};
ghost use Rattle.jfs_xtree.specs.Node.{xt_node};
ghost use Rattle.jfs_put_range.specs.Parts.{IsKind, IsOpened, BreaksRule, NamesBelow};

use jfs_bits::{Rule, Xad};
use jfs_disk::Page;
use jfs_ranges::PageView;
use jfs_refill::items;
use jfs_tree::{Draft, PageRead, Shape, TreeError};
use jfs_xtpage::XtForm;
use jfs_xtree::XtPages;
use std::alloc::Global;

/// A page that breaks no rule, and its entries: a leaf's extents, or an inner page's children.
#[derive(Drop)]
pub(crate) struct Opened {
    pub page: Page,
    pub entries: Vec<Xad>,
    pub leaf: bool,
}

/// Page `n` of a draft; `deep` where it is a leaf without entries.
pub(crate) fn open_page<V: PageView>(
    alloc: Global,
    view: &mut V,
    draft: &Draft,
    n: u32,
) -> Result<Opened, TreeError>
    requires page { n < V.PageView.block_count view.old }
    requires small { V.PageView.block_count view.old < 2 ^ 32 }
    ensures image { V.PageView.tells → V.PageView.image view.new ≡ V.PageView.image view.old }
    ensures count_of_blocks { V.PageView.block_count view.new ≡ V.PageView.block_count view.old }
    ensures device { V.PageView.device view.new ≡ V.PageView.device view.old }
    ensures fault { CarriesFault (V.PageView.faults view.old) (V.PageView.faults view.new) result }
    ensures bytes { V.PageView.tells → IfOk result (λ o. o.page.0 ≡ shown draft.now.pages.items (V.PageView.image view.old) n) }
    ensures names { IfErr result NamesBelow }
    ensures opened { IfOk result (λ o. IsOpened (V.PageView.block_count view.old) o.page.0 o.entries.items o.leaf) }
    ensures bad { V.PageView.tells → IfErr result (λ e. BreaksRule (xt_node Full (V.PageView.block_count view.old) (shown draft.now.pages.items (V.PageView.image view.old) n)) n e) }
{
    let page = match draft.read(view, n) {
        Ok(page) => page,
        Err(e) => return Err(TreeError::View(e)),
    };
    let pages = XtPages {
        form: XtForm::Full,
        blocks: view.blocks(),
    };
    let bare = TreeError::Bad {
        page: n,
        rule: Rule::Deep,
    };
    match pages.shape(page.bytes()) {
        Ok(Shape::Leaf(count)) => {
            if count == 0 {
                return Err(bare);
            }
            with_entries(alloc, page, pages.blocks, true)
        }
        Ok(Shape::Inner(_)) => with_entries(alloc, page, pages.blocks, false),
        Err(rule) => Err(TreeError::Bad { page: n, rule }),
    }
}

#[tactic(auto, using(crate::proofs::Opened::kind_laid, crate::proofs::Opened::kind_opened))]
fn with_entries(alloc: Global, page: Page, blocks: u32, leaf: bool) -> Result<Opened, TreeError>
    requires { IsKind blocks page.0 leaf }
    ensures page { IfOk result (λ o. o.page.0 ≡ page.0) }
    ensures opened { IfOk result (λ o. IsOpened blocks o.page.0 o.entries.items o.leaf) }
    ensures cause { IfErr result (λ e. e ≡ TreeError.Memory) }
{
    match items(alloc, page.bytes()) {
        Ok(entries) => Ok(Opened {
            page,
            entries,
            leaf,
        }),
        Err(_) => Err(TreeError::Memory),
    }
}
