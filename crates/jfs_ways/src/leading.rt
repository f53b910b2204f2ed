//! Where a page leads blocks of a file.

ghost use Rattle.std.specs.Prelude.{◌≡◌, ◌<◌, IfOk, length};
ghost use Rattle.jfs_tree.specs.Path.{below_root};
ghost use Rattle.jfs_xtpage.specs.Page.{bytes_of};
ghost use Rattle.jfs_xtree.specs.Node.{xt_node};
ghost use Rattle.jfs_ways.specs.Leading.{LeadsOn, StaysWithin};

use jfs_bits::{Pxd, Rule, Xad};
use jfs_tree::{PageForm, PageRead, Way};
use jfs_xtree::XtPages;

/// The page to which a page leads a block of the file and those behind it, before block `next`.
#[derive(Drop)]
pub(crate) struct Led {
    pub page: u32,
    pub next: u64,
}

/// Where a page leads block `at` of the file and those behind it, before block `end`; `None` where it is a leaf, or the first rule that it breaks.
pub(crate) fn lead(form: &XtPages, bytes: &[u8], at: u64, end: u64) -> Result<Option<Led>, Rule>
    requires size { length bytes.now ≡ bytes_of form.now.form }
    requires some { at < end }
    ensures leads { LeadsOn (xt_node form.now.form form.now.blocks bytes.now) at end result }
    ensures within { IfOk result (StaysWithin form.now.blocks) }
{
    match form.way(bytes, &one_block(at)) {
        Err(rule) => Err(rule),
        Ok(Way::Here) => Ok(None),
        Ok(Way::Down { place, page, last }) => {
            if last {
                return Ok(Some(Led { page, next: end }));
            }
            let next = form.child(bytes, place + 1).key;
            Ok(Some(Led {
                page,
                next: next.min(end),
            }))
        }
    }
}

/// The same of a page below a root, where a leaf without entries breaks the rule `deep`.
pub(crate) fn lead_below(
    form: &XtPages,
    bytes: &[u8],
    at: u64,
    end: u64,
) -> Result<Option<Led>, Rule>
    requires size { length bytes.now ≡ bytes_of form.now.form }
    requires some { at < end }
    ensures leads { LeadsOn (below_root (xt_node form.now.form form.now.blocks bytes.now)) at end result }
    ensures within { IfOk result (StaysWithin form.now.blocks) }
{
    match lead(form, bytes, at, end) {
        Err(rule) => Err(rule),
        Ok(Some(on)) => Ok(Some(on)),
        Ok(None) => {
            if form.is_bare(bytes) {
                return Err(Rule::Deep);
            }
            Ok(None)
        }
    }
}

/// One block of a file.
fn one_block(at: u64) -> Xad
    ensures { result.offset ≡ at }
{
    Xad {
        flag: 0,
        offset: at,
        at: Pxd { len: 1, addr: 0 },
    }
}
