//! Where a page below a root leads an entry.

ghost use Rattle.std.specs.Prelude.{◌≡◌, length, IfOk, Ok};
ghost use Rattle.jfs_tree.specs.Form.{Leads, IsWithin, TellsLast, HasRisingKeys};
ghost use Rattle.jfs_tree.specs.Path.{below_root};

use crate::form::Way;
use crate::pages::PageForm;
use jfs_bits::Rule;

/// Where a page below a root leads an entry, or the first rule that it breaks there: `deep` where it is a leaf without entries.
pub(crate) fn way_below<F: PageForm>(form: &F, bytes: &[u8], x: &F::Entry) -> Result<Way, Rule>
    requires { length bytes.now ≡ F.PageForm.size form.now }
    ensures below { Leads F.PageForm.scale x.now (below_root (F.PageForm.node form.now bytes.now)) result }
    ensures way { IfOk result (λ way. Leads F.PageForm.scale x.now (F.PageForm.node form.now bytes.now) (Ok way)) }
    ensures within { IfOk result (λ way. IsWithin (F.PageForm.blocks form.now) way) }
    ensures last { IfOk result (λ way. TellsLast (F.PageForm.node form.now bytes.now) way) }
    ensures rise { HasRisingKeys F.PageForm.scale (F.PageForm.node form.now bytes.now) }
{
    match form.way(bytes, x) {
        Err(rule) => Err(rule),
        Ok(Way::Down { place, page, last }) => Ok(Way::Down { place, page, last }),
        Ok(Way::Here) => {
            if form.is_bare(bytes) {
                return Err(Rule::Deep);
            }
            Ok(Way::Here)
        }
    }
}
