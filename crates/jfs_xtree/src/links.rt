//! The links of a page of an extent tree.

ghost use Rattle.std.specs.Prelude.{◌≡◌, ◌≤◌, length, true};
ghost use Rattle.jfs_xtpage.specs.Page.{bytes_of};
ghost use Rattle.jfs_xtpage.specs.declared.head.XtForm.TheVariants.{Full};

use crate::check::check_page;
use crate::form::XtPages;
use jfs_bits::get_u64;
use jfs_tree::PageLinks;
use jfs_xtpage::{XtForm, xt_link};

/// Whether a page breaks no rule, and is none that stands in an inode: such a root has no neighbours.
fn has_links(bytes: &[u8], form: XtForm, blocks: u32) -> bool
    requires { length bytes.now ≡ bytes_of form }
    ensures { result ≡ true → form ≡ Full }
{
    match form {
        XtForm::Root => false,
        XtForm::Full => check_page(bytes, form, blocks).is_ok(),
        XtForm::Small => false,
    }
}

impl PageLinks for XtPages {
    fn set_next(&self, bytes: &mut [u8], n: u32) {
        if !has_links(bytes, self.form, self.blocks) {
            return;
        }
        let prev = get_u64(bytes, 8);
        xt_link(bytes, u64::from(n), prev);
    }

    fn set_prev(&self, bytes: &mut [u8], n: u32) {
        if !has_links(bytes, self.form, self.blocks) {
            return;
        }
        let next = get_u64(bytes, 0);
        xt_link(bytes, next, u64::from(n));
    }
}
