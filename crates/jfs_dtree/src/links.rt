//! The links of a page of a directory tree.

ghost use Rattle.std.specs.Prelude.{◌≡◌, ℕ, length, true};
ghost use Rattle.jfs_dtpage.specs.declared.head.DtForm.TheVariants.{Full};
ghost use Rattle.jfs_dtpage.specs.Form.{bytes_of};
ghost use Rattle.jfs_dtpage.specs.Page.{IsDtPage};
ghost use Rattle.jfs_dtree.specs.Node.{dt_node};

use crate::check::check_page;
use crate::form::DtPages;
use jfs_bits::get_u64;
use jfs_dtpage::{DtForm, dt_link};
use jfs_tree::PageLinks;

/// Whether a page breaks no rule, and is none that stands in an inode: such a root has no links.
fn has_links(bytes: &[u8], form: DtForm, blocks: u32) -> bool
    requires { length bytes.now ≡ bytes_of form }
    ensures form { result ≡ true → form ≡ Full }
    ensures page { result ≡ true → IsDtPage form bytes.now }
{
    match form {
        DtForm::Full => check_page(bytes, form, blocks).is_ok(),
        DtForm::Root => false,
    }
}

impl PageLinks for DtPages {
    fn set_next(&self, bytes: &mut [u8], n: u32) {
        if !has_links(bytes, self.form, self.blocks) {
            return;
        }
        let prev = get_u64(bytes, 8);
        dt_link(bytes, u64::from(n), prev);
    }

    fn set_prev(&self, bytes: &mut [u8], n: u32) {
        if !has_links(bytes, self.form, self.blocks) {
            return;
        }
        let next = get_u64(bytes, 0);
        dt_link(bytes, next, u64::from(n));
    }
}
