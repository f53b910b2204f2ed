//! The pages that an entry changes.

ghost use Rattle.std.specs.Prelude.{◌≡◌, ◌<◌, ◌^◌, ◌||◌, ℕ, true, OnOk, IfOk};
ghost use Rattle.jfs_ranges.specs.Apply.{touches_edit, touches_tx};
ghost use Rattle.jfs_pages.specs.Dirty.{is_among};

use jfs_ranges::{Edit, Tx};
use std::alloc::{AllocError, Global};

/// The pages that a transaction changes, and those in `maps`. A page may be there twice.
pub(crate) fn wanted_pages(alloc: Global, tx: &Tx, maps: &[u32]) -> Result<Vec<u32>, AllocError>
    requires { (n : ℕ) → touches_tx n tx.now ≡ true → n < 2 ^ 32 }
    ensures { IfOk result (λ pages. (n : ℕ) → is_among n pages.items ≡ (touches_tx n tx.now || is_among n maps.now)) }
{
    let mut pages = Vec::new(alloc);
    for edit in tx.as_slice() {
        push_pages(edit, &mut pages)?;
    }
    pages.extend_from_slice(maps)?;
    Ok(pages)
}

/// Adds the pages that an edit changes.
fn push_pages(edit: &Edit, pages: &mut Vec<u32>) -> Result<(), AllocError>
    requires { (n : ℕ) → touches_edit n edit.now ≡ true → n < 2 ^ 32 }
    ensures { OnOk result ((n : ℕ) → is_among n pages.new.items ≡ (is_among n pages.old.items || touches_edit n edit.now)) }
{
    let touched = edit.pages();
    for n in touched.first..touched.end {
        pages.push(n as u32)?;
    }
    Ok(())
}
