//! A page of 4,096 bytes.

ghost use Rattle.std.specs.Prelude.{◌≡◌, length, replicate, IfOk};

use jfs_bits::Sequence;
use std::alloc::{AllocError, Global};

/// A page: 8 sectors of 512 bytes.
#[derive(Drop)]
pub struct Page(pub [u8; 4096]);

impl Page {
    /// A page of zeros.
    pub fn zeros() -> Self
        ensures { result.0 ≡ replicate 4096 0 }
    {
        Page([0; 4096])
    }

    /// The bytes: 4,096 of them.
    pub fn bytes(&self) -> &[u8]
        ensures value { result.now ≡ self.now.0 }
        ensures size { length self.now.0 ≡ 4096 }
    {
        &self.0
    }
}

pub(crate) fn copy_page(from: &Page, into: &mut Page)
    ensures bytes { into.new.0 ≡ from.now.0 }
    ensures size { length from.now.0 ≡ 4096 }
{
    let bytes: &[u8] = &from.0;
    into.0.copy_from_slice(bytes);
}

/// A copy of a page, in a box of its own.
pub(crate) fn boxed(alloc: Global, from: &Page) -> Result<Box<Page>, AllocError>
    ensures bytes { IfOk result (λ page. page.value.0 ≡ from.now.0) }
    ensures size { length from.now.0 ≡ 4096 }
{
    let mut page = Page::zeros();
    copy_page(from, &mut page);
    Ok(Box::new(alloc, page)?)
}

/// Pages in order.
pub type PageList = Sequence<Page>;
