//! What a walk through a tree is for.

ghost use Rattle.std.specs.Prelude.{ℕ, OnOk};

use std::alloc::AllocError;

/// Sees the pages and the entries of a tree from left to right.
pub trait Visitor<E> {
    /// The visitor, a page that it sees, and the visitor afterwards.
    ghost sees_page: { Self → ℕ → Self → Type 0 };

    /// The visitor, a page and an entry of it that it sees, and the visitor afterwards.
    ghost sees_entry: { Self → ℕ → E → Self → Type 0 };

    /// A page; `NO_PAGE` is the root. All that it has comes behind it, also the pages below it.
    fn page(&mut self, n: u32)
        ensures { sees_page self.old n self.new };

    /// An entry of page `n`.
    fn entry(&mut self, n: u32, x: &E) -> Result<(), AllocError>
        ensures { OnOk result (sees_entry self.old n x.now self.new) };
}
