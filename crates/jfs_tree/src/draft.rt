//! Pages that a call changed and has not told yet.

ghost use Rattle.std.specs.Prelude.{◌≡◌, ◌==◌, ◌<◌, ◌≤◌, ◌++◌, ◌∷◌, [], ℕ, if◌then◌else◌, IfOk, OnOk, length, List};
ghost use Rattle.jfs_ranges.specs.View.{CarriesCount};
ghost use Rattle.jfs_tree.specs.Draft.{shown, IsChanged};

use jfs_disk::Page;
use jfs_ranges::{PageView, ViewError};
use std::alloc::{AllocError, Global};

/// A changed page.
#[derive(Drop)]
pub struct Drafted {
    pub number: u32,
    pub page: Page,
}

/// The pages that a call changed. What it reads are these, and the view's others.
#[derive(Drop)]
pub struct Draft {
    pub pages: Vec<Drafted>,
}

impl Draft {
    /// No page is changed.
    pub fn new(alloc: Global) -> Self
        ensures { result.pages.items ≡ [] }
    {
        Draft {
            pages: Vec::new(alloc),
        }
    }

    /// A copy of page `n` as it is now.
    pub fn read<V: PageView>(&self, view: &mut V, n: u32) -> Result<Page, ViewError>
        requires { n < V.PageView.block_count view.old }
        ensures bytes { IfOk result (λ page. V.PageView.tells → page.0 ≡ shown self.now.pages.items (V.PageView.image view.old) n) }
        ensures kept { V.PageView.tells → V.PageView.image view.new ≡ V.PageView.image view.old }
        ensures size { V.PageView.block_count view.new ≡ V.PageView.block_count view.old }
        ensures device { V.PageView.device view.new ≡ V.PageView.device view.old }
        ensures count { CarriesCount (V.PageView.faults view.old) (V.PageView.faults view.new) result }
    {
        match self.changed(n) {
            Some(page) => Ok(page),
            None => {
                let page = view.page(n)?;
                Ok(copy_of(page))
            }
        }
    }

    fn changed(&self, n: u32) -> Option<Page>
        ensures { IsChanged self.now.pages.items n result }
    {
        for drafted in self.pages.as_slice() {
            if drafted.number == n {
                return Some(copy_of(&drafted.page));
            }
        }
        None
    }

    /// Page `n` is now this one.
    pub fn put(&mut self, n: u32, page: Page) -> Result<(), AllocError>
        ensures { OnOk result ((image : List (List ℕ)) (m : ℕ) → shown self.new.pages.items image m ≡ (if m == n then page.0 else shown self.old.pages.items image m)) }
    {
        self.pages.insert(0, Drafted { number: n, page })?;
        Ok(())
    }
}

pub(crate) fn copy_of(page: &Page) -> Page
    ensures { result.0 ≡ page.now.0 }
{
    Page(page.0)
}
