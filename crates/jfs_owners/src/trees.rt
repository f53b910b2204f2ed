//! What trees hold.

ghost use Rattle.std.specs.Prelude.{◌≡◌, length, List, Ok, IfOk};
ghost use Rattle.jfs_bits.specs.declared.extent.Xad.{Xad};
ghost use Rattle.jfs_disk.specs.Image.{page_of};
ghost use Rattle.jfs_ranges.specs.View.{CarriesCount};
ghost use Rattle.jfs_xtree.specs.Node.{xt_scale};
ghost use Rattle.jfs_findings.specs.objects.specs.Objects.{listed};
ghost use Rattle.jfs_findings.specs.objects.specs.Owners.{run_has};
ghost use Rattle.jfs_owners.specs.Counts.{Adds, page_has};
ghost use Rattle.jfs_owners.specs.Held.{extents_walk, extents_held, extents_front, names_walk, names_held};

use crate::owners::Owners;
use crate::shown::{show_sound, show_tree};
use jfs_bits::{Pxd, Xad};
use jfs_dtpage::DtForm;
use jfs_dtree::{DirEntry, DtPages};
use jfs_ranges::{PageView, ViewError};
use jfs_tree::{NO_PAGE, Visitor};
use jfs_xtpage::XtForm;
use jfs_xtree::XtPages;
use std::alloc::AllocError;

impl Visitor<Xad> for Owners {
    ghost sees_page = { λ old n new. Adds (page_has n) old new };

    ghost sees_entry = { λ old n x new. Adds (run_has x.at) old new };

    fn page(&mut self, n: u32) {
        self.add_page(n);
    }

    fn entry(&mut self, _n: u32, x: &Xad) -> Result<(), AllocError> {
        self.add(x.at);
        Ok(())
    }
}

impl Visitor<DirEntry> for Owners {
    ghost sees_page = { λ old n new. Adds (page_has n) old new };

    ghost sees_entry = { λ old n x new. new ≡ old };

    fn page(&mut self, n: u32) {
        self.add_page(n);
    }

    fn entry(&mut self, _n: u32, _x: &DirEntry) -> Result<(), AllocError> {
        Ok(())
    }
}

impl Owners {
    #[tactic(auto, using(crate::proofs::Counted::adds_page, crate::proofs::Counted::adds_no_page))]
    /// Counts a page that a walk meets. The root is none.
    pub fn add_page(&mut self, n: u32)
        ensures { Adds (page_has n) self.old self.new }
    {
        if n != NO_PAGE {
            self.add(Pxd {
                len: 1,
                addr: u64::from(n),
            });
        }
    }

    /// Counts what the extent tree of a root in an inode holds: its pages, and the blocks of its extents. One that breaks a rule holds nothing.
    pub(crate) fn add_extents<V: PageView>(
        &mut self,
        view: &mut V,
        root: &[u8],
    ) -> Result<(), ViewError>
        requires root { length root.now ≡ 288 }
        ensures image { V.PageView.tells → V.PageView.image view.new ≡ V.PageView.image view.old }
        ensures count_of_blocks { V.PageView.block_count view.new ≡ V.PageView.block_count view.old }
        ensures device { V.PageView.device view.new ≡ V.PageView.device view.old }
        ensures fault { CarriesCount (V.PageView.faults view.old) (V.PageView.faults view.new) result }
        ensures adds { V.PageView.tells → IfOk result (λ it.
            Adds (extents_held (extents_walk (V.PageView.block_count view.old) (page_of (V.PageView.image view.old)) root.now)) self.old self.new) }
    {
        let blocks = view.blocks();
        let top = XtPages {
            form: XtForm::Root,
            blocks,
        };
        let pages = XtPages {
            form: XtForm::Full,
            blocks,
        };
        match show_tree(&top, &pages, view, root, self) {
            Ok(_) => Ok(()),
            Err(e) => Err(e),
        }
    }

    /// Counts what the extent tree of a root in an inode holds, if the tree breaks no rule: its pages, and the blocks of its extents. Each page is read once. Of a
    /// tree that breaks a rule, what stands in front of the first broken one is counted.
    ///
    /// # Errors
    ///
    /// A page could not be read, or memory ran out. Some of it may be counted then.
    pub fn add_sound_extents<V: PageView>(
        &mut self,
        view: &mut V,
        root: &[u8],
    ) -> Result<(), ViewError>
        requires root { length root.now ≡ 288 }
        ensures image { V.PageView.tells → V.PageView.image view.new ≡ V.PageView.image view.old }
        ensures count_of_blocks { V.PageView.block_count view.new ≡ V.PageView.block_count view.old }
        ensures device { V.PageView.device view.new ≡ V.PageView.device view.old }
        ensures fault { CarriesCount (V.PageView.faults view.old) (V.PageView.faults view.new) result }
        ensures adds { V.PageView.tells → IfOk result (λ it. (es : List Xad) →
            listed xt_scale (extents_walk (V.PageView.block_count view.old) (page_of (V.PageView.image view.old)) root.now) ≡ Ok es →
            Adds (extents_held (extents_walk (V.PageView.block_count view.old) (page_of (V.PageView.image view.old)) root.now)) self.old self.new) }
        // Of any tree: what stands in front of the first rule that it breaks.
        ensures front { V.PageView.tells → IfOk result (λ it.
            Adds (extents_front (extents_walk (V.PageView.block_count view.old) (page_of (V.PageView.image view.old)) root.now)) self.old self.new) }
    {
        let blocks = view.blocks();
        let top = XtPages {
            form: XtForm::Root,
            blocks,
        };
        let pages = XtPages {
            form: XtForm::Full,
            blocks,
        };
        show_sound(&top, &pages, view, root, self)
    }

    /// Counts what the directory tree of a root in an inode holds: its pages. One that breaks a rule holds nothing.
    pub(crate) fn add_names<V: PageView>(
        &mut self,
        view: &mut V,
        root: &[u8],
    ) -> Result<(), ViewError>
        requires root { length root.now ≡ 288 }
        ensures image { V.PageView.tells → V.PageView.image view.new ≡ V.PageView.image view.old }
        ensures count_of_blocks { V.PageView.block_count view.new ≡ V.PageView.block_count view.old }
        ensures device { V.PageView.device view.new ≡ V.PageView.device view.old }
        ensures fault { CarriesCount (V.PageView.faults view.old) (V.PageView.faults view.new) result }
        ensures adds { V.PageView.tells → IfOk result (λ it.
            Adds (names_held (names_walk (V.PageView.block_count view.old) (page_of (V.PageView.image view.old)) root.now)) self.old self.new) }
    {
        let blocks = view.blocks();
        let top = DtPages {
            form: DtForm::Root,
            blocks,
        };
        let pages = DtPages {
            form: DtForm::Full,
            blocks,
        };
        match show_tree(&top, &pages, view, root, self) {
            Ok(_) => Ok(()),
            Err(e) => Err(e),
        }
    }
}
