//! What an object holds.

ghost use Rattle.std.specs.Prelude.{◌≡◌, Some, IfOk};
ghost use Rattle.jfs_disk.specs.Image.{page_of};
ghost use Rattle.jfs_ranges.specs.View.{CarriesCount};
ghost use Rattle.jfs_findings.specs.objects.specs.Objects.{names_of, extents_of, spelled};
ghost use Rattle.jfs_findings.specs.objects.specs.Owners.{dxd_has, holds};
ghost use Rattle.jfs_findings.specs.meaning.specs.Readers.{readers};
ghost use Rattle.jfs_owners.specs.Counts.{Adds};
ghost use Rattle.jfs_owners.specs.Held.{extents_held, names_held, attributes_of};

use crate::owners::Owners;
use jfs_bits::Dxd;
use jfs_findings::reader::{has_extents, has_names, root_in};
use jfs_inode::Dinode;
use jfs_ranges::{PageView, ViewError};

impl Owners {
    /// Counts what an object holds: the pages of its tree and the blocks of its extents, where the tree breaks no rule, and the runs of its attributes.
    ///
    /// # Errors
    ///
    /// A page could not be read, or memory ran out. Some of it may be counted then.
    pub fn add_object<V: PageView>(&mut self, view: &mut V, d: &Dinode) -> Result<(), ViewError>
        ensures image { V.PageView.tells → V.PageView.image view.new ≡ V.PageView.image view.old }
        ensures count_of_blocks { V.PageView.block_count view.new ≡ V.PageView.block_count view.old }
        ensures device { V.PageView.device view.new ≡ V.PageView.device view.old }
        ensures fault { CarriesCount (V.PageView.faults view.old) (V.PageView.faults view.new) result }
        ensures adds { V.PageView.tells → IfOk result (λ it.
            Adds (holds (readers (V.PageView.block_count view.old)) (Some (spelled (readers (V.PageView.block_count view.old)) (page_of (V.PageView.image view.old)) d.now))) self.old self.new) }
    {
        self.add_attributes(d);
        match self.add_names_of(view, d) {
            Ok(()) => self.add_extents_of(view, d),
            Err(e) => Err(e),
        }
    }

    /// Counts the runs of an inode's attributes.
    pub fn add_attributes(&mut self, d: &Dinode)
        ensures { Adds (attributes_of d.now) self.old self.new }
    {
        let acl = d.acl;
        let ea = d.ea;
        self.add_dxd(acl);
        self.add_dxd(ea);
    }

    #[tactic(auto, using(crate::proofs::Counted::adds_dxd, crate::proofs::Counted::adds_no_dxd))]
    /// Counts the run of a descriptor, where it names one.
    fn add_dxd(&mut self, d: Dxd)
        ensures { Adds (dxd_has d) self.old self.new }
    {
        if d.flag & Dxd::EXTENT == Dxd::EXTENT {
            self.add(d.at);
        }
    }

    /// Counts the pages of a directory's tree.
    fn add_names_of<V: PageView>(&mut self, view: &mut V, d: &Dinode) -> Result<(), ViewError>
        ensures image { V.PageView.tells → V.PageView.image view.new ≡ V.PageView.image view.old }
        ensures count_of_blocks { V.PageView.block_count view.new ≡ V.PageView.block_count view.old }
        ensures device { V.PageView.device view.new ≡ V.PageView.device view.old }
        ensures fault { CarriesCount (V.PageView.faults view.old) (V.PageView.faults view.new) result }
        ensures adds { V.PageView.tells → IfOk result (λ it.
            Adds (names_held (names_of (readers (V.PageView.block_count view.old)) (page_of (V.PageView.image view.old)) d.now)) self.old self.new) }
    {
        if !has_names(d) {
            return Ok(());
        }
        self.add_names(view, root_in(d))
    }

    /// Counts the pages and the blocks of a file or of a long symbolic link.
    fn add_extents_of<V: PageView>(&mut self, view: &mut V, d: &Dinode) -> Result<(), ViewError>
        ensures image { V.PageView.tells → V.PageView.image view.new ≡ V.PageView.image view.old }
        ensures count_of_blocks { V.PageView.block_count view.new ≡ V.PageView.block_count view.old }
        ensures device { V.PageView.device view.new ≡ V.PageView.device view.old }
        ensures fault { CarriesCount (V.PageView.faults view.old) (V.PageView.faults view.new) result }
        ensures adds { V.PageView.tells → IfOk result (λ it.
            Adds (extents_held (extents_of (readers (V.PageView.block_count view.old)) (page_of (V.PageView.image view.old)) d.now)) self.old self.new) }
    {
        if !has_extents(d) {
            return Ok(());
        }
        self.add_extents(view, root_in(d))
    }
}
