//! What is found of the inodes in use.

ghost use Rattle.std.specs.Prelude.{◌≡◌, ◌<◌, ◌*◌, ◌%◌, ◌||◌, length, ℕ, IfOk, OnOk};
ghost use Rattle.jfs_bits.specs.Bits.{is_taken, is_in_run};
ghost use Rattle.jfs_disk.specs.Image.{page_of};
ghost use Rattle.jfs_inode.specs.Inode.{FitsDinode};
ghost use Rattle.jfs_ranges.specs.View.{CarriesCount};
ghost use Rattle.jfs_findings.specs.Gains.{Gains};
ghost use Rattle.jfs_check.specs.Look.{Sees, SeesTrees, IsOfFound};

use jfs_bits::set_run;
use jfs_each::EachInode;
use jfs_findings::{Finding, condense};
use jfs_inode::Dinode;
use jfs_link_check::object_check::{check_object, count_extents};
use jfs_link_check::{Census, count_names};
use jfs_ranges::{PageView, ViewError};
use std::alloc::Global;

/// What was found so far: who owns the blocks and where names lead, a bit for each inode whether it is in use, and what is wrong.
#[derive(Drop)]
pub(crate) struct Look {
    pub(crate) alloc: Global,
    pub(crate) census: Census,
    pub(crate) used: Vec<u8>,
    pub(crate) findings: Vec<Finding>,
    /// How many findings were left when they were last condensed.
    pub(crate) kept: usize,
}

impl EachInode for Look {
    ghost sees = { λ blocks image old n f new. Sees blocks image old n f new };

    #[tactic(auto, using(jfs_findings::proofs::Condensed::gains_after))]
    fn inode<V: PageView>(
        &mut self,
        view: &mut V,
        n: u32,
        page: u32,
        inode: &Dinode,
    ) -> Result<(), ViewError> {
        condense(&mut self.findings, &mut self.kept);
        look_over(
            self.alloc,
            view,
            n,
            page,
            inode,
            &mut self.census,
            &mut self.findings,
        )?;
        mark(self.used.as_mut_slice(), n);
        Ok(())
    }
}

/// Looks at inode `n`, which stands on that page, and walks through its tree: once for its rules, and once more for what it holds, where it breaks none.
fn look_over<V: PageView>(
    alloc: Global,
    view: &mut V,
    n: u32,
    page: u32,
    inode: &Dinode,
    census: &mut Census,
    findings: &mut Vec<Finding>,
) -> Result<(), ViewError>
    requires fits { FitsDinode inode.now }
    ensures image { V.PageView.tells → V.PageView.image view.new ≡ V.PageView.image view.old }
    ensures count_of_blocks { V.PageView.block_count view.new ≡ V.PageView.block_count view.old }
    ensures device { V.PageView.device view.new ≡ V.PageView.device view.old }
    ensures fault { CarriesCount (V.PageView.faults view.old) (V.PageView.faults view.new) result }
    ensures seen { V.PageView.tells → IfOk result (λ it. SeesTrees (V.PageView.block_count view.old) (page_of (V.PageView.image view.old)) n
        (record { page = page; inode = inode.now }) census.old census.new) }
    ensures found { V.PageView.tells → OnOk result (Gains (IsOfFound (V.PageView.block_count view.old) (page_of (V.PageView.image view.old)) n
        (record { page = page; inode = inode.now })) findings.old.items findings.new.items) }
{
    let sound = check_object(view, n, page, inode, findings)?;
    census.owners.add_attributes(inode);
    count_names(view, n, page, inode, sound.names, census)?;
    if sound.extents {
        count_extents(alloc, view, n, inode, &mut census.owners, findings)?;
    }
    Ok(())
}

/// Marks inode `n` as in use.
fn mark(used: &mut [u8], n: u32)
    ensures { (i : ℕ) → length used.old % 4 ≡ 0 → n < 8 * length used.old → is_taken used.new i ≡ (is_in_run n 1 i || is_taken used.old i) }
{
    if used.len() % 4 == 0 && n as usize / 8 < used.len() {
        set_run(used, n, 1);
    }
}
