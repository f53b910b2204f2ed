//! What is noted of the names of a volume.

ghost use Rattle.std.specs.Prelude.{◌≡◌, ◌≢◌, ◌↔◌, ◌+◌, ◌*◌, ◌∷◌, [], ℕ, List, Option, length, IfOk, OnOk, IsTrue, false};
ghost use Rattle.jfs_object_check.specs.meaning.specs.Consistent.{is_reserved};
ghost use Rattle.jfs_object_check.specs.findings.specs.Gains.{Gains};
ghost use Rattle.jfs_object_check.specs.findings.specs.declared.finding.FindingKind.TheVariants.{Links};
ghost use Rattle.jfs_object_check.specs.Steps.{Only};
ghost use Rattle.jfs_each.specs.Each.{found_at};
ghost use Rattle.jfs_link_check.specs.Counts.{ends};
ghost use Rattle.jfs_link_check.specs.Uses.{AreUses};
ghost use Rattle.jfs_link_check.specs.Notes.{NotedBelow, Sees};

use crate::counts::NameCounts;
use crate::uses::{Uses, is_reserved};
use jfs_object_check::findings::{Finding, FindingKind, condense};
use jfs_object_check::{note_if, page_named};
use std::alloc::{AllocError, Global};

/// The directory whose names are being seen.
#[derive(Drop)]
pub(crate) struct Here {
    pub(crate) number: u32,
    /// The page of its inode.
    pub(crate) page: u32,
    /// How many of its names led to directories so far, up to the last `u64` value.
    pub(crate) subdirectories: u64,
}

/// For each inode number its use, the number of names that lead to it, and the directory that named it last: 20 bytes a number. Beside them, what is wrong with
/// the names and with the link counts of directories so far.
#[derive(Drop)]
pub struct NameNotes {
    pub(crate) uses: Uses,
    pub(crate) counts: NameCounts,
    pub(crate) findings: Vec<Finding>,
    /// How many findings were left when they were last condensed.
    pub(crate) kept: usize,
    pub(crate) here: Here,
}

impl NameNotes {
    /// Notes of a volume whose inode numbers have these uses, before any name was seen. `Err` is want of memory.
    pub fn new(alloc: Global, uses: Uses) -> Result<NameNotes, AllocError>
        ensures { IfOk result (λ notes. (blocks : ℕ) (page : ℕ → List ℕ) (places : List (Option ℕ)) → AreUses page places uses →
            NotedBelow blocks page (found_at page places) (32 * length places) 0 notes) }
    {
        let counts = NameCounts::new(alloc, uses.len())?;
        let findings = Vec::new(alloc);
        let here = Here {
            number: 0,
            page: 0,
            subdirectories: 0,
        };
        Ok(NameNotes {
            uses,
            counts,
            findings,
            kept: 0,
            here,
        })
    }

    /// Begins with directory `n`, whose inode stands on page `at`: none of its names was seen.
    pub(crate) fn begin(&mut self, n: u32, at: u32)
        ensures { self.new ≡ record self.old { here = record { number = n; page = at; subdirectories = 0 } } }
    {
        self.here = Here {
            number: n,
            page: at,
            subdirectories: 0,
        };
    }

    /// A name of this directory, which stands on that page of its tree and leads to inode `n`: it is counted, and is a finding where it leads to no inode in use or
    /// to a reserved one.
    pub(crate) fn see(&mut self, page: u32, n: u32) -> Result<(), AllocError>
        ensures { OnOk result (Sees (record { page = page; inode = n } ∷ []) self.old self.new) }
    {
        let inode = n as usize;
        self.counts.add(self.here.number, inode);
        let more = u64::from(self.uses.is_directory(inode));
        self.here.subdirectories = self.here.subdirectories.saturating_add(more);
        let on = page_named(self.here.page, page);
        let leads = self.uses.may_be_named(inode);
        let value = u64::from(n);
        note_if(!leads, FindingKind::Name, on, value, &mut self.findings)
    }

    /// Judges the link count of this directory, all of whose names were seen: one that isn't due is a finding. What was found over and over is kept once.
    pub(crate) fn judge_links(&mut self, links: u32) -> Result<(), AllocError>
        ensures stays { (self.new.uses ≡ self.old.uses) × (self.new.counts ≡ self.old.counts) }
        ensures found { OnOk result ((count : ℕ) → ends self.old.here.subdirectories ≡ ends count →
            Gains (Only Links self.old.here.page self.old.here.number ((is_reserved self.old.here.number ≡ false) × (links ≢ 2 + count)))
            self.old.findings.items self.new.findings.items) }
    {
        self.note_links(links)?;
        condense(&mut self.findings, &mut self.kept);
        Ok(())
    }

    /// Notes a link count of this directory that isn't due.
    fn note_links(&mut self, links: u32) -> Result<(), AllocError>
        ensures stays { (self.new.uses ≡ self.old.uses) × (self.new.counts ≡ self.old.counts) }
        ensures found { OnOk result ((count : ℕ) → ends self.old.here.subdirectories ≡ ends count →
            Gains (Only Links self.old.here.page self.old.here.number ((is_reserved self.old.here.number ≡ false) × (links ≢ 2 + count)))
            self.old.findings.items self.new.findings.items) }
    {
        let wrong = miscounts(&self.here, links);
        let value = u64::from(self.here.number);
        let page = self.here.page;
        note_if(wrong, FindingKind::Links, page, value, &mut self.findings)
    }
}

/// Whether this link count isn't the one that is due of a directory, all of whose names were seen: two links, and one for each subdirectory. A reserved one is
/// passed over.
fn miscounts(here: &Here, links: u32) -> bool
    ensures { (count : ℕ) → ends here.now.subdirectories ≡ ends count → (IsTrue result ↔ ((is_reserved here.now.number ≡ false) × (links ≢ 2 + count))) }
{
    if is_reserved(here.number as usize) {
        return false;
    }
    u64::from(links) != here.subdirectories.saturating_add(2)
}
