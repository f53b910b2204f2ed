//! Link counts and parents of a volume, by what was noted of all its names.

ghost use Rattle.std.specs.Prelude.{◌≡◌, ◌≢◌, ◌↔◌, ◌<◌, ℕ, List, OnOk, IsTrue, false, length};
ghost use Rattle.jfs_super.specs.Rules.{blocks_of};
ghost use Rattle.jfs_super.specs.declared.fields.Super.{Super};
ghost use Rattle.jfs_object_check.specs.objects.specs.Owners.{sum_below};
ghost use Rattle.jfs_object_check.specs.objects.specs.Image.{extents_on};
ghost use Rattle.jfs_object_check.specs.meaning.specs.Readers.{readers};
ghost use Rattle.jfs_object_check.specs.meaning.specs.Consistent.{is_reserved};
ghost use Rattle.jfs_object_check.specs.mount_rules.specs.Subject.{subject_of};
ghost use Rattle.jfs_object_check.specs.findings.specs.Gains.{Gains};
ghost use Rattle.jfs_link_check.specs.Counts.{CountsAll, NamesPast};
ghost use Rattle.jfs_link_check.specs.Uses.{use_at};
ghost use Rattle.jfs_link_check.specs.Judged.{IsLeft, page_told};
ghost use Rattle.jfs_link_check.specs.Notes.{AreNoted};
ghost use Rattle.jfs_link_check.specs.Found.{IsOfNames};

use crate::counts::NameCounts;
use crate::notes::NameNotes;
use crate::uses::{Use, is_reserved};
use jfs_object_check::findings::{Finding, FindingKind};
use jfs_object_check::note_if;
use std::alloc::AllocError;

/// The page of inode `n`, where its extent is there. No page has a number past the last `u32` value.
fn home(places: &[Option<u32>], n: usize) -> Option<u32>
    ensures { result ≡ page_told places.now n }
{
    let first = (*places.get(n / 32)?)?;
    Some(first.saturating_add((n % 32 / 8) as u32))
}

/// Whether the link count of inode `n`, which is no directory, isn't the number of names that lead to it. A reserved inode is passed over.
fn miscounts(counts: &NameCounts, n: usize, links: u32) -> bool
    requires { n < length counts.now.counts }
    ensures { (names : ℕ → ℕ → ℕ) → CountsAll names counts.now →
        (IsTrue result ↔ ((is_reserved n ≡ false) × (links ≢ sum_below (length counts.now.counts) (λ dir. names dir n)))) }
{
    if is_reserved(n) {
        return false;
    }
    !counts.has_links(n, links)
}

/// Judges inode `n` by the names that lead to it: the parent of a directory, and the link count of any other inode.
fn judge(
    notes: &NameNotes,
    places: &[Option<u32>],
    n: usize,
    findings: &mut Vec<Finding>,
) -> Result<(), AllocError>
    requires { n < length notes.now.counts.counts }
    ensures { OnOk result ((names : ℕ → ℕ → ℕ) → CountsAll names notes.now.counts → NamesPast (length notes.now.counts.counts) names n →
        Gains (IsLeft names (length notes.now.counts.counts) n (page_told places.now n) (use_at notes.now.uses n)) findings.old.items findings.new.items) }
{
    let page = match home(places, n) {
        Some(page) => page,
        None => return Ok(()),
    };
    match notes.uses.of(n) {
        Use::Free => Ok(()),
        Use::Directory { parent } => {
            let lost = !notes.counts.is_placed(n, parent);
            note_if(lost, FindingKind::Parent, page, n as u64, findings)
        }
        Use::Other { links } => {
            let wrong = miscounts(&notes.counts, n, links);
            note_if(wrong, FindingKind::Links, page, n as u64, findings)
        }
    }
}

/// Adds what is wrong with the names, link counts and parents of a volume, all of whose inodes in use were noted (`count_names`) and whose inode extents begin at
/// these places: a finding for each name that leads to no inode in use or to a reserved one, for each link count that isn't the one that is due by the names, and
/// for each directory whose one name doesn't stand in its parent. A directory whose tree breaks a rule has no names. No page is read.
///
/// # Errors
///
/// Memory ran out.
pub fn check_links(
    names: &NameNotes,
    places: &[Option<u32>],
    findings: &mut Vec<Finding>,
) -> Result<(), AllocError>
    ensures found { OnOk result ((blocks : ℕ) (page : ℕ → List ℕ) → AreNoted blocks page places.now names.now → (s : Super) → blocks_of s ≡ blocks →
        extents_on (readers blocks) page ≡ places.now → Gains (IsOfNames (subject_of s page)) findings.old.items findings.new.items) }
{
    match findings.extend_from_slice(names.findings.as_slice()) {
        Ok(()) => {}
        Err(_) => return Err(AllocError),
    }
    for n in 0..names.counts.len() {
        judge(names, places, n, findings)?;
    }
    Ok(())
}
