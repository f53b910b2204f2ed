//! What is known before any inode was looked at.

ghost use Rattle.std.specs.Prelude.{◌≡◌, ◌≤◌, ◌*◌, ◌/◌, ◌+◌, ◌%◌, ℕ, List, Option, [], length, replicate, None, IfOk, OnOk};
ghost use Rattle.jfs_disk.specs.Image.{page_of};
ghost use Rattle.jfs_ranges.specs.View.{CarriesCount};
ghost use Rattle.jfs_super.specs.Rules.{blocks_of};
ghost use Rattle.jfs_findings.specs.meaning.specs.Readers.{readers};
ghost use Rattle.jfs_findings.specs.mount_rules.specs.Subject.{subject_of, volume};
ghost use Rattle.jfs_findings.specs.mount_rules.specs.Mount.{broken_mount};
ghost use Rattle.jfs_findings.specs.Gains.{Gains};
ghost use Rattle.jfs_link_check.specs.object_check.specs.Laws.{IsOfFile};
ghost use Rattle.jfs_each.specs.Each.{found_at};
ghost use Rattle.jfs_link_check.specs.Notes.{NotedBelow};
ghost use Rattle.jfs_link_check.specs.Uses.{AreUses};
ghost use Rattle.jfs_link_check.specs.owners.specs.Counts.{Counts};
ghost use Rattle.jfs_link_check.specs.owners.specs.Held.{owned_below};

use crate::files::count_area;
use crate::look::Look;
use jfs_findings::Finding;
use jfs_findings::mount_rules::Mounted;
use jfs_link_check::owners::Owners;
use jfs_link_check::{Census, NameNotes, Uses};
use jfs_ranges::{PageView, ViewError};
use jfs_super::Super;
use std::alloc::{AllocError, Global};

/// Nothing is known of a volume of so many blocks and inode allocation groups (IAGs), each of which has places for 4,096 inodes, but for what the inodes are used for.
pub(crate) fn fresh(alloc: Global, blocks: u32, iags: u32, uses: Uses) -> Result<Look, AllocError>
    requires { iags ≤ 65536 }
    ensures counts { IfOk result (λ look. Counts look.census.owners (λ b. 0)) }
    ensures used { IfOk result (λ look. look.used.items ≡ replicate (512 * iags) 0) }
    ensures names { IfOk result (λ look. (blocks : ℕ) (page : ℕ → List ℕ) (places : List (Option ℕ)) → AreUses page places uses →
        NotedBelow blocks page (found_at page places) (32 * length places) 0 look.census.names) }
    ensures findings { IfOk result (λ look. look.findings.items ≡ []) }
{
    let owners = Owners::new(alloc, blocks)?;
    let names = NameNotes::new(alloc, uses)?;
    let used = vec![in alloc; 0; 512 * iags as usize]?;
    Ok(Look {
        alloc,
        census: Census { owners, names },
        used,
        findings: Vec::new(alloc),
        kept: 0,
    })
}

/// Counts what has owners outside of objects, and looks at the files of the aggregate.
pub(crate) fn count_fixed<V: PageView>(
    view: &mut V,
    s: &Super,
    places: &[Option<u32>],
    owners: &mut Owners,
    findings: &mut Vec<Finding>,
) -> Result<(), ViewError>
    requires size { 15 ≤ V.PageView.block_count view.old }
    requires part { blocks_of s.now ≡ V.PageView.block_count view.old }
    ensures image { V.PageView.tells → V.PageView.image view.new ≡ V.PageView.image view.old }
    ensures count_of_blocks { V.PageView.block_count view.new ≡ V.PageView.block_count view.old }
    ensures device { V.PageView.device view.new ≡ V.PageView.device view.old }
    ensures fault { CarriesCount (V.PageView.faults view.old) (V.PageView.faults view.new) result }
    ensures counts { V.PageView.tells → IfOk result (λ it. Counts owners.old (λ b. 0) →
        broken_mount (subject_of s.now (page_of (V.PageView.image view.old))) ≡ None →
        places.now ≡ (volume (subject_of s.now (page_of (V.PageView.image view.old)))).extents →
        Counts owners.new (owned_below (readers (blocks_of s.now)) (volume (subject_of s.now (page_of (V.PageView.image view.old)))) 0)) }
    ensures found { V.PageView.tells → OnOk result (broken_mount (subject_of s.now (page_of (V.PageView.image view.old))) ≡ None →
        Gains (IsOfFile (subject_of s.now (page_of (V.PageView.image view.old)))) findings.old.items findings.new.items) }
{
    count_area(view, s, owners, findings)?;
    owners.add_inode_extents(places);
    Ok(())
}
