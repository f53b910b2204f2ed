//! An extent tree that breaks no rule, level by level: what it holds, and its pages with few entries.

ghost use Rattle.std.specs.Prelude.{◌≡◌, ◌<◌, ◌≤◌, ◌&&◌, nat_lt, ℕ, List, length, Ok, OnOk, IfOk};
ghost use Rattle.std.specs.List.{flat_map};
ghost use Rattle.jfs_bits.specs.declared.extent.Xad.{Xad};
ghost use Rattle.jfs_disk.specs.Image.{page_of};
ghost use Rattle.jfs_ranges.specs.View.{CarriesCount};
ghost use Rattle.jfs_tree.specs.Spells.{no_page};
ghost use Rattle.jfs_tree.specs.Form.{AllBelow};
ghost use Rattle.jfs_tree.specs.Levels.{pages_below};
ghost use Rattle.jfs_xtpage.specs.Page.{bytes_of};
ghost use Rattle.jfs_xtpage.specs.declared.head.XtForm.TheVariants.{Root};
ghost use Rattle.jfs_xtree.specs.Node.{xt_scale};
ghost use Rattle.jfs_xtree.specs.Spells.{page_nodes};
ghost use Rattle.jfs_owners.specs.objects.specs.Objects.{extents_of, listed, spelled};
ghost use Rattle.jfs_owners.specs.meaning.specs.Readers.{readers};
ghost use Rattle.jfs_owners.specs.findings.specs.Gains.{Gains};
ghost use Rattle.jfs_owners.specs.Counts.{Adds};
ghost use Rattle.jfs_owners.specs.Held.{extents_held};
ghost use Rattle.jfs_object_check.specs.Thin.{IsThinOf};
ghost use Rattle.jfs_object_check.specs.Lines.{Tells, IsThinOn, IsThinAbove, IsThinLevel, tree_nodes, line_has, levels_have, inode_has};

use crate::nodes::{count_node, count_page};
use crate::note::note_if;
use jfs_inode::Dinode;
use jfs_owners::Owners;
use jfs_owners::findings::{Finding, FindingKind};
use jfs_owners::reader::{has_extents, root_in};
use jfs_ranges::{PageView, ViewError};
use jfs_xtpage::XtForm;
use jfs_xtree::XtPages;
use std::alloc::Global;

/// Goes through the extent tree of inode `n`, which breaks no rule, if it has one. Counts its pages and the blocks of its extents, and adds a finding for each
/// page with fewer than 64 entries that isn't the last of its level: its page is that page, and its value the inode's number. The root is the last of its level.
/// Of a tree that breaks a rule, the same of its first eight levels, where a page that breaks a rule holds itself alone. It reads each page once, level by level, and takes 4 bytes for each page of a level and of the one below it.
///
/// # Errors
///
/// A page could not be read, or memory ran out.
pub fn count_extents<V: PageView>(
    alloc: Global,
    view: &mut V,
    n: u32,
    inode: &Dinode,
    owners: &mut Owners,
    findings: &mut Vec<Finding>,
) -> Result<(), ViewError>
    ensures image { V.PageView.tells → V.PageView.image view.new ≡ V.PageView.image view.old }
    ensures count_of_blocks { V.PageView.block_count view.new ≡ V.PageView.block_count view.old }
    ensures device { V.PageView.device view.new ≡ V.PageView.device view.old }
    ensures fault { CarriesCount (V.PageView.faults view.old) (V.PageView.faults view.new) result }
    // Wherever the inode stands.
    ensures thin { V.PageView.tells → (at : ℕ) (es : List Xad) → listed xt_scale (extents_of (readers (V.PageView.block_count view.old)) (page_of (V.PageView.image view.old)) inode.now) ≡ Ok es →
        OnOk result (Gains (IsThinOf (readers (V.PageView.block_count view.old)) (page_of (V.PageView.image view.old)) n at
        (spelled (readers (V.PageView.block_count view.old)) (page_of (V.PageView.image view.old)) inode.now)) findings.old.items findings.new.items) }
    ensures held { V.PageView.tells → (es : List Xad) → listed xt_scale (extents_of (readers (V.PageView.block_count view.old)) (page_of (V.PageView.image view.old)) inode.now) ≡ Ok es →
        OnOk result (Adds (extents_held (extents_of (readers (V.PageView.block_count view.old)) (page_of (V.PageView.image view.old)) inode.now)) owners.old owners.new) }
    // Of any tree: what the first eight levels hold, where a page that breaks a rule holds itself alone.
    ensures levels { V.PageView.tells → OnOk result (Adds (inode_has (V.PageView.block_count view.old) (page_of (V.PageView.image view.old)) inode.now) owners.old owners.new) }
    ensures thin_levels { V.PageView.tells → OnOk result (Gains
        (IsThinLevel (V.PageView.block_count view.old) (page_of (V.PageView.image view.old)) n inode.now) findings.old.items findings.new.items) }
{
    if !has_extents(inode) {
        return Ok(());
    }
    count_levels(alloc, view, n, root_in(inode), owners, findings)
}

/// The root and the pages below it, level by level: a tree that breaks no rule has no more than eight levels with its root.
fn count_levels<V: PageView>(
    alloc: Global,
    view: &mut V,
    n: u32,
    root: &[u8],
    owners: &mut Owners,
    findings: &mut Vec<Finding>,
) -> Result<(), ViewError>
    requires root { length root.now ≡ bytes_of Root }
    ensures image { V.PageView.tells → V.PageView.image view.new ≡ V.PageView.image view.old }
    ensures count_of_blocks { V.PageView.block_count view.new ≡ V.PageView.block_count view.old }
    ensures device { V.PageView.device view.new ≡ V.PageView.device view.old }
    ensures fault { CarriesCount (V.PageView.faults view.old) (V.PageView.faults view.new) result }
    ensures fits { V.PageView.block_count view.old ≤ no_page }
    ensures thin { V.PageView.tells → OnOk result (Gains
        (Tells n (IsThinAbove (tree_nodes (V.PageView.block_count view.old) (page_of (V.PageView.image view.old)) root.now) 8)) findings.old.items findings.new.items) }
    ensures held { V.PageView.tells → OnOk result (Adds
        (levels_have (tree_nodes (V.PageView.block_count view.old) (page_of (V.PageView.image view.old)) root.now) 8) owners.old owners.new) }
{
    let blocks = view.blocks();
    let top = XtPages {
        form: XtForm::Root,
        blocks,
    };
    let mut line = Vec::new(alloc);
    match count_node(&top, root, owners, &mut line) {
        Ok(_) => {}
        Err(_) => return Err(ViewError::Memory),
    }
    for _depth in 1..8u32 {
        line = count_line(alloc, view, n, line.as_slice(), owners, findings)?;
    }
    Ok(())
}

/// The pages of a level below the root's; answers those of the level below it.
fn count_line<V: PageView>(
    alloc: Global,
    view: &mut V,
    n: u32,
    line: &[u32],
    owners: &mut Owners,
    findings: &mut Vec<Finding>,
) -> Result<Vec<u32>, ViewError>
    requires within { AllBelow (V.PageView.block_count view.old) line.now }
    ensures image { V.PageView.tells → V.PageView.image view.new ≡ V.PageView.image view.old }
    ensures count_of_blocks { V.PageView.block_count view.new ≡ V.PageView.block_count view.old }
    ensures device { V.PageView.device view.new ≡ V.PageView.device view.old }
    ensures fault { CarriesCount (V.PageView.faults view.old) (V.PageView.faults view.new) result }
    ensures within { IfOk result (λ below. AllBelow (V.PageView.block_count view.old) below.items) }
    ensures below { V.PageView.tells → IfOk result (λ below.
        below.items ≡ flat_map (λ p. pages_below (page_nodes (V.PageView.block_count view.old) (page_of (V.PageView.image view.old)) p)) line.now) }
    ensures thin { V.PageView.tells → OnOk result (Gains
        (Tells n (IsThinOn (page_nodes (V.PageView.block_count view.old) (page_of (V.PageView.image view.old))) line.now (length line.now))) findings.old.items findings.new.items) }
    ensures held { V.PageView.tells → OnOk result (Adds
        (line_has (page_nodes (V.PageView.block_count view.old) (page_of (V.PageView.image view.old))) line.now) owners.old owners.new) }
{
    let mut below = Vec::new(alloc);
    for i in 0..line.len() {
        let page = line[i];
        let count = count_page(view, page, owners, &mut below)?;
        let thin = is_thin(count, line.len() - 1 - i);
        match note_if(thin, FindingKind::Thin, page, u64::from(n), findings) {
            Ok(()) => {}
            Err(_) => return Err(ViewError::Memory),
        }
    }
    Ok(below)
}

/// Whether a page with so many entries has few, where so many pages stand behind it on its level.
fn is_thin(count: usize, behind: usize) -> bool
    ensures { result ≡ (nat_lt count 64 && nat_lt 0 behind) }
{
    count < 64 && behind > 0
}
