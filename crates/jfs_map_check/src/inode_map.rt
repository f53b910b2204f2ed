//! The findings of the inode map.

ghost use Rattle.std.specs.Prelude.{◌≡◌, ◌+◌, ◌*◌, ◌^◌, ◌<◌, ◌≤◌, ◌↔◌, suc, length, IsTrue, IfOk, IfErr};
ghost use Rattle.jfs_bits.specs.Bits.{is_taken, count_below};
ghost use Rattle.jfs_bits.specs.Field.{field_of};
ghost use Rattle.jfs_disk.specs.Image.{page_of};
ghost use Rattle.jfs_super.specs.declared.fields.Super.{Super};
ghost use Rattle.jfs_iag.specs.Canonical.{is_there, is_free_inode};
ghost use Rattle.jfs_findings.specs.objects.specs.Contents.{block_of};
ghost use Rattle.jfs_findings.specs.reader.specs.Reading.{CarriesRead, OutsideIsPast};
ghost use Rattle.jfs_findings.specs.mount_rules.specs.Subject.{subject_of};
ghost use Rattle.jfs_findings.specs.Maps.{IsIagAs};
ghost use Rattle.jfs_findings.specs.Gains.{Gains};
ghost use Rattle.jfs_map_check.specs.Found.{SomeIsPast};
ghost use Rattle.jfs_map_check.specs.Inodes.{KnowsInodes, IsOfInodeMap, places_of, part_of, IsWrongIag, IsWrongIagIn, IsWrongIagBelow, AreCounts, AreTotals, control_of, IsWrongControl};

use crate::iag_page::{IagReport, judge_iag};
use jfs_bits::{Xad, get_u32};
use jfs_disk::Page;
use jfs_findings::mount_rules::from_block;
use jfs_findings::reader::{ReadError, page_of_block};
use jfs_findings::{Finding, FindingKind};
use jfs_ranges::{PageView, ViewError};
use std::alloc::AllocError;

/// What the control page of an inode map tells of all inodes.
#[derive(Clone, Copy, PartialEq, Eq, Debug)]
pub struct Control {
    /// The page that it stands on.
    pub page: u32,
    /// The number of inodes of all extents, and of the free ones among them.
    pub inodes: u32,
    pub free: u32,
}

/// What the pages of the IAGs have.
#[derive(Clone, Copy, PartialEq, Eq, Debug)]
struct Totals {
    extents: u32,
    free: u32,
}

/// Adds the findings of the inode map to a list: each page of its file that isn't canonical in what is compared. `used` has a bit for each inode, 512 bytes for
/// each of the inode allocation groups (IAGs), in words as in the maps, set where the inode is in use; `extents` are those of the map's file, and a page
/// without a block is passed over. Reads each page once, and takes no memory but for findings. An error is as in `check_block_map`. (JFS Layout, inode map.)
pub fn check_inode_map<V: PageView>(
    view: &mut V,
    used: &[u8],
    extents: &[Xad],
    iags: u32,
    findings: &mut Vec<Finding>,
) -> Result<(), ReadError>
    requires most { iags ≤ 65536 }
    requires size { length used.now ≡ 512 * iags }
    ensures image { V.PageView.tells → V.PageView.image view.new ≡ V.PageView.image view.old }
    ensures count_of_blocks { V.PageView.block_count view.new ≡ V.PageView.block_count view.old }
    ensures device { V.PageView.device view.new ≡ V.PageView.device view.old }
    ensures fault { CarriesRead (V.PageView.faults view.old) (V.PageView.faults view.new) result }
    ensures outside { IfErr result (SomeIsPast (V.PageView.block_count view.old) extents.now) }
    ensures findings { V.PageView.tells → IfOk result (λ it. (super : Super) →
        KnowsInodes (subject_of super (page_of (V.PageView.image view.old))) (V.PageView.block_count view.old) iags used.now extents.now →
        Gains (IsOfInodeMap (subject_of super (page_of (V.PageView.image view.old)))) findings.old.items findings.new.items) }
{
    let told = read_control(view, extents)?;
    let totals = check_iags(view, used, extents, iags, findings)?;
    match note_control(told, totals.extents, totals.free, findings) {
        Ok(()) => Ok(()),
        Err(_) => Err(ReadError::View(ViewError::Memory)),
    }
}

/// What the control page tells; `None` exactly where it stands on no block.
fn read_control<V: PageView>(view: &mut V, extents: &[Xad]) -> Result<Option<Control>, ReadError>
    ensures image { V.PageView.tells → V.PageView.image view.new ≡ V.PageView.image view.old }
    ensures count_of_blocks { V.PageView.block_count view.new ≡ V.PageView.block_count view.old }
    ensures device { V.PageView.device view.new ≡ V.PageView.device view.old }
    ensures fault { CarriesRead (V.PageView.faults view.old) (V.PageView.faults view.new) result }
    ensures outside { IfErr result (OutsideIsPast (V.PageView.block_count view.old) (block_of extents.now 0)) }
    ensures control { V.PageView.tells → IfOk result (λ told. told ≡ control_of (page_of (V.PageView.image view.old)) extents.now) }
{
    let n = match page_of_block(extents, view.blocks(), 0) {
        Ok(Some(n)) => n,
        Ok(None) => return Ok(None),
        Err(e) => return Err(e),
    };
    match view.page(n) {
        Ok(page) => Ok(Some(control_on(n, page))),
        Err(e) => Err(ReadError::View(e)),
    }
}

/// What the control page tells, which stands on page `n`.
fn control_on(n: u32, page: &Page) -> Control
    ensures { result ≡ record { page = n; inodes = field_of page.now.0 8 4; free = field_of page.now.0 12 4 } }
{
    let bytes: &[u8] = &page.0;
    Control {
        page: n,
        inodes: get_u32(bytes, 8),
        free: get_u32(bytes, 12),
    }
}

/// Adds the control page where it doesn't tell so many inode extents and free inodes.
fn note_control(
    told: Option<Control>,
    extents: u32,
    free: u32,
    findings: &mut Vec<Finding>,
) -> Result<(), AllocError>
    requires { extents ≤ 128 * 65536 }
    ensures { IfOk result (λ it. Gains (IsWrongControl told extents free) findings.old.items findings.new.items) }
{
    let control = match told {
        Some(control) => control,
        None => return Ok(()),
    };
    if control.inodes == 32 * extents && control.free == free {
        return Ok(());
    }
    findings.push(Finding {
        kind: FindingKind::Iag,
        page: control.page,
        value: 0,
    })?;
    Ok(())
}

/// Adds the findings of all IAGs, and counts their extents and free inodes.
fn check_iags<V: PageView>(
    view: &mut V,
    used: &[u8],
    extents: &[Xad],
    iags: u32,
    findings: &mut Vec<Finding>,
) -> Result<Totals, ReadError>
    requires most { iags ≤ 65536 }
    requires size { length used.now ≡ 512 * iags }
    ensures image { V.PageView.tells → V.PageView.image view.new ≡ V.PageView.image view.old }
    ensures count_of_blocks { V.PageView.block_count view.new ≡ V.PageView.block_count view.old }
    ensures device { V.PageView.device view.new ≡ V.PageView.device view.old }
    ensures fault { CarriesRead (V.PageView.faults view.old) (V.PageView.faults view.new) result }
    ensures outside { IfErr result (SomeIsPast (V.PageView.block_count view.old) extents.now) }
    ensures most { IfOk result (λ totals. totals.extents ≤ 128 * iags) }
    ensures totals { V.PageView.tells → IfOk result (λ totals.
        AreTotals (is_taken used.now) (page_of (V.PageView.image view.old)) extents.now iags totals.extents totals.free) }
    ensures findings { V.PageView.tells → IfOk result (λ totals.
        Gains (IsWrongIagBelow (is_taken used.now) (page_of (V.PageView.image view.old)) extents.now iags) findings.old.items findings.new.items) }
{
    let mut there = 0;
    let mut free = 0;
    let mut rest = extents;
    for k in 0..iags {
        rest = from_block(rest, u64::from(k) + 1);
        let report = check_iag(view, used, rest, k, findings)?;
        there += report.extents;
        free += report.free;
    }
    Ok(Totals {
        extents: there,
        free,
    })
}

/// Adds the findings of IAG `k`, and counts its extents and free inodes.
fn check_iag<V: PageView>(
    view: &mut V,
    used: &[u8],
    extents: &[Xad],
    k: u32,
    findings: &mut Vec<Finding>,
) -> Result<IagReport, ReadError>
    requires most { k < 65536 }
    requires size { 512 * k + 512 ≤ length used.now }
    ensures image { V.PageView.tells → V.PageView.image view.new ≡ V.PageView.image view.old }
    ensures count_of_blocks { V.PageView.block_count view.new ≡ V.PageView.block_count view.old }
    ensures device { V.PageView.device view.new ≡ V.PageView.device view.old }
    ensures fault { CarriesRead (V.PageView.faults view.old) (V.PageView.faults view.new) result }
    ensures outside { IfErr result (OutsideIsPast (V.PageView.block_count view.old) (block_of extents.now (suc k))) }
    ensures most { IfOk result (λ report. (report.extents ≤ 128) × (report.free ≤ 4096)) }
    ensures counts { V.PageView.tells → IfOk result (AreCounts (is_taken used.now) (page_of (V.PageView.image view.old)) extents.now k) }
    ensures findings { V.PageView.tells → IfOk result (λ report.
        Gains (IsWrongIagIn (is_taken used.now) (page_of (V.PageView.image view.old)) extents.now k) findings.old.items findings.new.items) }
{
    let n = match page_of_block(extents, view.blocks(), u64::from(k) + 1) {
        Ok(Some(n)) => n,
        Ok(None) => {
            return Ok(IagReport {
                canonical: true,
                extents: 0,
                free: 0,
            });
        }
        Err(e) => return Err(e),
    };
    match view.page(n) {
        Ok(page) => note_iag(used, k, n, page, findings),
        Err(e) => Err(ReadError::View(e)),
    }
}

/// Adds the page of IAG `k`, which stands on page `n`, where it isn't canonical in what is compared.
fn note_iag(
    used: &[u8],
    k: u32,
    n: u32,
    page: &Page,
    findings: &mut Vec<Finding>,
) -> Result<IagReport, ReadError>
    requires most { k < 65536 }
    requires size { 512 * k + 512 ≤ length used.now }
    ensures memory { IfErr result (λ e. e ≡ ReadError.View ViewError.Memory) }
    ensures most { IfOk result (λ report. (report.extents ≤ 128) × (report.free ≤ 4096)) }
    ensures extents { IfOk result (λ report. report.extents ≡ count_below 128 (λ e. is_there (places_of page.now.0 e))) }
    ensures free { IfOk result (λ report. report.free ≡ count_below 4096 (is_free_inode (part_of (is_taken used.now) k) (places_of page.now.0))) }
    ensures findings { IfOk result (λ report. Gains (IsWrongIag (is_taken used.now) k n page.now.0) findings.old.items findings.new.items) }
{
    let report = judge_part(used, k, page);
    if report.canonical {
        return Ok(report);
    }
    match findings.push(Finding {
        kind: FindingKind::Iag,
        page: n,
        value: 0,
    }) {
        Ok(()) => Ok(report),
        Err(_) => Err(ReadError::View(ViewError::Memory)),
    }
}

/// Compares the page of IAG `k` with the inodes in use.
fn judge_part(used: &[u8], k: u32, page: &Page) -> IagReport
    requires most { k < 65536 }
    requires size { 512 * k + 512 ≤ length used.now }
    ensures canonical { IsTrue result.canonical ↔ IsIagAs (part_of (is_taken used.now) k) (places_of page.now.0) k page.now.0 }
    ensures extents { result.extents ≡ count_below 128 (λ e. is_there (places_of page.now.0 e)) }
    ensures free { result.free ≡ count_below 4096 (is_free_inode (part_of (is_taken used.now) k) (places_of page.now.0)) }
    ensures most { (result.extents ≤ 128) × (result.free ≤ 4096) }
{
    let at = 512 * k as usize;
    judge_iag(&used[at..at + 512], k, page)
}
