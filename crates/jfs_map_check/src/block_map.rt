//! The findings of the block map.

ghost use Rattle.std.specs.Prelude.{◌≡◌, ◌+◌, ◌*◌, ◌%◌, ◌^◌, ◌<◌, ◌≤◌, min, true, length, IsTrue, IfOk, IfErr};
ghost use Rattle.jfs_disk.specs.Image.{page_of};
ghost use Rattle.jfs_bits.specs.Field.{range_of};
ghost use Rattle.jfs_super.specs.declared.fields.Super.{Super};
ghost use Rattle.jfs_bmap.specs.Set.{taken_at};
ghost use Rattle.jfs_bmap.specs.MapFile.{AreGroups, IsMapPage, is_in_use, pages_of};
ghost use Rattle.jfs_findings.specs.objects.specs.Contents.{block_of};
ghost use Rattle.jfs_findings.specs.reader.specs.Reading.{CarriesRead, OutsideIsPast};
ghost use Rattle.jfs_findings.specs.mount_rules.specs.Subject.{subject_of};
ghost use Rattle.jfs_findings.specs.Maps.{IsMapPageAs};
ghost use Rattle.jfs_findings.specs.Gains.{Gains};
ghost use Rattle.jfs_map_check.specs.Found.{KnowsOwners, IsOfBlockMap, SomeIsPast, IsOtherAt, IsOtherBit, IsWrongPage, IsWrongAt, IsWrongIn, IsWrongBelow};

use crate::block_page::is_canonical;
use crate::compare::same_word;
use jfs_bits::{Xad, bit};
use jfs_bmap::OwnedMap;
use jfs_disk::Page;
use jfs_findings::mount_rules::from_block;
use jfs_findings::reader::{ReadError, page_of_block};
use jfs_findings::{Finding, FindingKind};
use jfs_ranges::{PageView, ViewError};
use std::alloc::{AllocError, Global};

/// Adds the findings of the block map to a list: each page of its file that isn't canonical in what is compared, and each block whose bit in the
/// persistent map differs from its having an owner. `owned` has a bit for each block of the volume, in words as in the maps, set where the block has an
/// owner; `extents` are those of the map's file, and a page without a block is passed over. Reads each page once, and takes half a byte a block and some pages.
/// An error is the view's, want of memory, or `Outside`, where the extents name a block past the volume's end. (JFS Layout, block map.)
pub fn check_block_map<V: PageView>(
    alloc: Global,
    view: &mut V,
    agsize: u32,
    owned: &[u8],
    extents: &[Xad],
    findings: &mut Vec<Finding>,
) -> Result<(), ReadError>
    requires most { V.PageView.block_count view.old ≤ 2 ^ 23 }
    requires size { V.PageView.block_count view.old ≤ 8 * length owned.now }
    requires words { length owned.now % 4 ≡ 0 }
    requires groups { AreGroups (V.PageView.block_count view.old) agsize }
    ensures image { V.PageView.tells → V.PageView.image view.new ≡ V.PageView.image view.old }
    ensures count_of_blocks { V.PageView.block_count view.new ≡ V.PageView.block_count view.old }
    ensures device { V.PageView.device view.new ≡ V.PageView.device view.old }
    ensures fault { CarriesRead (V.PageView.faults view.old) (V.PageView.faults view.new) result }
    ensures outside { IfErr result (SomeIsPast (V.PageView.block_count view.old) extents.now) }
    ensures findings { V.PageView.tells → IfOk result (λ it. (super : Super) →
        KnowsOwners (subject_of super (page_of (V.PageView.image view.old))) (V.PageView.block_count view.old) agsize owned.now extents.now →
        Gains (IsOfBlockMap (subject_of super (page_of (V.PageView.image view.old)))) findings.old.items findings.new.items) }
{
    let blocks = view.blocks();
    let map = match OwnedMap::from_set(alloc, owned, blocks, agsize) {
        Ok(map) => map,
        Err(_) => return Err(ReadError::View(ViewError::Memory)),
    };
    check_pages(view, &map, extents, findings)
}

/// Adds the findings of all pages of the map's file.
fn check_pages<V: PageView>(
    view: &mut V,
    map: &OwnedMap,
    extents: &[Xad],
    findings: &mut Vec<Finding>,
) -> Result<(), ReadError>
    requires { length map.now.owned ≡ V.PageView.block_count view.old }
    ensures image { V.PageView.tells → V.PageView.image view.new ≡ V.PageView.image view.old }
    ensures count_of_blocks { V.PageView.block_count view.new ≡ V.PageView.block_count view.old }
    ensures device { V.PageView.device view.new ≡ V.PageView.device view.old }
    ensures fault { CarriesRead (V.PageView.faults view.old) (V.PageView.faults view.new) result }
    ensures outside { IfErr result (SomeIsPast (V.PageView.block_count view.old) extents.now) }
    ensures findings { V.PageView.tells → IfOk result (λ it.
        Gains (IsWrongBelow (length map.now.owned) map.now.agsize (taken_at map.now.owned) (page_of (V.PageView.image view.old)) extents.now (pages_of (length map.now.owned))) findings.old.items findings.new.items) }
{
    let mut canonical = Page::zeros();
    let mut rest = extents;
    for j in 0..map.pages() {
        rest = from_block(rest, u64::from(j));
        check_page(view, map, rest, j, &mut canonical, findings)?;
    }
    Ok(())
}

/// Adds the findings of page `j` of the map's file.
fn check_page<V: PageView>(
    view: &mut V,
    map: &OwnedMap,
    extents: &[Xad],
    j: u32,
    canonical: &mut Page,
    findings: &mut Vec<Finding>,
) -> Result<(), ReadError>
    requires { length map.now.owned ≡ V.PageView.block_count view.old }
    ensures image { V.PageView.tells → V.PageView.image view.new ≡ V.PageView.image view.old }
    ensures count_of_blocks { V.PageView.block_count view.new ≡ V.PageView.block_count view.old }
    ensures device { V.PageView.device view.new ≡ V.PageView.device view.old }
    ensures fault { CarriesRead (V.PageView.faults view.old) (V.PageView.faults view.new) result }
    ensures outside { IfErr result (OutsideIsPast (V.PageView.block_count view.old) (block_of extents.now j)) }
    ensures findings { V.PageView.tells → IfOk result (λ it.
        Gains (IsWrongIn (length map.now.owned) map.now.agsize (taken_at map.now.owned) (page_of (V.PageView.image view.old)) extents.now j) findings.old.items findings.new.items) }
{
    if !map.is_in_use(j) {
        return Ok(());
    }
    let n = match page_of_block(extents, map.blocks(), u64::from(j)) {
        Ok(Some(n)) => n,
        Ok(None) => return Ok(()),
        Err(e) => return Err(e),
    };
    match view.page(n) {
        Ok(page) => note_page(map, j, n, page, canonical, findings),
        Err(e) => Err(ReadError::View(e)),
    }
}

/// Adds what is wrong with page `j` of the map's file, which stands on page `n`.
fn note_page(
    map: &OwnedMap,
    j: u32,
    n: u32,
    page: &Page,
    canonical: &mut Page,
    findings: &mut Vec<Finding>,
) -> Result<(), ReadError>
    requires { is_in_use (length map.now.owned) j ≡ true }
    ensures memory { IfErr result (λ e. e ≡ ReadError.View ViewError.Memory) }
    ensures findings { IfOk result (λ it. Gains (IsWrongAt (length map.now.owned) map.now.agsize (taken_at map.now.owned) j n page.now.0) findings.old.items findings.new.items) }
{
    match note_all(map, j, n, page, canonical, findings) {
        Ok(()) => Ok(()),
        Err(_) => Err(ReadError::View(ViewError::Memory)),
    }
}

/// The same; an error is want of memory. A canonical page has each block's bit.
fn note_all(
    map: &OwnedMap,
    j: u32,
    n: u32,
    page: &Page,
    canonical: &mut Page,
    findings: &mut Vec<Finding>,
) -> Result<(), AllocError>
    requires { is_in_use (length map.now.owned) j ≡ true }
    ensures { IfOk result (λ it. Gains (IsWrongAt (length map.now.owned) map.now.agsize (taken_at map.now.owned) j n page.now.0) findings.old.items findings.new.items) }
{
    let passed = note_canonical(map, j, n, page, canonical, findings)?;
    if passed || j < 4 {
        return Ok(());
    }
    let count = (map.blocks() - 8192 * (j - 4)).min(8192);
    note_bits(j - 4, n, count, page, canonical, findings)?;
    Ok(())
}

/// Adds a page that isn't canonical in what is compared, and tells whether it is. `canonical` gets the page in its canonical form.
fn note_canonical(
    map: &OwnedMap,
    j: u32,
    n: u32,
    page: &Page,
    canonical: &mut Page,
    findings: &mut Vec<Finding>,
) -> Result<bool, AllocError>
    ensures canonical { IsMapPage (length map.now.owned) map.now.agsize (taken_at map.now.owned) j canonical.new.0 }
    ensures passed { IfOk result (λ passed. IsTrue passed → IsMapPageAs (length map.now.owned) map.now.agsize (taken_at map.now.owned) j page.now.0) }
    ensures findings { IfOk result (λ passed. Gains (IsWrongPage (length map.now.owned) map.now.agsize (taken_at map.now.owned) j n page.now.0) findings.old.items findings.new.items) }
{
    if is_canonical(map, j, page, canonical) {
        return Ok(true);
    }
    findings.push(Finding {
        kind: FindingKind::Bmap,
        page: n,
        value: 0,
    })?;
    Ok(false)
}

/// Adds the first `count` blocks of dmap `k`, which stands on page `n`, as far as their bits in the persistent map aren't those of the canonical page.
fn note_bits(
    k: u32,
    n: u32,
    count: u32,
    page: &Page,
    canonical: &Page,
    findings: &mut Vec<Finding>,
) -> Result<(), AllocError>
    requires most { count ≤ 8192 }
    requires within { 8192 * k + count ≤ 2 ^ 23 }
    ensures { IfOk result (λ it. Gains (IsOtherBit k n (range_of page.now.0 3072 1024) (range_of canonical.now.0 3072 1024) 0 count) findings.old.items findings.new.items) }
{
    let have: &[u8] = &page.0[3072..4096];
    let want: &[u8] = &canonical.0[3072..4096];
    for w in 0..count.div_ceil(32) {
        note_word(have, want, w, n, k, count, findings)?;
    }
    Ok(())
}

/// Adds those of the first `count` blocks of dmap `k`, which stands on page `n`, whose bits in word `w` of its map differ from those of another map.
fn note_word(
    have: &[u8],
    want: &[u8],
    w: u32,
    n: u32,
    k: u32,
    count: u32,
    findings: &mut Vec<Finding>,
) -> Result<(), AllocError>
    requires size { length have.now ≡ 1024 }
    requires size_too { length want.now ≡ 1024 }
    requires word { 32 * w < count }
    requires most { count ≤ 8192 }
    requires within { 8192 * k + count ≤ 2 ^ 23 }
    ensures { IfOk result (λ it. Gains (IsOtherBit k n have.now want.now (32 * w) (min (32 * w + 32) count)) findings.old.items findings.new.items) }
{
    if same_word(have, want, w) {
        return Ok(());
    }
    let end = (32 * w + 32).min(count);
    for i in 32 * w..end {
        note_bit(have, want, i, n, 8192 * k + i, findings)?;
    }
    Ok(())
}

/// Adds a block whose bit stands on page `n`, where bit `i` differs from that of another map.
fn note_bit(
    have: &[u8],
    want: &[u8],
    i: u32,
    n: u32,
    block: u32,
    findings: &mut Vec<Finding>,
) -> Result<(), AllocError>
    requires size { length have.now ≡ 1024 }
    requires size_too { length want.now ≡ 1024 }
    requires within { i < 8192 }
    ensures { IfOk result (λ it. Gains (IsOtherAt n block have.now want.now i) findings.old.items findings.new.items) }
{
    if bit(have, i) == bit(want, i) {
        return Ok(());
    }
    findings.push(Finding {
        kind: FindingKind::Map,
        page: n,
        value: u64::from(block),
    })?;
    Ok(())
}
