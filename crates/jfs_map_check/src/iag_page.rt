//! Pages of the inode map's file.

ghost use Rattle.std.specs.Prelude.{◌≡◌, ◌+◌, ◌*◌, ◌/◌, ◌<◌, ◌≤◌, ◌↔◌, length, true, ℕ, IsTrue, get_or};
ghost use Rattle.jfs_bits.specs.Bits.{is_taken, count_below};
ghost use Rattle.jfs_bits.specs.Descriptor.{pxd_of};
ghost use Rattle.jfs_iag.specs.Iag.{no_run};
ghost use Rattle.jfs_iag.specs.Canonical.{is_there, is_free_inode};
ghost use Rattle.jfs_map_check.specs.Compared.{IsSameIag};
ghost use Rattle.jfs_findings.specs.Maps.{IsIagAs};

use crate::compare::same_word;
use jfs_bits::Pxd;
use jfs_disk::Page;
use jfs_iag::{Iag, iag_canonical, is_there, read_iag};

/// What the page of an inode allocation group (IAG) tells.
#[derive(Clone, Copy, PartialEq, Eq, Debug)]
pub struct IagReport {
    /// Whether it is canonical in what is compared.
    pub canonical: bool,
    /// The number of its extents that are there.
    pub extents: u32,
    /// The number of inodes of these extents that aren't in use.
    pub free: u32,
}

/// Compares the page of IAG `number` with the inodes in use, a bit for each of its 4,096, in words as in the maps. Its extents are those that the page has.
pub fn judge_iag(set: &[u8], number: u32, page: &Page) -> IagReport
    requires { length set.now ≡ 512 }
    ensures canonical { IsTrue result.canonical ↔ IsIagAs (is_taken set.now) (λ e. pxd_of page.now.0 (3072 + 8 * e)) number page.now.0 }
    ensures extents { result.extents ≡ count_below 128 (λ e. is_there (pxd_of page.now.0 (3072 + 8 * e))) }
    ensures free { result.free ≡ count_below 4096 (is_free_inode (is_taken set.now) (λ e. pxd_of page.now.0 (3072 + 8 * e))) }
{
    let have = read_iag(page);
    let mut canonical = Page::zeros();
    iag_canonical(set, &have.inoext, number, 0, &mut canonical);
    let want = read_iag(&canonical);
    IagReport {
        canonical: same_iag(&have, &want),
        extents: 128 - want.nfreeexts,
        free: want.nfreeinos,
    }
}

/// Whether two IAGs are the same in what is compared.
fn same_iag(have: &Iag, want: &Iag) -> bool
    ensures { IsTrue result ↔ IsSameIag have.now want.now }
{
    have.iagnum == want.iagnum
        && have.nfreeinos == want.nfreeinos
        && have.nfreeexts == want.nfreeexts
        && same_bits(&have.inosmap, &want.inosmap)
        && same_bits(&have.extsmap, &want.extsmap)
        && same_inodes(&have.wmap, &want.wmap, &have.inoext)
        && same_inodes(&have.pmap, &want.pmap, &have.inoext)
}

/// Whether two maps have the same bits for 128 extent places.
fn same_bits(one: &[u8; 16], other: &[u8; 16]) -> bool
    ensures { IsTrue result ↔ ((e : ℕ) → e < 128 → is_taken one.now e ≡ is_taken other.now e) }
{
    for w in 0..4 {
        if !same_word(one, other, w) {
            return false;
        }
    }
    true
}

/// Whether two maps have the same bits for the inodes of the extents that are there, of which each has a word.
fn same_inodes(one: &[u8; 512], other: &[u8; 512], extents: &[Pxd; 128]) -> bool
    ensures { IsTrue result ↔ ((i : ℕ) → i < 4096 → is_there (get_or extents.now (i / 32) no_run) ≡ true → is_taken one.now i ≡ is_taken other.now i) }
{
    for e in 0..128 {
        if is_there(extents[e as usize]) && !same_word(one, other, e) {
            return false;
        }
    }
    true
}
