//! The canonical page of an inode allocation group.

ghost use Rattle.std.specs.Prelude.{◌≡◌, ◌+◌, ◌*◌, ◌/◌, ◌%◌, ◌<◌, ◌≤◌, ◌==◌, ◌||◌, ◌&&◌, not, length, get_or, if◌then◌else◌, ℕ};
ghost use Rattle.jfs_bits.specs.Bits.{is_taken, is_taken_in, any_below, count_below};
ghost use Rattle.jfs_bits.specs.Descriptor.{FitsPxd};
ghost use Rattle.jfs_iag.specs.Iag.{no_run};
ghost use Rattle.jfs_iag.specs.Canonical.{is_there, has_free, is_free_inode, no_links, IsIagOf, IsIagPage};

use crate::iag::{END, Iag, write_iag};
use jfs_bits::{Pxd, bit, get_array, get_u32, lowest_run, set_run};
use jfs_disk::Page;

/// An extent that isn't there.
pub const NO_EXTENT: Pxd = Pxd { len: 0, addr: 0 };

/// The words of an IAG that hold its place in the lists of its allocation group; -1 (`END`) where there is none.
#[derive(Clone, Copy, PartialEq, Eq, Debug)]
pub struct Links {
    pub inofreefwd: u32,
    pub inofreeback: u32,
    pub extfreefwd: u32,
    pub extfreeback: u32,
}

/// Whether an extent is there.
pub fn is_there(extent: Pxd) -> bool
    ensures { result ≡ is_there extent }
{
    !(extent.len == 0 && extent.addr == 0)
}

/// Writes the canonical page of an IAG, with -1 in its list words: `set` has a bit for each of its 4,096 inodes, in words as
/// in the maps, `extents` its 128 extent places; its allocation group begins at block `agstart`.
pub fn iag_canonical(set: &[u8], extents: &[Pxd], number: u32, agstart: u64, page: &mut Page)
    requires set { length set.now ≡ 512 }
    requires extents { length extents.now ≡ 128 }
    requires fits { (e : ℕ) → e < 128 → FitsPxd (get_or extents.now e no_run) }
    ensures { IsIagPage (is_taken set.now) (λ e. get_or extents.now e no_run) number agstart no_links page.new.0 }
{
    let links = Links {
        inofreefwd: END,
        inofreeback: END,
        extfreefwd: END,
        extfreeback: END,
    };
    iag_with_links(set, extents, number, agstart, links, page);
}

/// The same with these list words.
pub fn iag_with_links(
    set: &[u8],
    extents: &[Pxd],
    number: u32,
    agstart: u64,
    links: Links,
    page: &mut Page,
)
    requires set { length set.now ≡ 512 }
    requires extents { length extents.now ≡ 128 }
    requires fits { (e : ℕ) → e < 128 → FitsPxd (get_or extents.now e no_run) }
    ensures { IsIagPage (is_taken set.now) (λ e. get_or extents.now e no_run) number agstart links page.new.0 }
{
    let iag = iag_of(set, extents, number, agstart, links);
    page.0.fill(0);
    write_iag(page, &iag);
}

/// The fields of a canonical IAG.
fn iag_of(set: &[u8], extents: &[Pxd], number: u32, agstart: u64, links: Links) -> Iag
    requires set { length set.now ≡ 512 }
    requires extents { length extents.now ≡ 128 }
    ensures canonical { IsIagOf (is_taken set.now) (λ e. get_or extents.now e no_run) number agstart links result }
    ensures extents { result.inoext ≡ extents.now }
{
    let mut inoext = [NO_EXTENT; 128];
    inoext.copy_from_slice(extents);
    Iag {
        agstart,
        iagnum: number,
        inofreefwd: links.inofreefwd,
        inofreeback: links.inofreeback,
        extfreefwd: links.extfreefwd,
        extfreeback: links.extfreeback,
        iagfree: END,
        inosmap: full_extents(set, extents),
        extsmap: present_extents(extents),
        nfreeinos: free_inodes(set, extents),
        nfreeexts: free_places(extents),
        wmap: get_array(set, 0),
        pmap: get_array(set, 0),
        inoext,
    }
}

/// Sets a bit of a map where it is to be marked.
fn mark(map: &mut [u8], i: u32, marked: bool)
    requires whole_words { length map.old % 4 ≡ 0 }
    requires within { i < 8 * length map.old }
    ensures { (b : ℕ) → is_taken map.new b ≡ (b == i && marked || is_taken map.old b) }
{
    if marked {
        set_run(map, i, 1);
    }
}

/// Whether one of the 32 inodes of a word of the map is free.
pub fn has_clear_bit(word: u32) -> bool
    ensures { result ≡ any_below 32 (λ i. not (is_taken_in word i)) }
{
    lowest_run(word, 0).is_some()
}

/// Whether extent `e` is there and has a free inode.
pub fn extent_has_free(set: &[u8], extents: &[Pxd], e: u32) -> bool
    requires set { 4 * e + 4 ≤ length set.now }
    requires extents { e < length extents.now }
    ensures { result ≡ has_free (is_taken set.now) (λ e. get_or extents.now e no_run) e }
{
    is_there(extents[e as usize]) && has_clear_bit(get_u32(set, 4 * e as usize))
}

/// A bit for each extent place, set where no extent is there or none of its inodes is free.
fn full_extents(set: &[u8], extents: &[Pxd]) -> [u8; 16]
    requires set { length set.now ≡ 512 }
    requires extents { length extents.now ≡ 128 }
    ensures { (e : ℕ) → e < 128 → is_taken result e ≡ not (has_free (is_taken set.now) (λ e. get_or extents.now e no_run) e) }
{
    let mut map = [0u8; 16];
    for e in 0..128 {
        mark(&mut map, e, !extent_has_free(set, extents, e));
    }
    map
}

/// A bit for each extent place, set where an extent is there.
fn present_extents(extents: &[Pxd]) -> [u8; 16]
    requires { length extents.now ≡ 128 }
    ensures { (e : ℕ) → e < 128 → is_taken result e ≡ is_there (get_or extents.now e no_run) }
{
    let mut map = [0u8; 16];
    for e in 0..128 {
        mark(&mut map, e, is_there(extents[e as usize]));
    }
    map
}

/// 1 for what holds, 0 for what doesn't.
fn weight(holds: bool) -> u32
    ensures { result ≡ (if holds then 1 else 0) }
{
    if holds { 1 } else { 0 }
}

/// Whether inode `i` lies in an extent that is there, and isn't in use.
fn is_free(set: &[u8], extents: &[Pxd], i: u32) -> bool
    requires set { length set.now ≡ 512 }
    requires extents { length extents.now ≡ 128 }
    requires within { i < 4096 }
    ensures { result ≡ is_free_inode (is_taken set.now) (λ e. get_or extents.now e no_run) i }
{
    is_there(extents[(i / 32) as usize]) && !bit(set, i)
}

/// The number of free inodes of the extents that are there.
fn free_inodes(set: &[u8], extents: &[Pxd]) -> u32
    requires set { length set.now ≡ 512 }
    requires extents { length extents.now ≡ 128 }
    ensures { result ≡ count_below 4096 (is_free_inode (is_taken set.now) (λ e. get_or extents.now e no_run)) }
{
    let mut free = 0;
    for i in 0..4096 {
        free += weight(is_free(set, extents, i));
    }
    free
}

/// The number of places without an extent.
fn free_places(extents: &[Pxd]) -> u32
    requires { length extents.now ≡ 128 }
    ensures { result ≡ count_below 128 (λ e. not (is_there (get_or extents.now e no_run))) }
{
    let mut free = 0;
    for e in 0..128 {
        free += weight(!is_there(extents[e]));
    }
    free
}
