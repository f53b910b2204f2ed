//! Pages of trees in which each page but the last names the next one many times.

ghost use Rattle.std.specs.Prelude.{◌≤◌};

use jfs_bits::{put_u8, put_u16, put_u32};
use jfs_disk::{Disk, Page};

/// The pages from 44 on.
#[derive(Clone, Copy)]
pub enum Tree {
    None,
    /// So many pages of a directory's tree.
    Names(u32),
    /// So many pages of a file's tree.
    Extents(u32),
}

/// Where the tree begins.
const FIRST: u32 = 44;

/// Writes the pages of a tree.
pub fn put_tree<D: Disk>(disk: &mut D, tree: Tree) {
    let count = match tree {
        Tree::None => 0,
        Tree::Names(count) => count,
        Tree::Extents(count) => count,
    };
    for n in FIRST..FIRST.saturating_add(count.min(8)) {
        let is_leaf = n.saturating_sub(FIRST).saturating_add(1) == count;
        let page = match tree {
            Tree::Names(_) => names(n, is_leaf),
            _ => extents(n, is_leaf),
        };
        if n < disk.pages() {
            let _ = disk.write(n, &page);
        }
    }
}

/// How many slots of a directory's page can have entries: of its 128, all but the header's and the four of the table.
const SLOTS: u8 = 123;

/// A page of a directory's tree without a free slot, whose names have one unit each, 1 to 123 of a leaf, which all name inode 4. The keys of another page are no unit, and 1 to 122; they all lead to the next page.
fn names(n: u32, is_leaf: bool) -> Page {
    let mut page = Page::zeros();
    put_u8(&mut page.0, 16, if is_leaf { 2 } else { 4 });
    put_u8(&mut page.0, 17, SLOTS);
    put_u8(&mut page.0, 19, 255);
    put_u8(&mut page.0, 20, 128);
    put_u8(&mut page.0, 21, 1);
    put_u32(&mut page.0, 24, 1);
    put_u32(&mut page.0, 28, n);
    for i in 0..SLOTS {
        let slot = 5 + i;
        put_u8(&mut page.0, 32 + usize::from(i), slot);
        let at = 32 * usize::from(slot);
        if is_leaf {
            put_u32(&mut page.0, at, 4);
            put_name(&mut page, at + 4, u16::from(i) + 1);
        } else {
            put_u32(&mut page.0, at, 1);
            put_u32(&mut page.0, at + 4, n.saturating_add(1));
            put_name(&mut page, at + 8, u16::from(i));
        }
    }
    page
}

/// The end of a chain of slots, and a name of one unit, or of none where it is 0.
fn put_name(page: &mut Page, at: usize, unit: u16)
    requires { at ≤ 4092 }
{
    put_u8(&mut page.0, at, 255);
    put_u8(&mut page.0, at + 1, if unit == 0 { 0 } else { 1 });
    put_u16(&mut page.0, at + 2, unit);
}

/// A page of a file's tree with 254 entries of one block each: the first of them names block 42, and the others those behind it; or the next page, with keys a thousand blocks apart.
fn extents(n: u32, is_leaf: bool) -> Page {
    let mut page = Page::zeros();
    put_u8(&mut page.0, 16, if is_leaf { 2 } else { 4 });
    put_u16(&mut page.0, 18, 256);
    put_u16(&mut page.0, 20, 256);
    put_u32(&mut page.0, 24, 1);
    put_u32(&mut page.0, 28, n);
    for i in 0..254u16 {
        let at = 32 + 16 * usize::from(i);
        let apart = if is_leaf { 2 } else { 1000 };
        put_u32(&mut page.0, at + 4, apart * u32::from(i));
        put_u32(&mut page.0, at + 8, 1);
        let block = if is_leaf {
            42 + u32::from(i % 150)
        } else {
            n.saturating_add(1)
        };
        put_u32(&mut page.0, at + 12, block);
    }
    page
}
