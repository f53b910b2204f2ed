//! The way from the root down the first children, and the pages of each level, by the bytes of the pages.

ghost use Rattle.std.specs.Prelude.{◌≤◌};

use crate::volume::{Dir, LIMIT};

/// Where the links to the page behind and to the page before stand in a page's header.
const NEXT: usize = 0;

const PREVIOUS: usize = 8;

/// The last page that was met on each level, the leaves' first.
type Met = [Option<u8>; 9];

/// How many inner pages stand on the leftmost way, and how many units their first keys have together.
pub fn first_keys(dir: &Dir) -> (u32, u32) {
    if is_leaf(dir.root[16]) {
        return (0, 0);
    }
    let at = 32 * usize::from(dir.root[24].min(8));
    let mut pages: u32 = 1;
    let mut units = u32::from(dir.root[at + 9]);
    let mut page = usize::from(dir.root[at + 4]);
    for _ in 0..8 {
        if is_leaf(dir.byte(page, 16)) {
            return (pages, units);
        }
        let at = 32 * usize::from(dir.byte(page, 32));
        pages = pages.saturating_add(1);
        units = units.saturating_add(u32::from(dir.byte(page, at + 9)));
        page = usize::from(dir.byte(page, at + 4));
    }
    (pages, units)
}

/// Whether the first keys on the leftmost way are empty.
pub fn is_trimmed(dir: &Dir) -> bool {
    first_keys(dir).1 == 0
}

fn is_leaf(flag: u8) -> bool {
    flag / 2 % 2 == 1
}

/// Whether the pages of each level name each other in their order, and nothing before the first or behind the last of them, each page names itself, and the root has
/// its limit and its parent.
pub fn is_linked(dir: &Dir) -> bool {
    let mut met: Met = [None; 9];
    if !has_front(dir) {
        return false;
    }
    if is_leaf(dir.root[16]) {
        return true;
    }
    for i in 0..usize::from(dir.root[17].min(8)) {
        let at = 32 * usize::from(dir.root[24 + i].min(8));
        if !follows(dir, dir.root[at + 4], 7, &mut met) {
            return false;
        }
    }
    for last in &met {
        if let Some(page) = last {
            if !names(dir, *page, NEXT, 0) {
                return false;
            }
        }
    }
    true
}

/// Whether the root's first 16 bytes, where a limit of the directory stands, and the number of its parent are those that it was made with.
fn has_front(dir: &Dir) -> bool {
    for at in 0..16 {
        if dir.root[at] != LIMIT {
            return false;
        }
    }
    dir.root[20] == 2 && dir.root[21] == 0 && dir.root[22] == 0 && dir.root[23] == 0
}

/// Whether a page names itself: its own descriptor is one block at its own number.
fn names_itself(dir: &Dir, page: u8) -> bool {
    for at in 24..32 {
        let wanted = match at {
            24 => 1,
            28 => page,
            _ => 0,
        };
        if dir.byte(usize::from(page), at) != wanted {
            return false;
        }
    }
    true
}

/// Whether a link of a page, eight bytes, names this page, or none where it is 0.
fn names(dir: &Dir, page: u8, link: usize, wanted: u8) -> bool
    requires { link ≤ 8 }
{
    for i in 0..8 {
        let byte = if i == 0 { wanted } else { 0 };
        if dir.byte(usize::from(page), link + i) != byte {
            return false;
        }
    }
    true
}

/// Whether a page, with so many levels below it at most, and those below it stand behind what was met on their levels, by both links, and name themselves.
fn follows(dir: &Dir, page: u8, most: u8, met: &mut Met) -> bool {
    if !names_itself(dir, page) {
        return false;
    }
    let level = usize::from(most.min(8));
    let n = usize::from(page);
    match met[level] {
        Some(before) => {
            if !names(dir, before, NEXT, page) || !names(dir, page, PREVIOUS, before) {
                return false;
            }
        }
        None => {
            if !names(dir, page, PREVIOUS, 0) {
                return false;
            }
        }
    }
    met[level] = Some(page);
    if is_leaf(dir.byte(n, 16)) {
        return true;
    }
    if most == 0 {
        return false;
    }
    for i in 0..usize::from(dir.byte(n, 17)) {
        let table = 32 * usize::from(dir.byte(n, 21));
        let slot = usize::from(dir.byte(n, table + i));
        if !follows(dir, dir.byte(n, 32 * slot + 4), most - 1, met) {
            return false;
        }
    }
    true
}
