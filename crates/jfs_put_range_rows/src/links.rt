//! The links and the own descriptors of a tree's pages, by their bytes.

ghost use Rattle.std.specs.Prelude.{◌≤◌};

use crate::file::File;

/// Where the links to the page behind and to the page before stand in a page's header.
const NEXT: usize = 0;

const PREVIOUS: usize = 8;

/// The last page that was met on each level.
type Met = [Option<u8>; 9];

/// Whether the pages of each level name each other in their order, and nothing before the first or behind the last of them, and each page names itself.
pub fn is_linked(file: &File) -> bool {
    let mut met: Met = [None; 9];
    if is_leaf(file.root[16]) {
        return true;
    }
    for i in 0..usize::from(file.root[18].clamp(2, 18) - 2) {
        if !follows(file, file.root[44 + 16 * i], 7, &mut met) {
            return false;
        }
    }
    for last in &met {
        if let Some(page) = last {
            if !names(file, *page, NEXT, 0) {
                return false;
            }
        }
    }
    true
}

/// Whether a page names itself: its own descriptor is one block at its own number.
fn names_itself(file: &File, page: u8) -> bool {
    for at in 24..32 {
        let wanted = match at {
            24 => 1,
            28 => page,
            _ => 0,
        };
        if file.byte(page, at) != wanted {
            return false;
        }
    }
    true
}

/// Whether a link of a page, eight bytes, names this page, or none where it is 0.
fn names(file: &File, page: u8, link: usize, wanted: u8) -> bool
    requires { link ≤ 8 }
{
    for i in 0..8 {
        let byte = if i == 0 { wanted } else { 0 };
        if file.byte(page, link + i) != byte {
            return false;
        }
    }
    true
}

/// Whether a page, with so many levels below it at most, and those below it stand behind what was met on their levels, by both links, and name themselves.
fn follows(file: &File, page: u8, most: u8, met: &mut Met) -> bool {
    if !names_itself(file, page) {
        return false;
    }
    let level = usize::from(most.min(8));
    match met[level] {
        Some(before) => {
            if !names(file, before, NEXT, page) || !names(file, page, PREVIOUS, before) {
                return false;
            }
        }
        None => {
            if !names(file, page, PREVIOUS, 0) {
                return false;
            }
        }
    }
    met[level] = Some(page);
    if is_leaf(file.byte(page, 16)) {
        return true;
    }
    if most == 0 {
        return false;
    }
    for i in 0..usize::from(file.byte(page, 18).max(2) - 2) {
        if !follows(file, file.byte(page, 44 + 16 * i), most - 1, met) {
            return false;
        }
    }
    true
}

fn is_leaf(flag: u8) -> bool {
    flag / 2 % 2 == 1
}
