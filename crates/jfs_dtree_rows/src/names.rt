//! Paths read and names written.

use jfs_name::{Path, PathError, read_path, write_name};
use std::alloc::Global;
use std::test::*;

/// Whether a text is refused for this.
fn refuses(alloc: Global, text: &[u8], why: PathError) -> bool {
    match read_path(alloc, text) {
        Ok(_) => false,
        Err(found) => found == why,
    }
}

/// Whether a text is a path of so many names, of which these are some, each at its place.
fn reads(alloc: Global, text: &[u8], count: usize, names: &[(usize, &[u16])]) -> bool {
    match read_path(alloc, text) {
        Ok(path) => path.len() == count && has(&path, names),
        Err(_) => false,
    }
}

fn has(path: &Path, names: &[(usize, &[u16])]) -> bool {
    for (place, units) in names {
        match path.get(*place) {
            Some(name) if name.as_slice() == *units => {}
            _ => return false,
        }
    }
    true
}

/// Whether a name is written so.
fn writes(alloc: Global, units: &[u16], text: &[u8]) -> bool {
    let mut written = Vec::new(alloc);
    write_name(units, &mut written).is_ok() && written.as_slice() == text
}

/// What a text that is no path breaks, and where.
static BROKEN: [(&[u8], PathError); 16] = [
    (b"", PathError::BadPath { place: 0 }),
    (b"a", PathError::BadPath { place: 0 }),
    (b"//", PathError::BadPath { place: 1 }),
    (b"/a/", PathError::BadPath { place: 3 }),
    (b"/a//b", PathError::BadPath { place: 3 }),
    (b"/a b", PathError::BadPath { place: 2 }),
    (b"/\x7f", PathError::BadPath { place: 1 }),
    (b"/%", PathError::BadPath { place: 2 }),
    (b"/%U0041", PathError::BadPath { place: 2 }),
    (b"/%u00", PathError::BadPath { place: 5 }),
    (b"/%u00g1", PathError::BadPath { place: 5 }),
    (b"/%u0000", PathError::BadPath { place: 6 }),
    (b"/%u002F", PathError::BadPath { place: 6 }),
    (b"/.", PathError::BadPath { place: 2 }),
    (b"/./a", PathError::BadPath { place: 2 }),
    (b"/..", PathError::BadPath { place: 3 }),
];

/// How many of the texts are refused so, before the first that isn't.
fn refused(alloc: Global) -> usize {
    let mut count: usize = 0;
    for (text, why) in BROKEN.iter() {
        if !refuses(alloc, text, *why) {
            return count;
        }
        count = count.saturating_add(1);
    }
    count
}

#[test]
fn texts_that_are_no_paths(rt: HostRuntime) {
    assert!(rt; refused(rt.alloc()) == 16);
}

static NAMES: [(usize, &[u16]); 3] = [(0, &[0x61]), (1, &[0x62, 0xabcd]), (2, &[0x2e, 0x2e, 0x2e])];

#[test]
fn names_of_paths(rt: HostRuntime) {
    assert!(rt; reads(rt.alloc(), b"/", 0, &[]));
    assert!(rt; reads(rt.alloc(), b"/a/%u0062%uABcd/...", 3, &NAMES));
}

#[test]
fn long_names(rt: HostRuntime) {
    let mut text = [b'n'; 257];
    text[0] = b'/';
    assert!(rt; is_longest(rt.alloc(), &text));
}

/// Whether it is a path of one name without its last unit, and none with it.
fn is_longest(alloc: Global, text: &[u8; 257]) -> bool {
    reads(alloc, &text[..256], 1, &[])
        && refuses(alloc, text, PathError::NameTooLong { place: 256 })
}

#[test]
fn names_as_text(rt: HostRuntime) {
    let units = [0x61, 0x20, 0x25, 0x2f7e, 0x7e, 0xabcd];
    assert!(rt; writes(rt.alloc(), &units, b"a%u0020%u0025%u2F7E~%uABCD"));
}
