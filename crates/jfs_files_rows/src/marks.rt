//! Notes and marks of the transactions of calls, beside values that were worked out by hand.

use crate::told::last;
use jfs_bits::{PageKind, Pxd};
use jfs_marks::{InodeMarks, Marking};
use jfs_ranges::Edit;
use jfs_records::Note;
use std::alloc::{AllocError, Global};
use std::test::*;

/// The marks of the last line, where they fit and the transaction can be logged.
fn marks(alloc: Global, text: &[u8]) -> Option<InodeMarks> {
    let told = last(alloc, text)?;
    match told.marking {
        Marking::Fits(marks) if told.loggable => Some(marks),
        _ => None,
    }
}

/// Whether the last line marks this extent, an inode that comes into use, and one that goes out of it.
fn are_marks(
    alloc: Global,
    text: &[u8],
    extent: Option<Pxd>,
    taken: Option<u32>,
    freed: Option<u32>,
) -> bool {
    marks(alloc, text)
        == Some(InodeMarks {
            extent,
            taken,
            freed,
        })
}

/// A script, the inode that its last line takes into use, and the one that it frees. A new object takes the lowest one, a last name frees one, and all other calls mark none.
static MARKS: [(&[u8], Option<u32>, Option<u32>); 12] = [
    (b"create /a 0644\n", Some(4), None),
    (b"create /a 0644\nmkdir /d 0755\n", Some(5), None),
    (b"symlink /l target\n", Some(4), None),
    (b"create /a 0644\nunlink /a\n", None, Some(4)),
    (b"mkdir /d 0755\nrmdir /d\n", None, Some(4)),
    (
        b"create /a 0644\ncreate /b 0644\nrename /a /b\n",
        None,
        Some(5),
    ),
    (b"create /a 0644\nlink /a /b\n", None, None),
    (b"create /a 0644\nlink /a /b\nunlink /a\n", None, None),
    (b"chmod / 0711\n", None, None),
    (b"create /a 0644\nfill /a 0 9000 07\n", None, None),
    (
        b"create /a 0644\nfill /a 0 9000 07\ntruncate /a 4097\n",
        None,
        None,
    ),
    (b"create /a 0644\nrename /a /b\n", None, None),
];

#[test]
fn inodes_are_marked(rt: HostRuntime) {
    for (text, taken, freed) in MARKS.iter() {
        assert!(rt;
            are_marks(rt.alloc(), text, None, *taken, *freed),
            "{text:?}"
        );
    }
}

/// Files in the root directory, so many of them.
fn files(alloc: Global, count: u8) -> Result<Vec<u8>, AllocError> {
    let mut text = Vec::new(alloc);
    for k in 0..count {
        text.extend_from_slice(b"create /f")?;
        text.push(b'a' + k / 26)?;
        text.push(b'a' + k % 26)?;
        text.extend_from_slice(b" 0644\n")?;
    }
    Ok(text)
}

// The root directory has one page below its root by then, and block 36 begins the lowest aligned run of four.
#[test]
fn a_new_extent_is_marked(rt: HostRuntime) {
    let alloc = rt.alloc();
    let text = files(alloc, 29).expect(&rt, "memory");
    let at = Pxd { len: 4, addr: 36 };
    assert!(rt; are_marks(alloc, &text, Some(at), Some(32), None));
}

/// A sort of edits.
#[derive(Clone, Copy)]
enum Sort {
    Extent,
    Alloc,
    Free,
    NamesPage,
}

/// Whether an edit is of this sort.
fn is_of(sort: Sort, edit: &Edit) -> bool {
    match (sort, edit) {
        (Sort::Alloc, Edit::Alloc(_)) => true,
        (Sort::Free, Edit::Free(_)) => true,
        (Sort::Extent, Edit::Lines { bytes, .. }) => bytes.len() == 16_384,
        (Sort::NamesPage, Edit::Lines { kind, .. }) => *kind == PageKind::Dtree,
        _ => false,
    }
}

/// The inode, the kind and whether the page is new, of the note of an edit of fileset 16.
type Wanted = (u32, PageKind, bool);

fn is_note(note: Option<&Note>, wanted: Wanted) -> bool {
    let (inode, kind, new_page) = wanted;
    match note {
        Some(a) => {
            a.fileset == 16 && a.inode == inode && a.kind == kind && a.new_page == new_page
        }
        None => false,
    }
}

/// Whether every edit of the last line of this sort has this note, and there is one.
fn all_are(alloc: Global, text: &[u8], sort: Sort, wanted: Wanted) -> Option<bool> {
    let told = last(alloc, text)?;
    let mut some = false;
    for (i, edit) in told.tx.iter().enumerate() {
        if is_of(sort, edit) {
            some = true;
            if !is_note(told.notes.as_slice().get(i), wanted) {
                return Some(false);
            }
        }
    }
    Some(some)
}

/// The page of inodes that an edit changes lines of.
fn inode_page(edit: &Edit) -> Option<u32> {
    match edit {
        Edit::Lines {
            page,
            kind: PageKind::Inode,
            bytes,
            ..
        } if bytes.len() != 16_384 => Some(*page),
        _ => None,
    }
}

/// The last page of inodes that the last line changes lines of, where each of these pages has its first inode's note: page 29 begins with inode 0.
fn last_inode_page(alloc: Global, text: &[u8]) -> Option<u32> {
    let told = last(alloc, text)?;
    let mut last = None;
    for (i, edit) in told.tx.iter().enumerate() {
        if let Some(page) = inode_page(edit) {
            let first = page.checked_sub(29)?.saturating_mul(8);
            if !is_note(
                told.notes.as_slice().get(i),
                (first, PageKind::Inode, false),
            ) {
                return None;
            }
            last = last.max(Some(page));
        }
    }
    last
}

/// A script.
#[derive(Clone, Copy)]
enum Script {
    Text(&'static [u8]),
    /// So many new files.
    Files(u8),
}

fn text_of(alloc: Global, script: Script) -> Result<Vec<u8>, AllocError> {
    match script {
        Script::Text(text) => Vec::from_slice(alloc, text),
        Script::Files(count) => files(alloc, count),
    }
}

/// Edits of the last line of a script, and their note. The ninth name makes a page below the root directory's root, which is new.
static NOTES: [(Script, Sort, Wanted); 5] = [
    (Script::Files(29), Sort::Extent, (32, PageKind::Inode, true)),
    (
        Script::Text(b"create /a 0644\nfill /a 0 9000 07\n"),
        Sort::Alloc,
        (4, PageKind::Inode, false),
    ),
    (
        Script::Text(b"create /a 0644\nfill /a 0 9000 07\ntruncate /a 0\n"),
        Sort::Free,
        (4, PageKind::Inode, false),
    ),
    (
        Script::Files(9),
        Sort::NamesPage,
        (2, PageKind::Dtree, true),
    ),
    (
        Script::Files(10),
        Sort::NamesPage,
        (2, PageKind::Dtree, false),
    ),
];

#[test]
fn edits_have_notes(rt: HostRuntime) {
    let alloc = rt.alloc();
    for (script, sort, wanted) in NOTES.iter() {
        let text = text_of(alloc, *script).expect(&rt, "memory");
        assert!(rt;
            all_are(alloc, &text, *sort, *wanted) == Some(true),
            "{text:?}"
        );
    }
}

// Inode 12 stands on the second page, and the root directory on the first.
#[test]
fn pages_of_inodes_have_their_first_inode(rt: HostRuntime) {
    let alloc = rt.alloc();
    assert!(rt; last_inode_page(alloc, b"create /a 0644\n") == Some(29));
    let text = files(alloc, 9).expect(&rt, "memory");
    assert!(rt; last_inode_page(alloc, &text) == Some(30));
}
