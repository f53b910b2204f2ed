//! What the records of a transaction name beside its edits.

ghost use Rattle.std.specs.Prelude.{◌≡◌, ◌≤◌, length, IfOk};
ghost use Rattle.jfs_bits.specs.Bits.{is_in_run};
ghost use Rattle.jfs_bits.specs.Field.{field_of};
ghost use Rattle.jfs_disk.specs.Image.{page_of};
ghost use Rattle.jfs_ranges.specs.View.{CarriesCount};
ghost use Rattle.jfs_marks.specs.Owners.{no_owner, last_owner};
ghost use Rattle.jfs_marks.specs.Notes.{note_by, lines_note, tree_kind, allocates, notes_on, IsNextOwner};

use crate::founded::is_extent;
use crate::owner::{NO_OWNER, Owner, owner_of};
use jfs_bits::{PageKind, Pxd, get_u32};
use jfs_ranges::{Edit, PageView, Tx, ViewError};
use jfs_records::{Note, Notes};
use std::alloc::Global;

/// The fileset of a volume's files.
const FILESET: u32 = 16;

/// What the records of a file call's transaction name beside its edits. (JFS Log, REDOPAGE, NOREDOPAGE, UPDATEMAP.)
///
/// An inode page is named by its first inode. A page of a tree is named by the inode whose tree it is: a call tells a tree's edits before the lines of its inode, so it is that of the next lines of an
/// inode, and of the last ones where none follow. A page that goes is one of names where that inode is a directory, else one of extents. Blocks that are taken or freed are named by the first inode that
/// has lines in the transaction. A page is new where it is logged whole and the transaction takes its block, and so are the four pages of an inode extent.
///
/// # Errors
///
/// A page of inodes that the transaction changes could not be read, or memory ran out.
pub fn notes_of<V: PageView>(alloc: Global, view: &mut V, tx: &Tx) -> Result<Notes, ViewError>
    ensures image { V.PageView.tells → V.PageView.image view.new ≡ V.PageView.image view.old }
    ensures count_of_blocks { V.PageView.block_count view.new ≡ V.PageView.block_count view.old }
    ensures device { V.PageView.device view.new ≡ V.PageView.device view.old }
    ensures fault { CarriesCount (V.PageView.faults view.old) (V.PageView.faults view.new) result }
    // They are those of the pages, whatever the volume holds.
    ensures notes { V.PageView.tells → IfOk result (λ notes. notes ≡ notes_on (V.PageView.block_count view.old) (page_of (V.PageView.image view.old)) tx.now) }
    // Each edit has one.
    ensures each { IfOk result (λ notes. length notes ≡ length tx.now) }
{
    let last = last_owner(view, tx)?;
    let object = next_owner(view, tx, 0, last)?.owner;
    let mut notes = Notes::new(alloc);
    let mut next = Next {
        owner: object,
        until: 0,
    };
    for i in 0..tx.len() {
        if i >= next.until {
            next = next_owner(view, tx, i, last)?;
        }
        let note = note_by(tx, &tx.as_slice()[i], next.owner, object);
        if notes.push(note).is_err() {
            return Err(ViewError::Memory);
        }
    }
    Ok(notes)
}

/// The note of one edit, whose tree's inode this is, in a transaction on this object.
fn note_by(tx: &Tx, edit: &Edit, owner: Owner, object: Owner) -> Note
    ensures { result ≡ note_by tx.now owner object edit.now }
{
    match edit {
        Edit::Lines {
            page,
            kind,
            first,
            bytes,
        } => lines_note(tx, *page, *kind, *first, bytes.as_slice(), owner),
        Edit::NoRedo { .. } => note(owner.inode, tree_kind(owner), false),
        Edit::Alloc(_) | Edit::Free(_) => note(object.inode, PageKind::Inode, false),
    }
}

/// The note of lines.
fn lines_note(tx: &Tx, page: u32, kind: PageKind, first: u32, bytes: &[u8], owner: Owner) -> Note
    ensures { result ≡ lines_note tx.now page kind first bytes.now owner }
{
    match kind {
        PageKind::Inode => {
            if is_extent(kind, first, bytes) {
                note(first_in(bytes), kind, true)
            } else {
                note(owner.first, kind, false)
            }
        }
        PageKind::Xtree | PageKind::Dtree | PageKind::Index => {
            let new = first == 0 && bytes.len() == 4096 && takes(tx, page);
            note(owner.inode, kind, new)
        }
    }
}

/// A note of the volume's files.
fn note(inode: u32, kind: PageKind, new_page: bool) -> Note
    ensures { result ≡ record { fileset = 16; inode = inode; kind = kind; new_page = new_page } }
{
    Note {
        fileset: FILESET,
        inode,
        kind,
        new_page,
    }
}

/// The kind of the pages of an inode's tree.
fn tree_kind(owner: Owner) -> PageKind
    ensures { result ≡ tree_kind owner }
{
    if owner.is_directory {
        PageKind::Dtree
    } else {
        PageKind::Xtree
    }
}

/// The number of the first inode of a new extent with these bytes.
fn first_in(bytes: &[u8]) -> u32
    requires { 12 ≤ length bytes.now }
    ensures { result ≡ field_of bytes.now 8 4 }
{
    get_u32(bytes, 8)
}

/// Whether an edit of a transaction takes block `b`.
fn takes(tx: &Tx, b: u32) -> bool
    ensures { result ≡ allocates tx.now b }
{
    for edit in tx.as_slice() {
        if let Edit::Alloc(run) = edit {
            if is_in(run, u64::from(b)) {
                return true;
            }
        }
    }
    false
}

fn is_in(run: &Pxd, b: u64) -> bool
    ensures { result ≡ is_in_run run.now.addr run.now.len b }
{
    run.addr <= b && b - run.addr < u64::from(run.len)
}

/// The inode of the next lines of one behind a place, and a place before which it stays that.
#[derive(Clone, Copy)]
struct Next {
    owner: Owner,
    until: usize,
}

/// The inode of the next lines of one from a place on, or `last` where none follow.
fn next_owner<V: PageView>(
    view: &mut V,
    tx: &Tx,
    from: usize,
    last: Owner,
) -> Result<Next, ViewError>
    ensures image { V.PageView.tells → V.PageView.image view.new ≡ V.PageView.image view.old }
    ensures count_of_blocks { V.PageView.block_count view.new ≡ V.PageView.block_count view.old }
    ensures device { V.PageView.device view.new ≡ V.PageView.device view.old }
    ensures fault { CarriesCount (V.PageView.faults view.old) (V.PageView.faults view.new) result }
    ensures next { V.PageView.tells → IfOk result (IsNextOwner (V.PageView.block_count view.old) (page_of (V.PageView.image view.old)) tx.now from last) }
{
    let edits = tx.as_slice();
    for i in from..edits.len() {
        match owner_of(view, tx, &edits[i]) {
            Ok(Some(owner)) => {
                return Ok(Next {
                    owner,
                    until: i + 1,
                });
            }
            Ok(None) => {}
            Err(e) => return Err(e),
        }
    }
    Ok(Next {
        owner: last,
        until: edits.len(),
    })
}

/// The inode of the last lines of one.
fn last_owner<V: PageView>(view: &mut V, tx: &Tx) -> Result<Owner, ViewError>
    ensures image { V.PageView.tells → V.PageView.image view.new ≡ V.PageView.image view.old }
    ensures count_of_blocks { V.PageView.block_count view.new ≡ V.PageView.block_count view.old }
    ensures device { V.PageView.device view.new ≡ V.PageView.device view.old }
    ensures fault { CarriesCount (V.PageView.faults view.old) (V.PageView.faults view.new) result }
    ensures last { V.PageView.tells → IfOk result (λ owner. owner ≡ last_owner (V.PageView.block_count view.old) (page_of (V.PageView.image view.old)) tx.now tx.now no_owner) }
{
    let mut last = NO_OWNER;
    for edit in tx.as_slice() {
        match owner_of(view, tx, edit) {
            Ok(Some(owner)) => last = owner,
            Ok(None) => {}
            Err(e) => return Err(e),
        }
    }
    Ok(last)
}
