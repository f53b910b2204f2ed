//! Whether a transaction can be logged.

ghost use Rattle.std.specs.Prelude.{◌≡◌, ◌<◌, ◌≤◌, ◌+◌, ◌*◌, ◌/◌, true, length, get_or};
ghost use Rattle.std.specs.List.{AllByRecursion};
ghost use Rattle.jfs_records.specs.Limits.{IsLoggable, CanLog, AreLines, AreAllNew};
ghost use Rattle.jfs_records.specs.Records.{noted};

use jfs_bits::{PageKind, Pxd};
use jfs_logfmt::PageType;
use jfs_ranges::{Edit, Tx};
use jfs_records::{Note, Notes};

/// Whether the log of a volume of so many blocks can have a transaction, with what its records name: lines are whole ones of pages behind the first 16, those of an inode extent are all of its lines, and
/// runs lie within the volume.
pub fn is_loggable(blocks: u32, tx: &Tx, notes: &Notes) -> bool
    requires { length tx.now ≡ length notes.now }
    ensures yes { result ≡ true → AllByRecursion (IsLoggable blocks) (noted tx.now notes.now) }
    ensures no { AllByRecursion (IsLoggable blocks) (noted tx.now notes.now) → result ≡ true }
{
    let (edits, notes) = (tx.as_slice(), notes.as_slice());
    for i in 0..edits.len() {
        let note = note_at(notes, i);
        if !can_log(blocks, note, &edits[i]) {
            return false;
        }
    }
    true
}

fn note_at(notes: &[Note], i: usize) -> Note
    requires { i < length notes.now }
    ensures { result ≡ get_or notes.now i result }
{
    notes[i]
}

/// Whether one edit can be logged with this note, whose numbers have 32 bits.
fn can_log(blocks: u32, note: Note, edit: &Edit) -> bool
    ensures yes { result ≡ true → IsLoggable blocks (record { edit = edit.now; note = note }) }
    ensures no { IsLoggable blocks (record { edit = edit.now; note = note }) → result ≡ true }
{
    let _ = (note.fileset, note.inode);
    can_log_edit(blocks, note.new_page, edit)
}

/// Whether one edit can be logged.
fn can_log_edit(blocks: u32, new_page: bool, edit: &Edit) -> bool
    ensures yes { result ≡ true → CanLog blocks new_page edit.now }
    ensures no { CanLog blocks new_page edit.now → result ≡ true }
{
    match edit {
        Edit::Lines {
            page,
            kind,
            first,
            bytes,
        } => are_lines(blocks, *kind, new_page, *page, *first, bytes.as_slice()),
        Edit::NoRedo { page } => 16 <= *page && *page < blocks,
        Edit::Alloc(run) | Edit::Free(run) => lies_within(blocks, run),
    }
}

fn lies_within(blocks: u32, run: &Pxd) -> bool
    ensures low { result ≡ true → run.now.addr < blocks }
    ensures high { result ≡ true → run.now.addr + run.now.len ≤ blocks }
    ensures no { run.now.addr < blocks → run.now.addr + run.now.len ≤ blocks → result ≡ true }
{
    let (addr, len) = (run.addr, run.len);
    let blocks = u64::from(blocks);
    if addr >= blocks {
        return false;
    }
    addr + u64::from(len) <= blocks
}

/// Whether bytes from a line of a page on are whole lines of it, at least one, of a page behind the first 16.
fn are_lines(
    blocks: u32,
    kind: PageKind,
    new_page: bool,
    page: u32,
    first: u32,
    bytes: &[u8],
) -> bool
    ensures yes { result ≡ true → AreLines blocks kind new_page page first bytes.now }
    ensures no { AreLines blocks kind new_page page first bytes.now → result ≡ true }
{
    let pages = PageType::new(kind, new_page).blocks();
    let (line, count) = (kind.line_size(), bytes.len());
    if page < 16 || u64::from(page) + u64::from(pages) > u64::from(blocks) {
        return false;
    }
    if first >= 65536 || count == 0 || count > 16_384 {
        return false;
    }
    if first as usize * line + count > pages as usize * 4096 {
        return false;
    }
    is_whole(count, line) && is_all_new(kind, new_page, first, bytes)
}

fn is_whole(count: usize, line: usize) -> bool
    ensures yes { result ≡ true → count ≡ count / line * line }
    ensures no { 0 < line → count ≡ count / line * line → result ≡ true }
{
    line > 0 && count % line == 0
}

/// New inodes come four pages at once.
fn is_all_new(kind: PageKind, new_page: bool, first: u32, bytes: &[u8]) -> bool
    ensures yes { result ≡ true → AreAllNew kind new_page first bytes.now }
    ensures no { AreAllNew kind new_page first bytes.now → result ≡ true }
{
    match (kind, new_page) {
        (PageKind::Inode, true) => first == 0 && bytes.len() == 16_384,
        _ => true,
    }
}
