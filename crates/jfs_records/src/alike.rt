//! Which edits may stand in one record.

ghost use Rattle.std.specs.Prelude.{◌≡◌, ◌^◌, ◌-◌, min};
ghost use Rattle.jfs_logfmt.specs.Kinds.{page_number, page_blocks};
ghost use Rattle.jfs_records.specs.Sizes.{edit_bytes};
ghost use Rattle.jfs_records.specs.Records.{record_for, is_alike as is_record_alike, is_page_of as is_record_of_page, is_map_of as is_record_of_map};

use crate::note::Note;
use jfs_logfmt::PageType;
use jfs_ranges::Edit;

/// Whether the edit is of that page, of one block, with that owner.
fn is_page_of(page: u32, of: PageType, owner: Note, edit: &Edit, note: Note) -> bool
    ensures { result ≡ is_record_of_page owner.fileset owner.inode (page_number of) (record { len = page_blocks of; addr = page }) (record_for note edit.now) }
{
    match edit {
        Edit::Lines {
            page: other,
            kind,
            ..
        } => {
            let as_of = PageType::new(*kind, note.new_page);
            owner.fileset == note.fileset
                && owner.inode == note.inode
                && of.number() == as_of.number()
                && of.blocks() == 1
                && as_of.blocks() == 1
                && page == *other
        }
        Edit::NoRedo { .. } | Edit::Alloc(_) | Edit::Free(_) => false,
    }
}

/// Whether the edit takes or frees blocks of that object.
fn is_map_of(alloc: bool, owner: Note, edit: &Edit, note: Note) -> bool
    ensures { result ≡ is_record_of_map owner.fileset owner.inode alloc (record_for note edit.now) }
{
    match edit {
        Edit::Alloc(_) => alloc && owner.fileset == note.fileset && owner.inode == note.inode,
        Edit::Free(_) => !alloc && owner.fileset == note.fileset && owner.inode == note.inode,
        Edit::Lines { .. } | Edit::NoRedo { .. } => false,
    }
}

/// Whether both edits are of the same page, of one block, or of the same object's map.
pub fn is_alike(first: &Edit, owner: Note, edit: &Edit, note: Note) -> bool
    ensures { result ≡ is_record_alike (record_for owner first.now) (record_for note edit.now) }
{
    match first {
        Edit::Lines { page, kind, .. } => is_page_of(
            *page,
            PageType::new(*kind, owner.new_page),
            owner,
            edit,
            note,
        ),
        Edit::NoRedo { .. } => false,
        Edit::Alloc(_) => is_map_of(true, owner, edit, note),
        Edit::Free(_) => is_map_of(false, owner, edit, note),
    }
}

/// The bytes of the edit's data in a record, up to the greatest number.
pub fn data_size(edit: &Edit) -> usize
    ensures { result ≡ min (edit_bytes edit.now) (2 ^ 64 - 1) }
{
    match edit {
        Edit::Lines { bytes, .. } => bytes.len().saturating_add(4),
        Edit::NoRedo { .. } => 0,
        Edit::Alloc(_) | Edit::Free(_) => 8,
    }
}
