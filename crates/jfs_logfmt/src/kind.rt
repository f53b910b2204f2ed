//! The numbers of the log's types, each table both ways. (JFS Log.)

ghost use Rattle.std.specs.Prelude.{◌≡◌};
ghost use Rattle.jfs_logfmt.specs.Kinds.{type_number, type_of, page_type, page_number, page_of, page_blocks, map_number, map_of};
ghost use Rattle.jfs_bits.specs.Line.{l2_line};

use jfs_bits::PageKind;

/// The types of records that this log has.
#[derive(Clone, Copy, PartialEq, Eq, Debug)]
pub enum RecordType {
    Commit,
    SyncPt,
    RedoPage,
    NoRedoPage,
    UpdateMap,
}

impl RecordType {
    /// The type's number.
    pub fn number(self) -> u16
        ensures { result ≡ type_number self }
    {
        match self {
            RecordType::Commit => 0x8000,
            RecordType::SyncPt => 0x4000,
            RecordType::RedoPage => 0x0800,
            RecordType::NoRedoPage => 0x0080,
            RecordType::UpdateMap => 0x0008,
        }
    }

    /// The type with this number, `None` exactly where there is none.
    pub fn of(number: u16) -> Option<RecordType>
        ensures { result ≡ type_of number }
    {
        match number {
            0x8000 => Some(RecordType::Commit),
            0x4000 => Some(RecordType::SyncPt),
            0x0800 => Some(RecordType::RedoPage),
            0x0080 => Some(RecordType::NoRedoPage),
            0x0008 => Some(RecordType::UpdateMap),
            _ => None,
        }
    }
}

/// A page's type: its kind, and whether the page is new.
#[derive(Clone, Copy, PartialEq, Eq, Debug)]
pub struct PageType {
    pub kind: PageKind,
    pub new_page: bool,
}

impl PageType {
    /// A page type of its parts.
    pub fn new(kind: PageKind, new_page: bool) -> PageType
        ensures { result ≡ page_type kind new_page }
    {
        PageType { kind, new_page }
    }

    /// The type's number.
    pub fn number(self) -> u16
        ensures { result ≡ page_number self }
    {
        let kind = self.kind.number();
        if self.new_page { kind + 0x100 } else { kind }
    }

    /// The page type with this number, `None` exactly where there is none.
    pub fn of(number: u16) -> Option<PageType>
        ensures { result ≡ page_of number }
    {
        let (kind, new_page) = match number {
            0x001 => (PageKind::Inode, false),
            0x002 => (PageKind::Xtree, false),
            0x004 => (PageKind::Dtree, false),
            0x008 => (PageKind::Index, false),
            0x101 => (PageKind::Inode, true),
            0x102 => (PageKind::Xtree, true),
            0x104 => (PageKind::Dtree, true),
            0x108 => (PageKind::Index, true),
            _ => return None,
        };
        Some(PageType::new(kind, new_page))
    }

    /// The number of blocks of such a page: new inodes come four blocks at once.
    pub fn blocks(self) -> u32
        ensures { result ≡ page_blocks self }
    {
        match (self.kind, self.new_page) {
            (PageKind::Inode, true) => 4,
            _ => 1,
        }
    }
}

/// The number of a map record's type: blocks that are allocated, or blocks that are freed.
pub fn map_type_number(alloc: bool) -> u16
    ensures { result ≡ map_number alloc }
{
    if alloc { 0x40 } else { 0x04 }
}

/// Whether a map record's blocks are allocated, `None` exactly where the type isn't used.
pub fn map_type_of(number: u16) -> Option<bool>
    ensures { result ≡ map_of number }
{
    match number {
        0x40 => Some(true),
        0x04 => Some(false),
        _ => None,
    }
}
