//! The log's superblock.

ghost use Rattle.std.specs.Prelude.{◌≡◌, true, if◌then◌else◌};
ghost use Rattle.jfs_bits.specs.Piece.{puts};
ghost use Rattle.jfs_logfmt.specs.Super.{is_log_super, log_super_of, log_super_pieces};

use crate::log_record::BadRecord;
use jfs_bits::{Rule, get_array, get_u32, put_array, put_u32};
use jfs_disk::Page;
use uuid::Uuid;

const MAGIC: u32 = 0x8765_4321;

const VERSION: u32 = 1;

/// The log's superblock, on page 1 of the log. (JFS header, `struct logsuper`.)
#[derive(Clone, Copy, PartialEq, Eq, Debug)]
pub struct LogSuper {
    pub serial: u32,
    /// The length of the log in pages.
    pub size: u32,
    pub state: u32,
    /// The volume's.
    pub uuid: Uuid,
    pub label: [u8; 16],
}

/// Reads the log's superblock.
///
/// # Errors
///
/// Rule `super` exactly where the page hasn't its magic number and version.
pub fn read_log_super(page: &Page) -> Result<LogSuper, BadRecord>
    ensures { result ≡ (if is_log_super page.now.0 then Ok (log_super_of page.now.0) else Err (record { rule = Rule.Super })) }
{
    let bytes: &[u8] = &page.0;
    if get_u32(bytes, 0) != MAGIC || get_u32(bytes, 4) != VERSION {
        return Err(BadRecord { rule: Rule::Super });
    }
    Ok(LogSuper {
        serial: get_u32(bytes, 8),
        size: get_u32(bytes, 12),
        state: get_u32(bytes, 28),
        uuid: Uuid::from_bytes(get_array(bytes, 36)),
        label: get_array(bytes, 52),
    })
}

/// Puts the log's superblock into a page; all other bytes stay.
pub fn write_log_super(s: &LogSuper, page: &mut Page)
    ensures bytes { page.new.0 ≡ puts (log_super_pieces s.now) page.old.0 }
    ensures known { is_log_super page.new.0 ≡ true }
    ensures read_back { log_super_of page.new.0 ≡ s.now }
{
    let s = *s;
    let bytes: &mut [u8] = &mut page.0;
    put_u32(bytes, 0, MAGIC);
    put_u32(bytes, 4, VERSION);
    put_u32(bytes, 8, s.serial);
    put_u32(bytes, 12, s.size);
    put_u32(bytes, 16, 4096);
    put_u32(bytes, 20, 12);
    put_u32(bytes, 24, 0);
    put_u32(bytes, 28, s.state);
    put_u32(bytes, 32, 0);
    put_array(bytes, 36, s.uuid.as_bytes());
    put_array(bytes, 52, &s.label);
}
