//! Records written and read back.

ghost use Rattle.std.specs.Prelude.{◌≡◌, length, IfOk};
ghost use Rattle.jfs_logfmt.specs.Written.{Fits};
ghost use Rattle.jfs_logfmt.specs.Rules.{IsRecordOf, IsRead};

use jfs_bits::Blob;
use jfs_logfmt::{Record, RecordError, read_record_before, write_record};
use std::alloc::{AllocError, Global};

/// Writes a record after what stands there, and reads it back.
pub fn there_and_back(
    alloc: Global,
    front: Vec<u8>,
    r: &Record,
    blocks: u32,
) -> Result<(Record, usize), RecordError>
    requires fits { Fits r.now }
    requires sound { IsRecordOf blocks r.now }
    ensures { IsRead result (λ x. (x.0 ≡ r.now) × (x.1 ≡ length front.items)) }
{
    let mut bytes = front;
    write_record(r, &mut bytes)?;
    read_record_before(alloc, bytes.as_slice(), blocks)
}

/// The bytes as a list.
pub fn blob_of(alloc: Global, bytes: &[u8]) -> Result<Blob, AllocError>
    ensures { IfOk result (λ b. b ≡ bytes.now) }
{
    let mut blob = Blob::new(alloc);
    for byte in bytes {
        blob.push(*byte)?;
    }
    Ok(blob)
}
