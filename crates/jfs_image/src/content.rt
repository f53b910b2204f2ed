//! The bytes that the blocks of a file hold.

ghost use Rattle.std.specs.Prelude.{◌≡◌, ◌%◌, ◌/◌, ◌+◌, ◌<◌, ◌==◌, ◌&&◌, nat_lt, if◌then◌else◌, ℕ, [], IfOk, get_or};
ghost use Rattle.jfs_plain.specs.Step.{bytes_from};
ghost use Rattle.jfs_reader.specs.objects.specs.Contents.{block_of};
ghost use Rattle.jfs_reader.specs.meaning.specs.Contents.{is_regular};
ghost use Rattle.jfs_image.specs.View.{image_of};
ghost use Rattle.jfs_image.specs.Held.{byte_in_file};

use crate::view::ListView;
use jfs_bits::Xad;
use jfs_inode::Dinode;
use jfs_reader::page_of_block;
use std::alloc::{AllocError, Global};

/// The bytes of a regular file with these extents up to its end; another object holds none.
pub(crate) fn file_bytes(
    alloc: Global,
    view: &ListView<'_>,
    extents: &[Xad],
    d: &Dinode,
) -> Result<Vec<u8>, AllocError>
    ensures { IfOk result (λ bytes. bytes.items ≡ (if is_regular d.now then bytes_from (byte_in_file (image_of view.now) extents.now) 0 d.now.size else [])) }
{
    if d.mode & Dinode::TYPE != Dinode::REGULAR {
        return Ok(Vec::new(alloc));
    }
    stored_bytes(alloc, view, extents, d.size)
}

/// The first so many bytes of a file with these extents.
pub(crate) fn stored_bytes(
    alloc: Global,
    view: &ListView<'_>,
    extents: &[Xad],
    count: u64,
) -> Result<Vec<u8>, AllocError>
    ensures { IfOk result (λ bytes. bytes.items ≡ bytes_from (byte_in_file (image_of view.now) extents.now) 0 count) }
{
    let mut bytes = Vec::new(alloc);
    for i in 0..count {
        bytes.push(stored_byte(view, extents, i))?;
    }
    Ok(bytes)
}

/// The byte at an offset of a file with these extents; 0 where it has no block.
fn stored_byte(view: &ListView<'_>, extents: &[Xad], i: u64) -> u8
    ensures { result ≡ byte_in_file (image_of view.now) extents.now i }
{
    match page_of_block(extents, view.len(), i / 4096) {
        Ok(Some(n)) => view.byte(n, (i % 4096) as usize),
        Ok(None) => 0,
        Err(_) => 0,
    }
}
