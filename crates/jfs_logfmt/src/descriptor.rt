//! The 36 bytes that end a record.

ghost use Rattle.std.specs.Prelude.{◌≡◌, ◌≤◌, ◌<◌, ◌^◌, length};
ghost use Rattle.jfs_bits.specs.Descriptor.{FitsPxd};
ghost use Rattle.jfs_logfmt.specs.Descriptor.{descriptor_of, descriptor_bytes};

use jfs_bits::{Pxd, get_pxd, get_u16, get_u32, put_pxd, put_u16, put_u32};

/// What ends a record's text. (JFS Log, `lrd`.)
#[derive(Clone, Copy, Debug)]
pub struct Descriptor {
    /// The number of the transaction.
    pub tid: u32,
    /// Where the transaction's record before this one ends, or 0.
    pub back: u32,
    /// The number of the record's type.
    pub number: u16,
    /// The number of bytes of data before the descriptor.
    pub length: u16,
    /// The fileset; of a syncpoint its address.
    pub fileset: u32,
    pub inode: u32,
    /// The page type or map type.
    pub kind: u16,
    /// The logarithm of a line's bytes, or the number of runs.
    pub count: u16,
    /// The page.
    pub at: Pxd,
}

/// The descriptor in 36 bytes.
pub fn get_descriptor(bytes: &[u8]) -> Descriptor
    requires { 36 ≤ length bytes.now }
    ensures value { result ≡ descriptor_of bytes.now }
    ensures fits { FitsPxd result.at }
    ensures ranges { (result.length < 2 ^ 16) × (result.count < 2 ^ 16) × (result.kind < 2 ^ 16) }
{
    Descriptor {
        tid: get_u32(bytes, 0),
        back: get_u32(bytes, 4),
        number: get_u16(bytes, 8),
        length: get_u16(bytes, 10),
        fileset: get_u32(bytes, 16),
        inode: get_u32(bytes, 20),
        kind: get_u16(bytes, 24),
        count: get_u16(bytes, 26),
        at: get_pxd(bytes, 28),
    }
}

/// The 36 bytes of a descriptor, with zeros where no field stands.
pub fn descriptor_text(d: Descriptor) -> [u8; 36]
    requires { FitsPxd d.at }
    ensures bytes { result ≡ descriptor_bytes d }
    ensures read_back { descriptor_of result ≡ d }
{
    let mut text = [0u8; 36];
    let bytes: &mut [u8] = &mut text;
    put_u32(bytes, 0, d.tid);
    put_u32(bytes, 4, d.back);
    put_u16(bytes, 8, d.number);
    put_u16(bytes, 10, d.length);
    put_u32(bytes, 16, d.fileset);
    put_u32(bytes, 20, d.inode);
    put_u16(bytes, 24, d.kind);
    put_u16(bytes, 26, d.count);
    put_pxd(bytes, 28, d.at);
    text
}
