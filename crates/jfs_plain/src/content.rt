//! What a file holds.

ghost use Rattle.std.specs.Prelude.{◌≡◌, ◌+◌, ◌<◌, ◌≤◌, ◌^◌, ℕ, nat_lt, if◌then◌else◌, [], List, length, get_or, OnOk, OnErr};
ghost use Rattle.jfs_bits.specs.Field.{put_bytes};
ghost use Rattle.jfs_plain.specs.Moves.{byte_after};

use std::alloc::{AllocError, Global};
use std::marker::Model;

/// The bytes of a file up to some end; those behind it are zeros.
#[derive(Debug, Drop)]
pub struct Content {
    bytes: Vec<u8>,
}

impl Model for Content {
    ghost Value = { List ℕ };

    ghost view = { λ c. c.bytes.items };
}

impl Content {
    /// Zeros alone.
    pub fn new(alloc: Global) -> Content
        ensures { result ≡ [] }
    {
        Content {
            bytes: Vec::new(alloc),
        }
    }

    /// These bytes, and zeros behind them.
    pub fn from_bytes(bytes: Vec<u8>) -> Content
        ensures { result ≡ bytes.items }
    {
        Content { bytes }
    }

    /// The byte at an offset.
    pub fn byte(&self, offset: u64) -> u8
        ensures { result ≡ get_or self.now offset 0 }
    {
        self.bytes.get(offset as usize).copied().unwrap_or(0)
    }

    /// Puts bytes at an offset; at `Err` all is as it was.
    pub fn put(&mut self, offset: u64, bytes: &[u8]) -> Result<(), AllocError>
        requires { offset + length bytes.now < 2 ^ 64 }
        ensures ok { OnOk result ((i : ℕ) → get_or self.new i 0 ≡ byte_after (λ k. get_or self.old k 0) offset bytes.now i) }
        ensures err { OnErr result (self.new ≡ self.old) }
    {
        let offset = offset as usize;
        grow(&mut self.bytes, offset + bytes.len())?;
        put_at(self.bytes.as_mut_slice(), offset, bytes);
        Ok(())
    }

    /// Only zeros are left behind an end.
    pub fn cut(&mut self, end: u64)
        ensures { (i : ℕ) → get_or self.new i 0 ≡ (if nat_lt i end then get_or self.old i 0 else 0) }
    {
        self.bytes.truncate(end as usize);
    }
}

/// At least so many bytes are kept; at `Err` all is as it was.
fn grow(bytes: &mut Vec<u8>, end: usize) -> Result<(), AllocError>
    ensures ok { OnOk result ((i : ℕ) → get_or bytes.new.items i 0 ≡ get_or bytes.old.items i 0) }
    ensures enough { OnOk result (end ≤ length bytes.new.items) }
    ensures err { OnErr result (bytes.new.items ≡ bytes.old.items) }
{
    if bytes.len() < end {
        bytes.resize(end, 0)?;
    }
    Ok(())
}

/// Puts bytes over others.
fn put_at(into: &mut [u8], at: usize, bytes: &[u8])
    requires { at + length bytes.now ≤ length into.old }
    ensures { into.new ≡ put_bytes at bytes.now into.old }
{
    into[at..at + bytes.len()].copy_from_slice(bytes);
}
