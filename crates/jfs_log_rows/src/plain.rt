//! A plain model of a log: all of its text, from page number 0 on.

ghost use Rattle.std.specs.Prelude.{◌≡◌, ◌<◌, ◌^◌, length};

use jfs_logpages::{GroupText, RingText};
use std::alloc::{AllocError, Global};

/// The address just past so many bytes of text, in a ring of so many pages.
pub fn address(ring: u32, size: usize) -> u32
    requires ring { (0 < ring) × (ring < 2 ^ 16) }
    requires size { size < 2 ^ 40 }
{
    if size == 0 {
        return 0;
    }
    let page = ((size - 1) / 4080) as u64 % u64::from(ring);
    let offset = (size - 1) % 4080;
    ((page + 2) * 4096 + 9) as u32 + offset as u32
}

/// All of a log's text, and where the records of its newest group end.
#[derive(Drop)]
pub struct Plain {
    ring: u32,
    bytes: Vec<u8>,
    newest: Vec<usize>,
}

impl Plain {
    /// A fresh log: zeros on all pages but the last, and a SYNCPT that names itself.
    pub fn fresh(alloc: Global, ring: u32) -> Result<Plain, AllocError> {
        let mut bytes = Vec::new(alloc);
        for _i in 1..ring {
            bytes.extend_from_slice(&[0; 4080])?;
        }
        bytes.extend_from_slice(&[0, 0, 0, 0, 0, 0, 0, 0, 0, 0x40])?;
        bytes.extend_from_slice(&[0; 26])?;
        Ok(Plain {
            ring,
            bytes,
            newest: Vec::new(alloc),
        })
    }

    /// How many bytes it has.
    pub fn size(&self) -> usize
        ensures { result ≡ length self.now.bytes.items }
    {
        self.bytes.len()
    }

    /// Adds a group.
    pub fn add(&mut self, text: &GroupText) -> Result<(), AllocError> {
        let before = self.bytes.len();
        self.newest.clear();
        for end in text.ends() {
            self.newest.push(before.saturating_add(*end as usize))?;
        }
        self.bytes.extend_from_slice(text.bytes())?;
        Ok(())
    }

    /// Whether this is what its ring reads as: the newest half of its pages, and the newest group's records.
    pub fn is_read(&self, read: &RingText) -> bool {
        let pages = self.bytes.len().div_ceil(4080);
        let half = (self.ring / 2) as usize;
        if pages < half {
            return false;
        }
        let start = 4080 * (pages - half);
        if start > self.bytes.len() || &self.bytes[start..] != read.bytes() {
            return false;
        }
        are_back(read.ends(), &self.newest, start)
    }
}

/// Whether these are the ends from a place on, the last one first.
fn are_back(back: &[u32], ends: &[usize], start: usize) -> bool {
    if back.len() != ends.len() {
        return false;
    }
    for i in 0..back.len() {
        let end = ends[ends.len() - 1 - i];
        if end < start || back[i] as usize != end - start {
            return false;
        }
    }
    true
}
