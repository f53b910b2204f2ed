//! The text of a log's ring.

ghost use Rattle.std.specs.Prelude.{◌≡◌, ◌<◌, ◌≤◌, ◌*◌, ◌/◌, ◌^◌, length};
ghost use Rattle.jfs_logpages.specs.Back.{address_at};

use crate::place::Window;

/// The body bytes of the newest half ring, from its oldest page up to the end of the last record,
/// and where the records end from the place on that the newest SYNCPT gives.
#[derive(Drop)]
pub struct RingText {
    bytes: Vec<u8>,
    ends: Vec<u32>,
    ring: u32,
    first: u64,
    ghost ring_small: { (0 < ring) × (ring < 2 ^ 16) },
    ghost first_small: { first < 2 ^ 40 },
    ghost half: { length bytes.items ≤ 4080 * (ring / 2) },
    ghost some: { 0 < length bytes.items },
}

impl RingText {
    /// The text of a window of a ring.
    pub(crate) fn new(bytes: Vec<u8>, ends: Vec<u32>, ring: u32, first: u64) -> RingText
        requires ring { (0 < ring) × (ring < 2 ^ 16) }
        requires first { first < 2 ^ 40 }
        requires half { length bytes.items ≤ 4080 * (ring / 2) }
        requires some { 0 < length bytes.items }
        ensures bytes { result.bytes.items ≡ bytes.items }
        ensures ends { result.ends.items ≡ ends.items }
        ensures ring { result.ring ≡ ring }
        ensures first { result.first ≡ first }
    {
        RingText {
            bytes,
            ends,
            ring,
            first,
        }
    }

    /// The body bytes.
    pub fn bytes(&self) -> &[u8]
        ensures { result.now ≡ self.now.bytes.items }
    {
        &self.bytes
    }

    /// Where each record ends in the bytes, the last one first.
    pub fn ends(&self) -> &[u32]
        ensures { result.now ≡ self.now.ends.items }
    {
        &self.ends
    }

    /// The address just past so many bytes.
    pub fn address(&self, place: usize) -> u32
        requires { (0 < place) × (place ≤ length self.now.bytes.items) }
        ensures { result ≡ address_at self.now.ring self.now.first place }
    {
        let window = Window {
            ring: self.ring,
            first: self.first,
            size: self.bytes.len(),
        };
        window.address(place)
    }

    /// The address of the end.
    pub fn end(&self) -> u32
        ensures { result ≡ address_at self.now.ring self.now.first (length self.now.bytes.items) }
    {
        self.address(self.bytes.len())
    }
}
